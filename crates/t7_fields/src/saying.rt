//! Messages of roles, written field by field, by the names of the fields.

ghost use Rattle.std.specs.Prelude.{[], ◌∷◌, ◌≡◌, ◌≤◌, ◌++◌, IfSome, length, drop, take};
ghost use Rattle.t7_fields.specs.Writing.{AddsSaid, AreSaid, IsWritten, SaysSoFar, longest, message_saying, role_size};
ghost use Rattle.t7_layout.specs.Lookups.{find_role};
ghost use Rattle.t7_layout.specs.Roles.{family_of};

use crate::bytes::write_scalar;
use crate::writer::{Scalar, clear};
use t7_layout::{FieldName, Role, Table};

/// Begins a message of a role, in which no field is set yet, and answers how many bytes it has: the length of the role's
/// template. Bytes past these stay as they are.
#[inline(always)]
pub fn begin(table: &Table, role: Role, out: &mut [u8]) -> usize
    requires room { role_size table.now role ≤ length out.old }
    ensures size { result ≡ role_size table.now role }
    ensures said { SaysSoFar table.now role [] out.old out.new }
    ensures same_length { length out.new ≡ length out.old }
{
    clear(table.role(role), out)
}

/// Sets a field of a message of a role that was begun in these bytes. The field is one that the role requires, other than
/// BodyLen and TemplateID; the number is of its kind and width, and is not the one that stands for no value.
#[inline(always)]
pub fn say(table: &Table, role: Role, name: FieldName, number: Scalar, out: &mut [u8])
    requires room { role_size table.now role ≤ length out.old }
    requires said { AreSaid table.now role ((name, number) ∷ []) }
    ensures said { AddsSaid table.now role (name, number) out.old out.new }
    ensures same_length { length out.new ≡ length out.old }
{
    let field = table.at(role, name);
    write_scalar(out, field.offset(), number);
}

/// Writes a message of a role, in which each of these fields has its number and no other field is set, and answers how
/// many bytes it has: the length of the role's template. Bytes past these stay as they are.
///
/// A field is one that the role requires, other than BodyLen and TemplateID, which the message has by itself. Its number
/// is of its kind and width and is not the one that stands for no value, and no field stands twice. The bytes have room
/// for the longest message of the role's family: 1,024 bytes in order entry, 128 in market data.
pub fn write(table: &Table, role: Role, fields: &[(FieldName, Scalar)], out: &mut [u8]) -> usize
    requires room { longest (family_of role) ≤ length out.old }
    requires said { AreSaid table.now role fields.now }
    ensures length { IfSome (find_role table.now role) (λ t. result ≡ t.size) }
    ensures bytes { out.new ≡ message_saying table.now role fields.now ++ drop result out.old }
    ensures written { IsWritten table.now role fields.now (take result out.new) }
    ensures rest { drop result out.new ≡ drop result out.old }
    ensures same_length { length out.new ≡ length out.old }
{
    let _templates = table.templates();
    let size = begin(table, role, out);
    for &(name, number) in fields {
        say(table, role, name, number, out);
    }
    size
}
