//! Whole messages of market data, each of the role that its template has.

ghost use Rattle.std.specs.Prelude.{◌≡◌, ◌≤◌, ◌+◌, IfSome, IfNone, true, false, length, drop};
ghost use Rattle.t7_layout.specs.declared.words.Family.TheVariants.{Eobi};
ghost use Rattle.t7_layout.specs.Roles.{family_of};
ghost use Rattle.t7_eobi.specs.Datagrams.{body_of, front_message, is_cut, role_of};
ghost use Rattle.t7_eobi.specs.Faults.{has_room};

use byteorder::{ByteOrder, LittleEndian};
use t7_fields::Fields;
use t7_layout::{Family, Role, Table};

/// The message that bytes begin with, and the bytes behind it. None exactly where they begin with no whole message.
pub(crate) fn split(rest: &[u8]) -> Option<(&[u8], &[u8])>
    ensures none { IfNone result (is_cut rest.now ≡ true) }
    ensures whole { IfSome result (λ p. is_cut rest.now ≡ false) }
    ensures message { IfSome result (λ p. p.0.now ≡ front_message rest.now) }
    ensures after { IfSome result (λ p. p.1.now ≡ drop (body_of rest.now) rest.now) }
    ensures said { IfSome result (λ p. body_of p.0.now ≡ length p.0.now) }
    ensures long { IfSome result (λ p. 8 ≤ length p.0.now) }
    ensures length { IfSome result (λ p. length p.0.now ≡ body_of rest.now) }
    ensures sum { IfSome result (λ p. length p.0.now + length p.1.now ≡ length rest.now) }
{
    if is_cut(rest) {
        return None;
    }
    Some(split_whole(rest))
}

// Whether bytes begin with no whole message.
fn is_cut(rest: &[u8]) -> bool
    ensures { result ≡ is_cut rest.now }
{
    if rest.len() < 8 {
        return true;
    }
    let body = LittleEndian::read_u16(rest) as usize;
    body < 8 || rest.len() < body
}

/// The message that bytes begin with, and the bytes behind it, where the message is known to be whole.
pub(crate) fn split_whole(rest: &[u8]) -> (&[u8], &[u8])
    requires { is_cut rest.now ≡ false }
    ensures message { result.0.now ≡ front_message rest.now }
    ensures after { result.1.now ≡ drop (body_of rest.now) rest.now }
    ensures said { body_of result.0.now ≡ length result.0.now }
    ensures long { 8 ≤ length result.0.now }
    ensures length { length result.0.now ≡ body_of rest.now }
    ensures sum { length result.0.now + length result.1.now ≡ length rest.now }
{
    rest.split_at(LittleEndian::read_u16(rest) as usize)
}

/// The role of a message, by its TemplateID. None exactly where its template, if the table has it, has no role.
pub(crate) fn role_of(table: &Table, message: &[u8]) -> Option<Role>
    requires { 8 ≤ length message.now }
    ensures value { result ≡ role_of table.now message.now }
    ensures family { IfSome result (λ role. family_of role ≡ Eobi) }
{
    let id = LittleEndian::read_u16(message.split_at(2).1);
    match table.template(Family::Eobi, id) {
        Some(template) => template.role(),
        None => None,
    }
}

/// Whether a message is no shorter than the template of a role.
pub(crate) fn has_room(table: &Table, role: Role, message: &[u8]) -> bool
    ensures { result ≡ has_room table.now role message.now }
{
    table.role(role).len() <= message.len()
}

/// A message of a role, by the names of its fields.
pub(crate) fn read<'a>(table: &'a Table, role: Role, message: &'a [u8]) -> Fields<'a>
    requires room { has_room table.now role message.now ≡ true }
    requires said { body_of message.now ≡ length message.now }
    requires family { family_of role ≡ Eobi }
    ensures { result ≡ record { layouts = table.now; role = role; bytes = message.now } }
{
    Fields::known(table, role, message)
}
