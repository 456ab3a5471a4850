//! How many bytes a message has when it is written.

ghost use Rattle.std.specs.Prelude.{◌≡◌, ◌≢◌, ◌≤◌, IsSome};
ghost use Rattle.t7_base.specs.declared.public.Public.TheVariants as public;
ghost use Rattle.t7_layout.specs.declared.words.Family.TheVariants.{Eobi};
ghost use Rattle.t7_layout.specs.Lookups.{find_role};
ghost use Rattle.t7_layout.specs.Roles.{family_of};
ghost use Rattle.t7_eobi.specs.Bytes.{role_for, snap_role};
ghost use Rattle.t7_eobi.specs.Sizes.{message_size, snap_size};

use crate::roles::{role_for, snap_role};
use crate::walks::Snap;
use t7_base::Public;
use t7_layout::{Role, Table};

/// How many bytes a live message has, from 8 to 128: those of its role's template, which every table has.
pub fn message_size(table: &Table, message: &Public) -> usize
    requires { message.now ≢ public.Other }
    ensures size { result ≡ message_size table.now message.now }
    ensures found { IsSome (find_role table.now (role_for message.now)) }
    ensures short { result ≤ 128 }
{
    table.role(role_for(message)).len()
}

/// How many bytes an item of a snapshot has, from 8 to 128: those of its role's template, which every table has.
pub fn snap_size(table: &Table, snap: &Snap) -> usize
    ensures size { result ≡ snap_size table.now snap.now }
    ensures found { IsSome (find_role table.now (snap_role snap.now)) }
    ensures short { result ≤ 128 }
{
    table.role(snap_role(snap)).len()
}
