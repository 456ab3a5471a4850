//! A message of a role, whose fields are known by name.

ghost use Rattle.std.specs.Prelude.{◌≡◌, ◌<◌, ◌^◌, ◌≢◌, ◌≤◌, List, Option, Some, Contains, IfOk, IfSome, OnErr, length, option_map, is_some, pos, true, ℤ};
ghost use Rattle.t7_layout.specs.declared.words.Kind.TheVariants.{Unsigned, Signed, Raw};
ghost use Rattle.t7_layout.specs.Lookups.{find_role};
ghost use Rattle.t7_layout.specs.Roles.{kind_of, required, width_in, family_of};
ghost use Rattle.t7_fields.specs.Spelling.{Fits};
ghost use Rattle.t7_fields.specs.Messages.{Message, first_unset, said_number};

use crate::view::{Short, View};
use byteorder::{BigEndian, ByteOrder};
use std::marker::Model;
use t7_layout::{FieldName, Kind, Role, Table};

/// A message of a role, whose fields are read by their names.
///
/// A role is a message of the manuals that the product itself reads or writes, and a field that a role requires has the
/// kind and the width that the manuals give it.
#[derive(Drop)]
pub struct Fields<'a> {
    table: &'a Table,
    role: Role,
    view: View<'a>,
}

impl<'a> Model for Fields<'a> {
    ghost use Rattle.std.specs.Prelude.{◌≡◌, Some};
    ghost use Rattle.t7_layout.specs.Lookups.{find_role};
    ghost use Rattle.t7_fields.specs.Messages.{Message};

    ghost Value = { Message };

    ghost view = { λ a. record { layouts = a.table.now; role = a.role; bytes = a.view.bytes } };

    ghost invariant = { λ a. find_role a.table.now a.role ≡ Some a.view.layout };
}

impl<'a> Fields<'a> {
    /// Reads bytes as a message of a role. Short exactly where these are fewer than the role's template, or the number in
    /// BodyLen is not their count.
    pub fn of(table: &'a Table, role: Role, bytes: &'a [u8]) -> Result<Fields<'a>, Short>
        ensures message { IfOk result (λ m. m ≡ record { layouts = table.now; role = role; bytes = bytes.now }) }
        ensures fits { IfOk result (λ m. IfSome (find_role table.now role) (λ t. Fits t bytes.now)) }
        ensures short { OnErr result (IfSome (find_role table.now role) (λ t. ¬ Fits t bytes.now)) }
    {
        let view = View::of(table.role(role), bytes)?;
        Ok(Fields { table, role, view })
    }

    /// The message of a role under a view of the role's template.
    pub fn over(table: &'a Table, role: Role, view: View<'a>) -> Fields<'a>
        requires { find_role table.now role ≡ Some view.layout }
        ensures message { result ≡ record { layouts = table.now; role = role; bytes = view.entry.bytes } }
    {
        Fields { table, role, view }
    }

    /// A message of a role, of bytes that are known to be no fewer than the role's template, and as many as BodyLen says.
    pub fn known(table: &'a Table, role: Role, bytes: &'a [u8]) -> Fields<'a>
        requires { IfSome (find_role table.now role) (λ t. Fits t bytes.now) }
        ensures message { result ≡ record { layouts = table.now; role = role; bytes = bytes.now } }
    {
        Fields {
            table,
            role,
            view: View::known(table.role(role), bytes),
        }
    }

    /// The role.
    pub fn role(&self) -> Role
        ensures { result ≡ self.now.role }
    {
        self.role
    }

    /// What an unsigned field that the role requires says. None exactly where it says that it has no value.
    pub fn unsigned(&self, name: FieldName) -> Option<u64>
        requires there { Contains (required self.now.role) name }
        requires kind { kind_of name ≡ Unsigned }
        ensures said { option_map pos result ≡ said_number self.now name }
        ensures small { IfSome result (λ n. n < 256 ^ width_in (family_of self.now.role) name) }
    {
        self.view.unsigned(self.table.at(self.role, name))
    }

    /// What a signed field that the role requires says. None exactly where it says that it has no value.
    pub fn signed(&self, name: FieldName) -> Option<i64>
        requires there { Contains (required self.now.role) name }
        requires kind { kind_of name ≡ Signed }
        ensures { result ≡ said_number self.now name }
    {
        self.view.signed(self.table.at(self.role, name))
    }

    /// What an unsigned field that the role requires says, where it is known to say something.
    pub fn known_unsigned(&self, name: FieldName) -> u64
        requires there { Contains (required self.now.role) name }
        requires kind { kind_of name ≡ Unsigned }
        requires known { is_some (said_number self.now name) ≡ true }
        ensures said { Some (pos result) ≡ said_number self.now name }
        ensures small { result < 256 ^ width_in (family_of self.now.role) name }
    {
        self.view.known_unsigned(self.table.at(self.role, name))
    }

    /// What a signed field that the role requires says, where it is known to say something.
    pub fn known_signed(&self, name: FieldName) -> i64
        requires there { Contains (required self.now.role) name }
        requires kind { kind_of name ≡ Signed }
        requires known { is_some (said_number self.now name) ≡ true }
        ensures { Some result ≡ said_number self.now name }
    {
        self.view.known_signed(self.table.at(self.role, name))
    }

    /// What a field of 16 raw bytes says, which are a number with the highest byte first.
    pub fn long(&self, name: FieldName) -> u128
        requires there { Contains (required self.now.role) name }
        requires kind { kind_of name ≡ Raw }
        requires width { width_in (family_of self.now.role) name ≡ 16 }
        ensures { Some (pos result) ≡ said_number self.now name }
    {
        BigEndian::read_u128(self.view.raw(self.table.at(self.role, name)))
    }

    // A field of raw bytes always says something.
    fn is_written(&self, name: FieldName) -> bool
        requires there { Contains (required self.now.role) name }
        requires kind { kind_of name ≡ Raw }
        ensures { result ≡ is_some (said_number self.now name) }
    {
        let _place = self.table.at(self.role, name);
        true
    }

    /// Whether a field that the role requires says anything. One of raw bytes always does.
    pub fn is_set(&self, name: FieldName) -> bool
        requires there { Contains (required self.now.role) name }
        ensures { result ≡ is_some (said_number self.now name) }
    {
        match name.kind() {
            Kind::Unsigned => self.unsigned(name).is_some(),
            Kind::Signed => self.signed(name).is_some(),
            Kind::Raw => self.is_written(name),
        }
    }

    /// The first of these names, all of fields that the role requires, of which the message says nothing.
    #[tactic(auto, unfolding(crate::specs::Messages::first_unset))]
    pub fn first_unset(&self, names: &[FieldName]) -> Option<FieldName>
        requires there { (name : FieldName) → Contains names.now name → Contains (required self.now.role) name }
        ensures { result ≡ first_unset self.now names.now }
    {
        for &name in names {
            if !self.is_set(name) {
                return Some(name);
            }
        }
        None
    }
}
