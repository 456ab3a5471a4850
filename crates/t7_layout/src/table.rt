//! The layout table.

ghost use Rattle.std.specs.Prelude.{◌≡◌, ◌≤◌, ◌<◌, ◌^◌, ℕ, Some, IfOk, IfErr, IfSome, OnOk, OnErr, ◌++◌, true, Contains, length};
ghost use Rattle.t7_layout.specs.Texts.{table_text};
ghost use Rattle.std.specs.Option.{option_copied};
ghost use Rattle.t7_records.specs.Records.{records_of};
ghost use Rattle.t7_layout.specs.Faults.{IsValid, fault_of};
ghost use Rattle.t7_layout.specs.Roles.{family_of, kind_of, required, width_in};
ghost use Rattle.t7_layout.specs.Lookups.{IsRoleNull, IsTable, find_role, find_template, holds_role, place_in, role_of_layout};
ghost use Rattle.t7_layout.specs.Tables.{table_of};
ghost use Rattle.t7_layout.specs.Refusals.{IsFaultOf};
ghost use Rattle.t7_layout.specs.Layouts.{IsLayout, Layout, Place};

use crate::checks::fault_of;
use crate::fields::FieldRef;
use crate::index::{
    field_of, fields_of_roles, places_of_ids, places_of_roles, template_of_id, template_of_role,
};
use crate::roles::{FieldName, Role};
use crate::templates::{Template, templates_of};
use crate::text::add_lines;
use crate::words::{Family, TableFault};
use std::alloc::{AllocError, Global};
use std::marker::Model;
use t7_records::Records;
use thiserror::Error;

/// Why a table is refused.
#[derive(Clone, Copy, Debug, PartialEq, Eq, Error)]
pub enum TableRefusal {
    /// Its rows are not valid: the least row in fault, and the first test that it fails.
    #[error("the layout table is not valid: {0}")]
    Fault(TableFault),
    /// Memory ran out, or the file has more rows than a fault can name.
    #[error("out of memory")]
    Memory,
}

impl From<AllocError> for TableRefusal {
    ghost use Rattle.t7_layout.specs.declared.table.TableRefusal.TheVariants.{Memory};
    ghost use Rattle.std.specs.Prelude.{◌≡◌};

    ghost from_gives = { λ _ e. e ≡ Memory };

    fn from(_e: AllocError) -> TableRefusal {
        TableRefusal::Memory
    }
}

/// A valid layout table: the templates of both families, with a template for each role.
///
/// Templates by id, templates of roles and fields of roles are found in constant time: they are resolved when the
/// table is read.
#[derive(Drop)]
pub struct Table {
    templates: Vec<Template>,
    role_places: Vec<usize>,
    role_fields: Vec<FieldRef>,
    eti_places: Vec<u32>,
    eobi_places: Vec<u32>,
}

impl Model for Table {
    ghost use Rattle.std.specs.Prelude.{List};
    ghost use Rattle.t7_layout.specs.Layouts.{Layout};

    ghost Value = { List Layout };

    ghost view = { λ a. a.templates.items };

    ghost use Rattle.t7_layout.specs.Inside.{IsIndexed};

    ghost invariant = { λ a. IsIndexed a.templates.items a.role_places.items a.role_fields.items a.eti_places.items a.eobi_places.items };
}

// The table of these templates, with what is looked up in it.
fn indexed(alloc: Global, templates: Vec<Template>) -> Result<Table, AllocError>
    requires table { IsTable templates.items }
    requires count { length templates.items < 2 ^ 32 }
    ensures { IfOk result (λ t. t ≡ templates.items) }
{
    let role_places = places_of_roles(alloc, &templates, &Role::ALL)?;
    let role_fields = fields_of_roles(alloc, &templates, &Role::ALL, &FieldName::ALL)?;
    let eti_places = places_of_ids(alloc, &templates, Family::Eti)?;
    let eobi_places = places_of_ids(alloc, &templates, Family::Eobi)?;
    Ok(Table {
        templates,
        role_places,
        role_fields,
        eti_places,
        eobi_places,
    })
}

impl Table {
    /// Reads a table from the bytes of its file. It is refused exactly where its records are not valid, with the first
    /// fault, or where memory runs out.
    pub fn read(alloc: Global, bytes: &[u8]) -> Result<Table, TableRefusal>
        ensures table { IfOk result (λ t. t ≡ table_of (records_of bytes.now)) }
        ensures valid { IfOk result (λ t. IsValid (records_of bytes.now)) }
        ensures fault { IfErr result (λ e. IsFaultOf (fault_of (records_of bytes.now)) e) }
    {
        let rows = Records::read(alloc, bytes)?;
        if rows.len() >= u32::MAX as usize {
            return Err(TableRefusal::Memory);
        }
        match fault_of(alloc, &rows)? {
            Some(fault) => Err(TableRefusal::Fault(fault)),
            None => {
                let templates = templates_of(alloc, &rows)?;
                Ok(indexed(alloc, templates)?)
            }
        }
    }

    /// The template of a family and an id. None exactly where the table has none.
    pub fn template(&self, family: Family, id: u16) -> Option<&Template>
        ensures found { option_copied result ≡ find_template self.now family id }
        ensures layout { IfSome result (λ t. IsLayout t.now) }
        ensures family { IfSome result (λ t. t.now.family ≡ family) }
        ensures role { IfSome result (λ t. IfSome (role_of_layout t.now) (λ role. find_role self.now role ≡ Some t.now)) }
        ensures table { IsTable self.now }
    {
        template_of_id(
            &self.templates,
            &self.eti_places,
            &self.eobi_places,
            family,
            id,
        )
    }

    /// The template of a role. It is also the one that its family and its id find.
    pub fn role(&self, role: Role) -> &Template
        ensures found { find_role self.now role ≡ Some result.now }
        ensures holds { holds_role self.now role ≡ true }
        ensures layout { IsLayout result.now }
        ensures family { result.now.family ≡ family_of role }
        ensures own { role_of_layout result.now ≡ Some role }
        ensures id { find_template self.now (family_of role) result.now.id ≡ Some result.now }
        ensures short { family_of role ≡ Family.Eobi → result.now.size ≤ 128 }
        ensures table { IsTable self.now }
    {
        template_of_role(&self.templates, &self.role_places, role)
    }

    /// The field of a role's template that has a name, which the role must require. Its kind and its width are those of
    /// the name; its null is none or the extreme number of its width, and none for the message's length and id.
    pub fn at(&self, role: Role, name: FieldName) -> FieldRef
        requires { Contains (required role) name }
        ensures place { place_in self.now role name ≡ Some result }
        ensures field { IfSome (find_role self.now role) (λ t. Contains t.fields result) }
        ensures kind { result.kind ≡ kind_of name }
        ensures width { result.width ≡ width_in (family_of role) name }
        ensures null { IsRoleNull name result }
        ensures table { IsTable self.now }
    {
        field_of(&self.role_fields, role, name)
    }

    /// The templates, in the order of the file.
    pub fn templates(&self) -> &[Template]
        ensures value { result.now ≡ self.now }
        ensures table { IsTable self.now }
    {
        self.templates.as_slice()
    }

    /// Adds a line for each template, in the order of the file: its family, its id, its name and its length in bytes,
    /// as `ETI 101 LogonRequest 24`. Where memory runs out, `out` is as it was.
    pub fn text(&self, out: &mut Vec<u8>) -> Result<(), AllocError>
        ensures ok { OnOk result (out.new.items ≡ out.old.items ++ table_text self.now) }
        ensures err { OnErr result (out.new.items ≡ out.old.items) }
    {
        add_lines(out, &self.templates)
    }
}
