//! The templates of a layout table.

ghost use Rattle.std.specs.Prelude.{◌≡◌, ◌≤◌, ◌<◌, ◌+◌, List, ℕ, IfOk, IfSome, IfNone, length, map, true, false};
ghost use Rattle.t7_records.specs.Records.{record_at};
ghost use Rattle.t7_layout.specs.Faults.{IsValid};
ghost use Rattle.t7_layout.specs.Images.{blank};
ghost use Rattle.t7_layout.specs.Layouts.{IsLayout, Layout, Place};
ghost use Rattle.t7_layout.specs.Lookups.{find_field, is_layout_of, is_place, role_of_layout};
ghost use Rattle.t7_layout.specs.Rows.{ends};
ghost use Rattle.t7_layout.specs.Tables.{layout_at, table_of};

use crate::checks::start_of;
use crate::fields::{FieldRef, fields_of, names_of};
use crate::images::image_of;
use crate::roles::{FieldName, Role};
use crate::rows::*;
use crate::words::Family;
use std::alloc::{AllocError, Global};
use std::marker::Model;
use t7_records::Records;

/// A template: a kind of message, with its fields in order. It stands for one message of the message layout tables.
#[derive(Drop)]
pub struct Template {
    family: Family,
    id: u16,
    name: String,
    size: usize,
    names: Vec<Vec<u8>>,
    fields: Vec<FieldRef>,
    role: Option<Role>,
    image: Vec<u8>,
}

impl Model for Template {
    ghost use Rattle.std.specs.Prelude.{map};
    ghost use Rattle.std.specs.String.{string_bytes};
    ghost use Rattle.t7_layout.specs.Layouts.{Layout};

    ghost Value = { Layout };

    ghost view = { λ a. record { family = a.family; id = a.id; name = string_bytes a.name; size = a.size; names = map (λ n. n.items) a.names.items; fields = a.fields.items } };

    ghost use Rattle.t7_layout.specs.Inside.{IsTemplate};

    ghost invariant = { λ a. IsTemplate (record { family = a.family; id = a.id; name = string_bytes a.name; size = a.size; names = map (λ n. n.items) a.names.items; fields = a.fields.items }) a.role a.image.items };
}

impl Template {
    /// Whether it is a message of order entry or of market data.
    pub fn family(&self) -> Family
        ensures { result ≡ self.now.family }
    {
        self.family
    }

    /// The number by which a message names it, from 1 to 65,535. No two templates of one family share it.
    pub fn id(&self) -> u16
        ensures { result ≡ self.now.id }
    {
        self.id
    }

    /// Its name: 1 to 40 ASCII letters, digits or underscores.
    pub fn name(&self) -> &str
        ensures { result.now ≡ self.now.name }
    {
        self.name.as_str()
    }

    /// How many bytes a message of it has at least: a multiple of 8, from 8 to 1,024.
    pub fn len(&self) -> usize
        ensures value { result ≡ self.now.size }
        ensures layout { IsLayout self.now }
    {
        self.size
    }

    /// The role that it has in the product, by its family and its name. None exactly where these are no role's.
    pub fn role(&self) -> Option<Role>
        ensures value { result ≡ role_of_layout self.now }
        ensures some { IfSome result (λ role. is_layout_of role self.now ≡ true) }
        ensures none { IfNone result ((role : Role) → is_layout_of role self.now ≡ false) }
    {
        self.role
    }

    /// The bytes of a message of it in which nothing is put: BodyLen says its length and TemplateID its id, and every
    /// other field has the number that stands for no value, or zeros where it has none.
    pub fn image(&self) -> &[u8]
        ensures { result.now ≡ blank self.now }
    {
        self.image.as_slice()
    }

    /// Its fields, in the order of their bytes.
    pub fn fields(&self) -> &[FieldRef]
        ensures { result.now ≡ self.now.fields }
    {
        self.fields.as_slice()
    }

    /// The field of a required name.
    pub(crate) fn field(&self, family: Family, name: FieldName) -> Option<FieldRef>
        ensures { result ≡ find_field family name self.now.names self.now.fields }
    {
        find_field(family, name, self.names.as_slice(), self.fields.as_slice())
    }
}

// Whether a field is the one of this name.
fn is_place(family: Family, name: FieldName, word: &[u8], field: FieldRef) -> bool
    ensures { result ≡ is_place family name word.now field }
{
    word == name.text()
        && same_kind(field.kind(), name.kind())
        && field.width() == name.width(family)
}

// The field of a required name.
fn find_field(
    family: Family,
    name: FieldName,
    names: &[Vec<u8>],
    fields: &[FieldRef],
) -> Option<FieldRef>
    ensures { result ≡ find_field family name (map (λ n. n.items) names.now) fields.now }
{
    for i in 0..names.len() {
        if i >= fields.len() {
            return None;
        }
        let field = fields[i];
        if is_place(family, name, names[i].as_slice(), field) {
            return Some(field);
        }
    }
    None
}

// The template whose last row is at a place, before the row at `end`.
fn template_at(alloc: Global, rows: &Records, at: usize, end: usize) -> Result<Template, AllocError>
    requires first { 0 < at }
    requires next { end ≡ at + 1 }
    requires inside { at < length rows.now }
    requires last { ends rows.now at ≡ true }
    requires valid { IsValid rows.now }
    ensures { IfOk result (λ t. t ≡ layout_at rows.now at) }
{
    let start = start_of(rows, at);
    let size = row_end(rows, at);
    let names = names_of(alloc, rows, start, end)?;
    let fields = fields_of(alloc, rows, start, end, size)?;
    let name = String::from_utf8_lossy(alloc, rows.cell(at, 2))?;
    let family = row_family(rows, at);
    let id = row_id(rows, at) as u16;
    let image = image_of(alloc, family, id, size as usize, &fields)?;
    Ok(Template {
        family,
        id,
        name,
        size: size as usize,
        names,
        fields,
        role: role_of(rows, at),
        image,
    })
}

/// The templates of valid records.
pub(crate) fn templates_of(alloc: Global, rows: &Records) -> Result<Vec<Template>, AllocError>
    requires { IsValid rows.now }
    ensures { IfOk result (λ v. v.items ≡ table_of rows.now) }
{
    let mut templates = Vec::new(alloc);
    for at in 1..rows.len() {
        if ends(rows, at) {
            templates.push(template_at(alloc, rows, at, at + 1)?)?;
        }
    }
    Ok(templates)
}
