//! What is looked up in a table, resolved once when it is read: no message is then looked for by a name.

ghost use Rattle.std.specs.Prelude.{◌≡◌, ◌≤◌, ◌<◌, ◌+◌, ◌*◌, ◌++◌, ◌^◌, ℕ, Some, IfOk, OnOk, true, length, map, slice_get, slice_index};
ghost use Rattle.t7_layout.specs.Roles.{name_number, role_number};
ghost use Rattle.std.specs.List.{flat_map};
ghost use Rattle.std.specs.Option.{option_copied};
ghost use Rattle.t7_layout.specs.Inside.{ArePlacesOfIds, ArePlacesOfRoles, field_in, layout_before, place_of_role};
ghost use Rattle.t7_layout.specs.Lookups.{find_role, find_template, holds_role, is_layout_of, place_in};

use crate::fields::FieldRef;
use crate::roles::{FieldName, Role};
use crate::rows::same_family;
use crate::templates::Template;
use crate::words::Family;
use std::alloc::{AllocError, Global};

// Whether a template is of a role.
fn is_layout_of(t: &Template, role: Role) -> bool
    ensures { result ≡ is_layout_of role t.now }
{
    same_family(t.family(), role.family()) && t.name().as_bytes() == role.name()
}

// The place of the template of a role, and the number of templates where there is none.
fn place_of_role(templates: &[Template], role: Role) -> usize
    ensures { result ≡ place_of_role templates.now role }
{
    for place in 0..templates.len() {
        if is_layout_of(&templates[place], role) {
            return place;
        }
    }
    templates.len()
}

/// The places of the templates of these roles.
pub(crate) fn places_of_roles(
    alloc: Global,
    templates: &[Template],
    roles: &[Role],
) -> Result<Vec<usize>, AllocError>
    ensures { IfOk result (λ v. v.items ≡ map (place_of_role templates.now) roles.now) }
{
    let mut places = Vec::new(alloc);
    for role in roles {
        places.push(place_of_role(templates, *role))?;
    }
    Ok(places)
}

// The template of a role.
#[tactic(auto, unfolding(crate::specs::Lookups::find_role))]
fn find_role(templates: &[Template], role: Role) -> Option<&Template>
    ensures { option_copied result ≡ find_role templates.now role }
{
    templates.iter().find(|t| is_layout_of(t, role))
}

// The field of a role's template that has a name.
fn field_of_role(templates: &[Template], role: Role, name: FieldName) -> Option<FieldRef>
    ensures { result ≡ place_in templates.now role name }
{
    match find_role(templates, role) {
        Some(template) => template.field(role.family(), name),
        None => None,
    }
}

// The same, and the filler where there is none.
fn field_in(templates: &[Template], role: Role, name: FieldName) -> FieldRef
    ensures { result ≡ field_in templates.now role name }
{
    field_of_role(templates, role, name).unwrap_or(FieldRef::filler())
}

// Adds, for each of these names, the field of a role's template, or the filler.
fn push_fields(
    fields: &mut Vec<FieldRef>,
    templates: &[Template],
    role: Role,
    names: &[FieldName],
) -> Result<(), AllocError>
    ensures { OnOk result (fields.new.items ≡ fields.old.items ++ map (field_in templates.now role) names.now) }
{
    for name in names {
        fields.push(field_in(templates, role, *name))?;
    }
    Ok(())
}

/// For each of these roles, for each of these names, the field of the role's template that has it, or the filler.
pub(crate) fn fields_of_roles(
    alloc: Global,
    templates: &[Template],
    roles: &[Role],
    names: &[FieldName],
) -> Result<Vec<FieldRef>, AllocError>
    ensures { IfOk result (λ v. v.items ≡ flat_map (λ role. map (field_in templates.now role) names.now) roles.now) }
{
    let mut fields = Vec::new(alloc);
    for role in roles {
        push_fields(&mut fields, templates, *role, names)?;
    }
    Ok(fields)
}

// Notes the place behind each template of a family, from the last to the first.
fn note_ids(places: &mut [u32], templates: &[Template], family: Family)
    requires count { length templates.now < 2 ^ 32 }
    requires fresh { ArePlacesOfIds templates.now family (length templates.now) places.old }
    ensures { ArePlacesOfIds templates.now family 0 places.new }
{
    let mut left = templates.len();
    while left > 0 {
        let template = &templates[left - 1];
        if same_family(template.family(), family) {
            places[template.id() as usize] = left as u32;
        }
        left -= 1;
    }
}

// So many zeros.
fn zeros(alloc: Global, count: usize) -> Result<Vec<u32>, AllocError>
    ensures long { IfOk result (λ v. length v.items ≡ count) }
    ensures zero { IfOk result (λ v. (i : ℕ) → slice_index v.items i ≡ 0) }
{
    vec![in alloc; 0u32; count]
}

/// The places behind the templates of a family, by their ids.
pub(crate) fn places_of_ids(
    alloc: Global,
    templates: &[Template],
    family: Family,
) -> Result<Vec<u32>, AllocError>
    requires { length templates.now < 2 ^ 32 }
    ensures { IfOk result (λ v. ArePlacesOfIds templates.now family 0 v.items) }
{
    let mut places = zeros(alloc, 65536)?;
    note_ids(&mut places, templates, family);
    Ok(places)
}

// The template just before a place, and none before place 0.
fn template_before(templates: &[Template], place: usize) -> Option<&Template>
    ensures { option_copied result ≡ layout_before templates.now place }
{
    if place == 0 {
        return None;
    }
    templates.get(place - 1)
}

/// The template of a family and an id.
pub(crate) fn template_of_id<'a>(
    templates: &'a [Template],
    eti: &[u32],
    eobi: &[u32],
    family: Family,
    id: u16,
) -> Option<&'a Template>
    requires eti { ArePlacesOfIds templates.now Family.Eti 0 eti.now }
    requires eobi { ArePlacesOfIds templates.now Family.Eobi 0 eobi.now }
    ensures { option_copied result ≡ find_template templates.now family id }
{
    match family {
        Family::Eti => template_before(templates, eti[id as usize] as usize),
        Family::Eobi => template_before(templates, eobi[id as usize] as usize),
    }
}

/// The template of a role.
pub(crate) fn template_of_role<'a>(
    templates: &'a [Template],
    places: &[usize],
    role: Role,
) -> &'a Template
    requires places { ArePlacesOfRoles templates.now places.now }
    requires holds { holds_role templates.now role ≡ true }
    ensures { find_role templates.now role ≡ Some result.now }
{
    &templates[places[role.number()]]
}

/// The field of a role that has a name.
pub(crate) fn field_of(fields: &[FieldRef], role: Role, name: FieldName) -> FieldRef
    requires { role_number role * 35 + name_number name < length fields.now }
    ensures { slice_get fields.now (role_number role * 35 + name_number name) ≡ Some result }
{
    fields[role.number() * 35 + name.number()]
}
