//! The text of a table.

ghost use Rattle.std.specs.Prelude.{◌≡◌, ◌++◌, ◌∷◌, [], OnOk, OnErr, decimal};
ghost use Rattle.std.specs.List.{flat_map};
ghost use Rattle.t7_layout.specs.Texts.{BeginsWith, line_of};
ghost use Rattle.t7_layout.specs.Rows.{family_text};

use crate::templates::Template;
use itoa::Buffer;
use std::alloc::AllocError;

// Adds a text and the byte behind it.
fn push_cell(out: &mut Vec<u8>, text: &[u8], end: u8) -> Result<(), AllocError>
    ensures ok { OnOk result (out.new.items ≡ out.old.items ++ text.now ++ end ∷ []) }
    ensures err { OnErr result (BeginsWith out.old.items out.new.items) }
{
    out.extend_from_slice(text)?;
    out.push(end)?;
    Ok(())
}

// Adds the family and the id of a template.
fn push_key(out: &mut Vec<u8>, template: &Template) -> Result<(), AllocError>
    ensures ok { OnOk result (out.new.items ≡ out.old.items ++ family_text template.now.family ++ 32 ∷ decimal template.now.id ++ 32 ∷ []) }
    ensures err { OnErr result (BeginsWith out.old.items out.new.items) }
{
    push_cell(out, template.family().text(), b' ')?;
    push_cell(out, Buffer::new().format(template.id()).as_bytes(), b' ')
}

// Adds the name and the length of a template.
fn push_name(out: &mut Vec<u8>, template: &Template) -> Result<(), AllocError>
    ensures ok { OnOk result (out.new.items ≡ out.old.items ++ template.now.name ++ 32 ∷ decimal template.now.size ++ 10 ∷ []) }
    ensures err { OnErr result (BeginsWith out.old.items out.new.items) }
{
    push_cell(out, template.name().as_bytes(), b' ')?;
    push_cell(out, Buffer::new().format(template.len()).as_bytes(), b'\n')
}

// Adds the line of a template.
#[tactic(auto, unfolding(crate::specs::Texts::line_of))]
fn push_line(out: &mut Vec<u8>, template: &Template) -> Result<(), AllocError>
    ensures ok { OnOk result (out.new.items ≡ out.old.items ++ line_of template.now) }
    ensures err { OnErr result (BeginsWith out.old.items out.new.items) }
{
    push_key(out, template)?;
    push_name(out, template)
}

// Adds the lines of templates.
fn push_lines(out: &mut Vec<u8>, templates: &[Template]) -> Result<(), AllocError>
    ensures ok { OnOk result (out.new.items ≡ out.old.items ++ flat_map line_of templates.now) }
    ensures err { OnErr result (BeginsWith out.old.items out.new.items) }
{
    for template in templates {
        push_line(out, template)?;
    }
    Ok(())
}

/// Adds the lines of templates, or nothing.
pub(crate) fn add_lines(out: &mut Vec<u8>, templates: &[Template]) -> Result<(), AllocError>
    ensures ok { OnOk result (out.new.items ≡ out.old.items ++ flat_map line_of templates.now) }
    ensures err { OnErr result (out.new.items ≡ out.old.items) }
{
    let held = out.len();
    match push_lines(out, templates) {
        Ok(()) => Ok(()),
        Err(refused) => {
            out.truncate(held);
            Err(refused)
        }
    }
}
