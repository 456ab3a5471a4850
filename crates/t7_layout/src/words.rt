//! The words of a layout table.

ghost use Rattle.std.specs.Prelude.{◌≡◌};
ghost use Rattle.t7_layout.specs.Texts.{why_text};

use thiserror::Error;

/// The two message sets that a layout table describes.
#[derive(Clone, Copy, Debug, PartialEq, Eq)]
pub enum Family {
    /// Order entry: the Enhanced Trading Interface.
    Eti,
    /// Market data: the Enhanced Order Book Interface.
    Eobi,
}

/// How a field's bytes are read: the data type of a field in the message layout tables.
#[derive(Clone, Copy, Debug, PartialEq, Eq)]
pub enum Kind {
    /// A little-endian number of 1, 2, 4 or 8 bytes.
    Unsigned,
    /// A little-endian number in two's complement, of 1, 2, 4 or 8 bytes.
    Signed,
    /// 1 to 1,024 bytes as they are.
    Raw,
}

/// Why a row is refused. The tests of a row are made in this order, and the first that fails is told.
#[derive(Clone, Copy, Debug, PartialEq, Eq)]
pub enum TableWhy {
    /// It has not eight cells; of the first row, that it is not there or is not the heading.
    Columns,
    /// Its family is neither `ETI` nor `EOBI`.
    Family,
    /// A name, the id, the offset or the width is not spelled as it should be or not in its range.
    Cell,
    /// Its kind is none of `U`, `I` and `X`.
    Kind,
    /// A number has not 1, 2, 4 or 8 bytes.
    Width,
    /// The null is no number of the field's kind and width; or the field is the length or the id of a message, which have none; or a role requires the field, and the null is not the extreme number of its width.
    Null,
    /// It begins a template whose family and id an earlier row has.
    DuplicateId,
    /// It begins a template whose family and name an earlier row has, or its field's name stands earlier in its template.
    DuplicateName,
    /// Its field begins before the end of the one before it.
    Overlap,
    /// Its field begins behind the end of the one before it, or the first field behind the message's first byte.
    Hole,
    /// It is its template's last, and the template's length is no multiple of 8, or over 1,024, or of a market data role over 128.
    Length,
    /// It is its template's last, and the template does not begin with its family's header.
    Header,
    /// It is the last of a role's template, which lacks a required field of the required kind and width.
    RoleField,
    /// No row is wrong, but a role has no template; the row is the one behind the last.
    RoleMissing,
}

impl TableWhy {
    /// The word for it: what a refusal prints.
    pub fn text(self) -> &'static str
        ensures { result.now ≡ why_text self }
    {
        match self {
            TableWhy::Columns => "columns",
            TableWhy::Family => "family",
            TableWhy::Cell => "cell",
            TableWhy::Kind => "kind",
            TableWhy::Width => "width",
            TableWhy::Null => "null",
            TableWhy::DuplicateId => "duplicate id",
            TableWhy::DuplicateName => "duplicate name",
            TableWhy::Overlap => "overlap",
            TableWhy::Hole => "hole",
            TableWhy::Length => "length",
            TableWhy::Header => "header",
            TableWhy::RoleField => "role field",
            TableWhy::RoleMissing => "role missing",
        }
    }
}

/// The first fault of a table that is not valid: that of its least row with a failing test.
#[derive(Clone, Copy, Debug, PartialEq, Eq, Error)]
#[error("row {row}: {text}", text = .why.text())]
pub struct TableFault {
    /// The row of the file, from 1 for the heading; blank lines are no rows.
    pub row: u32,
    /// The first test that it fails.
    pub why: TableWhy,
}
