//! The responses among the bytes of a connection.

ghost use Rattle.std.specs.Prelude.{◌≡◌, ◌≤◌, length, IfSome, true};
ghost use Rattle.t7_layout.specs.declared.words.Family.TheVariants.{Eti};
ghost use Rattle.t7_fields.specs.Spelling.{template_id};
ghost use Rattle.t7_frames.specs.Frames.{IsFrame, front_of};
ghost use Rattle.t7_client.specs.Hearing.{response_by};
ghost use Rattle.t7_client.specs.Sound.{asks};
ghost use Rattle.t7_client.specs.Told.{IsLong, told_at};

use byteorder::{ByteOrder, LittleEndian};
use t7_eti::{Response, read_response};
use t7_fields::View;
use t7_frames::{Frame, FrameBuf, a_front_begins_the_split};
use t7_layout::{Family, Table};

/// What the bytes at the front say.
#[derive(Clone, Copy, Debug, PartialEq, Eq)]
pub(crate) enum Told {
    /// No whole frame has come yet.
    Nothing,
    /// A frame of so many bytes, which is a response.
    Said { said: Response, count: usize },
    /// What stands there is no response, whatever comes behind it.
    Misfit,
}

// The TemplateID of a frame.
fn template_id(frame: &[u8]) -> u16
    requires { 6 ≤ length frame.now }
    ensures { result ≡ template_id Eti frame.now }
{
    LittleEndian::read_u16(&frame[4..])
}

// The response that a frame is.
fn response_by(table: &Table, frame: &[u8]) -> Option<Response>
    requires { IsFrame frame.now }
    ensures value { result ≡ response_by table.now frame.now }
    ensures long { IfSome result (λ said. asks said ≡ true → 16 ≤ length frame.now) }
{
    let template = table.template(Family::Eti, template_id(frame))?;
    let Ok(view) = View::of(template, frame) else {
        return None;
    };
    match read_response(table, view) {
        Ok(said) => Some(said),
        Err(_) => None,
    }
}

/// What the bytes at the front of a connection say. They stay in place.
pub(crate) fn first_told(table: &Table, frames: &mut FrameBuf) -> Told
    ensures value { result ≡ told_at table.now (front_of frames.old) }
    ensures kept { frames.new ≡ frames.old }
    ensures long { IsLong result }
{
    a_front_begins_the_split();
    match frames.front() {
        Frame::NotYet => Told::Nothing,
        Frame::BadLength(_) => Told::Misfit,
        Frame::Whole(frame) => match response_by(table, frame) {
            Some(said) => Told::Said {
                said,
                count: frame.len(),
            },
            None => Told::Misfit,
        },
    }
}
