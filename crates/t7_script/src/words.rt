//! The words with which the lines of a script begin.

ghost use Rattle.std.specs.Prelude.{◌≡◌};
ghost use Rattle.t7_script.specs.Events as spec;

use crate::cells::feed;
use t7_base::Feed;

/// The first cell of a line.
#[derive(Clone, Copy, Debug, PartialEq, Eq)]
pub(crate) enum Word {
    Raw,
    Open,
    In,
    Cut,
    Tick,
    Snap,
    Beat,
    Clear,
    Deliver(Feed),
    Forge,
    Dial,
    Order,
    Up,
    Down,
    Show,
    List,
}

/// The word that a cell is.
pub(crate) fn word_of(cell: &[u8]) -> Option<Word>
    ensures { result ≡ spec.word_of cell.now }
{
    match exchange_word(cell) {
        Some(word) => Some(word),
        None => match member_word(cell) {
            Some(word) => Some(word),
            None => client_word(cell),
        },
    }
}

// A word of what the exchange does.
fn exchange_word(cell: &[u8]) -> Option<Word>
    ensures { result ≡ spec.exchange_word cell.now }
{
    if cell == b"RAW".as_slice() {
        Some(Word::Raw)
    } else if cell == b"OPEN".as_slice() {
        Some(Word::Open)
    } else if cell == b"IN".as_slice() {
        Some(Word::In)
    } else if cell == b"CUT".as_slice() {
        Some(Word::Cut)
    } else if cell == b"TICK".as_slice() {
        Some(Word::Tick)
    } else if cell == b"SNAP".as_slice() {
        Some(Word::Snap)
    } else if cell == b"BEAT".as_slice() {
        Some(Word::Beat)
    } else if cell == b"CLEAR".as_slice() {
        Some(Word::Clear)
    } else {
        None
    }
}

// A word of what the member does.
fn member_word(cell: &[u8]) -> Option<Word>
    ensures { result ≡ spec.member_word cell.now }
{
    if cell == b"FORGE".as_slice() {
        Some(Word::Forge)
    } else if cell == b"SHOW".as_slice() {
        Some(Word::Show)
    } else {
        match feed(cell) {
            Some(feed) => Some(Word::Deliver(feed)),
            None => None,
        }
    }
}

// A word of what the client does.
fn client_word(cell: &[u8]) -> Option<Word>
    ensures { result ≡ spec.client_word cell.now }
{
    if cell == b"DIAL".as_slice() {
        Some(Word::Dial)
    } else if cell == b"ORDER".as_slice() {
        Some(Word::Order)
    } else if cell == b"UP".as_slice() {
        Some(Word::Up)
    } else if cell == b"DOWN".as_slice() {
        Some(Word::Down)
    } else if cell == b"LIST".as_slice() {
        Some(Word::List)
    } else {
        None
    }
}
