//! The lines of the drill.

ghost use Rattle.std.specs.Prelude.{◌≡◌, ◌+◌, ◌≤◌, ◌++◌, ◌∷◌, [], OnOk, IfOk, length};
ghost use Rattle.t7_book.specs.Orders.{shown};
ghost use Rattle.t7_book.specs.Walk as book;
ghost use Rattle.t7_mbook.specs.Walk as market;
ghost use Rattle.t7_feed.specs.declared.State.TheVariants.{Refused};
ghost use Rattle.t7_outcome.specs.Outcome.{text_of};
ghost use Rattle.t7_drill.specs.Telling as spec;

use std::alloc::AllocError;
use t7_base::{Feed, Qty};
use t7_book::BookWalk;
use t7_feed::State;
use t7_lines::Tally;
use t7_mbook::{MarketWalk, Misfit};
use t7_outcome::Line;
use t7_script::misfit_words;

/// How many orders there are, and the sum of their quantities, which stops at the greatest u64.
#[derive(Clone, Copy, Debug)]
pub struct Totals {
    pub orders: u64,
    pub quantity: u64,
}

const NOTHING: Totals = Totals {
    orders: 0,
    quantity: 0,
};

impl Totals {
    // One order more.
    fn add(&mut self, qty: Qty)
        ensures { self.new ≡ spec.with_order self.old qty }
    {
        self.orders = self.orders.saturating_add(1);
        self.quantity = self.quantity.saturating_add(qty.units());
    }
}

/// The totals of the exchange's orders.
pub fn book_totals(orders: BookWalk<'_>) -> Totals
    ensures { result ≡ spec.totals_of (shown (book.walk_rest orders.entry)) }
{
    let mut totals = NOTHING;
    for order in orders {
        totals.add(order.rest.qty);
    }
    totals
}

/// The totals of the member's orders.
pub fn market_totals(orders: MarketWalk<'_>) -> Totals
    ensures { result ≡ spec.totals_of (market.walk_rest orders.entry) }
{
    let mut totals = NOTHING;
    for order in orders {
        totals.add(order.qty);
    }
    totals
}

// Puts a line, which is two pieces, one behind the other.
fn put_line(text: &mut Vec<u8>, front: &[u8], rest: &[u8]) -> Result<(), AllocError>
    ensures { OnOk result (text.new.items ≡ text.old.items ++ text_of ((front.now ++ rest.now) ∷ [])) }
{
    text.extend_from_slice(front)?;
    text.extend_from_slice(rest)?;
    text.push(b'\n')?;
    Ok(())
}

/// Puts a word and a number.
pub fn put_number(text: &mut Vec<u8>, word: &[u8], number: u64) -> Result<(), AllocError>
    ensures { OnOk result (text.new.items ≡ text.old.items ++ text_of (spec.number_line word.now number ∷ [])) }
{
    let mut line = Line::new();
    line.push_number(number);
    put_line(text, word, line.bytes())
}

// Puts a word and two numbers.
fn put_two(text: &mut Vec<u8>, word: &[u8], first: u64, second: u64) -> Result<(), AllocError>
    ensures { OnOk result (text.new.items ≡ text.old.items ++ text_of (spec.two_line word.now first second ∷ [])) }
{
    let mut line = Line::new();
    line.push_number(first);
    line.push(b" ");
    line.push_number(second);
    put_line(text, word, line.bytes())
}

/// Puts a word and totals.
pub fn put_totals(text: &mut Vec<u8>, word: &[u8], totals: Totals) -> Result<(), AllocError>
    ensures { OnOk result (text.new.items ≡ text.old.items ++ text_of (spec.totals_line word.now totals ∷ [])) }
{
    put_two(text, word, totals.orders, totals.quantity)
}

// What stands before the tally of a feed.
fn feed_word(feed: Feed) -> &'static [u8]
    ensures { result.now ≡ spec.feed_word feed }
{
    match feed {
        Feed::LiveA => b"LINE LA ",
        Feed::LiveB => b"LINE LB ",
        Feed::SnapA => b"LINE SA ",
        Feed::SnapB => b"LINE SB ",
    }
}

/// Puts the tally of a feed.
pub fn put_tally(text: &mut Vec<u8>, feed: Feed, tally: Tally) -> Result<(), AllocError>
    ensures { OnOk result (text.new.items ≡ text.old.items ++ text_of (spec.tally_line feed tally ∷ [])) }
{
    put_two(text, feed_word(feed), tally.taken, tally.fresh)
}

/// Puts what the member shows.
pub fn put_state(text: &mut Vec<u8>, state: State) -> Result<(), AllocError>
    ensures { OnOk result (text.new.items ≡ text.old.items ++ text_of (spec.state_line state ∷ [])) }
{
    match state {
        State::Wait => put_line(text, b"WAIT", b""),
        State::Sync(number) => put_number(text, b"SYNC ", number as u64),
        State::Miss(number) => put_number(text, b"MISS ", number as u64),
        State::Refused { number, why } => put_refused(text, number, &why),
    }
}

// Puts the line of a message that was refused, and why.
fn put_refused(text: &mut Vec<u8>, number: u32, why: &Misfit) -> Result<(), AllocError>
    ensures { OnOk result (text.new.items ≡ text.old.items ++ text_of (spec.state_line (Refused number why.now) ∷ [])) }
{
    let mut words = [0; 256];
    let len = misfit_words(why, &mut words);
    let mut line = Line::new();
    line.push(b"REFUSED ");
    line.push_number(number as u64);
    line.push(b" ");
    put_line(text, line.bytes(), &words[..len])
}
