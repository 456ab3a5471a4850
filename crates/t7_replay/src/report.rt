//! The member's report.

ghost use Rattle.std.specs.Prelude.{◌≡◌, ◌≤◌, ◌++◌, ◌∷◌, [], decimal, length, map, OnOk};
ghost use Rattle.t7_feed.specs.declared.State.TheVariants.{Refused};
ghost use Rattle.t7_mbook.specs.Walk.{walk_rest};
ghost use Rattle.t7_outcome.specs.Outcome.{text_of};
ghost use Rattle.t7_replay.specs.Lines.{report_lines, state_line};
ghost use Rattle.t7_script.specs.Lines.{misfit_words, order_line};

use crate::print::put_line;
use std::alloc::AllocError;
use t7_base::Resting;
use t7_mbook::{MarketWalk, Misfit};
use t7_member::State;
use t7_outcome::Line;
use t7_script::{misfit_words, order_line};

/// Puts what a member shows behind a text: its state, and where it shows a number a line for each order of its book.
pub(crate) fn put_report(
    state: State,
    orders: MarketWalk<'_>,
    text: &mut Vec<u8>,
) -> Result<(), AllocError>
    ensures { OnOk result (text.new.items ≡ text.old.items ++ text_of (report_lines state (walk_rest orders.entry))) }
{
    match state {
        State::Wait => put_line(b"WAIT", b"", text),
        State::Sync(number) => {
            put_state(b"SYNC ", number, text)?;
            put_orders(orders, text)
        }
        State::Miss(number) => {
            put_state(b"MISS ", number, text)?;
            put_orders(orders, text)
        }
        State::Refused { number, why } => put_refused(number, &why, text),
    }
}

// Puts the line of a state with a number.
fn put_state(word: &[u8], number: u32, text: &mut Vec<u8>) -> Result<(), AllocError>
    ensures { OnOk result (text.new.items ≡ text.old.items ++ text_of ((word.now ++ decimal number) ∷ [])) }
{
    let mut line = Line::new();
    line.push_number(number as u64);
    put_line(word, line.bytes(), text)
}

// Puts the line of a message that was refused, and why.
fn put_refused(number: u32, why: &Misfit, text: &mut Vec<u8>) -> Result<(), AllocError>
    ensures { OnOk result (text.new.items ≡ text.old.items ++ text_of (state_line (Refused number why.now) ∷ [])) }
{
    let mut words = [0u8; 256];
    let len = misfit_words(why, &mut words);
    let mut line = Line::new();
    line.push(b"REFUSED ");
    line.push_number(number as u64);
    line.push(b" ");
    put_line(line.bytes(), &words[..len], text)
}

// Puts a line for each order.
fn put_orders(orders: MarketWalk<'_>, text: &mut Vec<u8>) -> Result<(), AllocError>
    ensures { OnOk result (text.new.items ≡ text.old.items ++ text_of (map order_line (walk_rest orders.entry))) }
{
    for order in orders {
        put_order(&order, text)?;
    }
    Ok(())
}

// Puts the line of an order.
fn put_order(order: &Resting, text: &mut Vec<u8>) -> Result<(), AllocError>
    ensures { OnOk result (text.new.items ≡ text.old.items ++ text_of (order_line order.now ∷ [])) }
{
    let mut words = [0u8; 256];
    let len = order_line(order, &mut words);
    put_line(&words[..len], b"", text)
}
