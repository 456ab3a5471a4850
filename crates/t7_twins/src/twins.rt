//! A run of drawn commands over the two forms of each book.

ghost use Rattle.std.specs.Prelude.{◌≡◌, ◌≤◌, ◌<◌, ◌+◌};
ghost use Rattle.t7_book.specs.Orders.{roster_of};

use crate::draw::Draw;
use crate::exchanges::{command_both, compare_walks};
use crate::members::Members;
use crate::part::Part;
use std::alloc::Global;
use t7_base::Product;
use t7_book::Book;
use t7_linear::LinearBook;

/// The most commands of a run.
const MOST_COMMANDS: u32 = 900_000;

/// So many commands, from the first on, after each of which all orders are compared. Behind them it is after each hundredth.
const COMPARED: u32 = 200;

/// What a run came to: where the two forms part, `commands` is how many went before.
#[derive(Drop)]
pub(crate) struct Tally {
    pub commands: u32,
    pub messages: u64,
    pub orders: usize,
    pub part: Option<Part>,
}

/// Draws a command, carries it out in both ways, and compares all that it gives; answers how many messages it gave.
fn carry_out(
    alloc: Global,
    product: &Product,
    book: &mut Book,
    linear: &mut LinearBook,
    members: &mut Members,
    draw: &mut Draw,
    number: u32,
) -> Result<usize, Part>
    requires product { book.old.roster ≡ roster_of product.now }
    requires few { book.old.applied < 1_000_000 }
    requires linear_product { linear.old.roster ≡ roster_of product.now }
    requires linear_few { linear.old.applied < 1_000_000 }
    ensures same_product { book.new.roster ≡ book.old.roster }
    ensures one_more { book.new.applied ≤ book.old.applied + 1 }
    ensures linear_same_product { linear.new.roster ≡ linear.old.roster }
    ensures linear_one_more { linear.new.applied ≤ linear.old.applied + 1 }
{
    let Some(command) = draw.command(book, u64::from(number)) else {
        return Err(Part::Draw);
    };
    let messages = command_both(alloc, product, book, linear, &command)?;
    members.tell(&messages)?;
    if number < COMPARED || number % 100 == 99 {
        compare_walks(book, linear)?;
        members.compare(book)?;
    }
    Ok(messages.len())
}

/// Runs so many commands from the books on, which are new.
pub(crate) fn run(
    alloc: Global,
    product: &Product,
    book: &mut Book,
    linear: &mut LinearBook,
    members: &mut Members,
    seed: u64,
    commands: u32,
) -> Tally
    requires product { book.old.roster ≡ roster_of product.now }
    requires fresh { book.old.applied ≡ 0 }
    requires linear_product { linear.old.roster ≡ roster_of product.now }
    requires linear_fresh { linear.old.applied ≡ 0 }
{
    let mut draw = Draw::new(seed);
    let mut tally = Tally {
        commands: 0,
        messages: 0,
        orders: 0,
        part: None,
    };
    for number in 0..commands.min(MOST_COMMANDS) {
        match carry_out(alloc, product, book, linear, members, &mut draw, number) {
            Ok(count) => tally.messages = tally.messages.wrapping_add(count as u64),
            Err(part) => {
                tally.part = Some(part);
                break;
            }
        }
        tally.commands = number + 1;
    }
    tally.orders = book.len();
    tally
}
