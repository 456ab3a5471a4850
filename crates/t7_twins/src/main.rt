//! The two forms of each book on the same commands, for tests: `t7_twins SEED COMMANDS` draws so many commands, gives each to a `Book` and to a
//! `LinearBook`, and its messages to a `MarketBook` and to a `LinearMarketBook`, and compares what they give and the orders that rest.
#![tactic(auto)]

mod draw;
mod exchanges;
mod members;
mod part;
mod twins;

use crate::draw::PRODUCT;
use crate::members::Members;
use crate::twins::{Tally, run};
use std::alloc::{AllocError, Global};
use std::process::ExitCode;
use std::{env, io};
use t7_base::Product;
use t7_book::Book;
use t7_linear::LinearBook;

/// The status where the two part.
const PARTED: u8 = 1;

/// The status where nothing can be run: the words are no two numbers, or memory is wanting.
const NOT_RUN: u8 = 2;

/// The seed and the count behind the program's name.
fn read_words(rt: &HostRuntime) -> io::Result<Option<(u64, u32)>> {
    let mut words = env::args(rt)?.skip(1);
    let (Some(seed), Some(count), None) = (words.next(), words.next(), words.next()) else {
        return Ok(None);
    };
    Ok(match (seed.parse::<u64>(), count.parse::<u32>()) {
        (Ok(seed), Ok(commands)) => Some((seed, commands)),
        _ => None,
    })
}

/// Runs the commands over new books of the exchange.
fn with_books(
    alloc: Global,
    product: &Product,
    members: &mut Members,
    seed: u64,
    commands: u32,
) -> Result<Tally, AllocError> {
    let mut linear = LinearBook::new(alloc, product)?;
    let mut book = Book::new(alloc, product)?;
    Ok(run(
        alloc,
        product,
        &mut book,
        &mut linear,
        members,
        seed,
        commands,
    ))
}

/// Runs the commands over new books.
fn with_members(
    alloc: Global,
    product: &Product,
    seed: u64,
    commands: u32,
) -> Result<Tally, AllocError> {
    let mut members = Members::new(alloc, product)?;
    with_books(alloc, product, &mut members, seed, commands)
}

/// Runs the commands, or doesn't where memory is wanting.
fn tally_of(alloc: Global, seed: u64, commands: u32) -> Option<Tally> {
    let product = Product::read(alloc, PRODUCT).ok()?;
    with_members(alloc, &product, seed, commands).ok()
}

/// Prints what a run came to, and answers the status.
fn tell(rt: &HostRuntime, seed: u64, tally: &Tally) -> io::Result<u8> {
    match tally.part {
        Some(part) => {
            println!(rt;
                "twins {seed}: they part behind {} commands: {part:?}",
                tally.commands
            )?;
            Ok(PARTED)
        }
        None => {
            println!(rt;
                "twins {seed}: {} commands, {} messages, {} orders at the end, equal",
                tally.commands, tally.messages, tally.orders
            )?;
            Ok(0)
        }
    }
}

/// Runs what the words say, and answers the status.
fn perform(rt: &HostRuntime, alloc: Global) -> io::Result<u8> {
    let Some((seed, commands)) = read_words(rt)? else {
        return Ok(NOT_RUN);
    };
    match tally_of(alloc, seed, commands) {
        Some(tally) => tell(rt, seed, &tally),
        None => Ok(NOT_RUN),
    }
}

fn main(rt: HostRuntime) -> ExitCode {
    let alloc = rt.alloc();
    ExitCode::from(perform(&rt, alloc).unwrap_or(NOT_RUN))
}
