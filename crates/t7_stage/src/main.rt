//! The program's commands over a network and a clock in memory, for tests: `t7_stage STAGE WORD..` does what `t7 WORD..` does, but that what comes
//! from the network, the moments of the clock and the calls that fail are those of the file STAGE; and behind it tells what was asked, sent and cast.
#![tactic(auto)]

mod stage;
mod telling;

use crate::stage::{Flaw, Stage};
use crate::telling::{tell_lines, tell_link};
use std::alloc::Global;
use std::process::ExitCode;
use std::{env, io};
use t7_base::{RealFiles, RealSink};
use t7_memory::{MemoryClock, MemoryLines, MemoryLink};
use t7_outcome::fetch;
use t7_top::run;

/// The most calls of the link and of the lines, and the most bytes of what each is asked and sends.
const CALLS: usize = 4_096;

const BYTES: usize = 1 << 20;

/// The status where the stage can't be set, or what was sent can't be told.
const UNSTAGED: u8 = 99;

/// The words after the program's name.
fn read_words(rt: &HostRuntime, alloc: Global) -> io::Result<Vec<String>> {
    let mut words = Vec::new(alloc);
    for word in env::args(rt)?.skip(1) {
        words.push(word)?;
    }
    Ok(words)
}

/// The stage of the file that the first word names, and the words behind it.
fn read_stage(rt: &HostRuntime, alloc: Global, name: &str) -> Result<Stage, Flaw> {
    let mut bytes = Vec::new(alloc);
    match fetch(&mut RealFiles::new(rt), name, &mut bytes) {
        Ok(()) => Stage::read(alloc, &bytes),
        Err(_) => Err(Flaw::Row(0)),
    }
}

/// Runs the words over the stage, and tells what was asked, sent and cast.
fn perform(rt: &HostRuntime, alloc: Global, words: &[String], stage: Stage) -> io::Result<u8> {
    let mut link = MemoryLink::new(alloc, stage.events, CALLS, BYTES, stage.link_fails)?;
    let mut lines = MemoryLines::new(alloc, stage.receipts, CALLS, BYTES, stage.lines_fail)?;
    let mut clock = MemoryClock::new(alloc, stage.moments)?;
    let status = run(
        alloc,
        words,
        &mut RealFiles::new(rt),
        &mut RealSink::new(rt),
        &mut link,
        &mut lines,
        &mut clock,
    );
    tell_link(rt, alloc, &link, CALLS)?;
    tell_lines(rt, alloc, &lines, CALLS)?;
    Ok(status.number())
}

/// Sets the stage that the first word names, and runs the others over it.
fn staged(rt: &HostRuntime, alloc: Global) -> io::Result<u8> {
    let words = read_words(rt, alloc)?;
    let Some(name) = words.first() else {
        return Ok(UNSTAGED);
    };
    match read_stage(rt, alloc, name) {
        Ok(stage) => perform(rt, alloc, &words[1..], stage),
        Err(flaw) => {
            println!(rt; "{flaw:?}")?;
            Ok(UNSTAGED)
        }
    }
}

fn main(rt: HostRuntime) -> ExitCode {
    let alloc = rt.alloc();
    ExitCode::from(staged(&rt, alloc).unwrap_or(UNSTAGED))
}
