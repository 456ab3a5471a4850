//! The program: makes the real files, sink, network and clock, runs what its words ask for, and ends with the answer's number.
#![tactic(auto)]

use std::alloc::{AllocError, Global};
use std::process::ExitCode;
use std::{env, io};
use t7_base::{RealFiles, RealSink};
use t7_net::{RealClock, RealLines, RealLink};
use t7_outcome::{Stop, close};
use t7_top::run;

/// The words after the program's name.
fn read_words(rt: &HostRuntime, alloc: Global) -> io::Result<Vec<String>> {
    let mut words = Vec::new(alloc);
    for word in env::args(rt)?.skip(1) {
        words.push(word)?;
    }
    Ok(words)
}

fn main(rt: HostRuntime) -> ExitCode {
    let alloc = rt.alloc();
    let mut sink = RealSink::new(&rt);
    let words = match read_words(&rt, alloc) {
        Ok(words) => words,
        Err(error) if error.kind() == io::ErrorKind::OutOfMemory => {
            return ExitCode::from(close(Err(Stop::Memory), &mut sink).number());
        }
        // Words that are no text are no command form.
        Err(_) => Vec::new(alloc),
    };
    let mut files = RealFiles::new(&rt);
    let mut link = RealLink::new(alloc, &rt);
    let mut lines = RealLines::new(&rt);
    let mut clock = RealClock::new(&rt);
    let status = run(
        alloc, &words, &mut files, &mut sink, &mut link, &mut lines, &mut clock,
    );
    ExitCode::from(status.number())
}
