//! What puts and takes answer over windows of several sizes, a long run beside a plain list, and the counts of the feeds.

use crate::{GapBuffer, Put, Tally};
use std::alloc::Global;
use std::process::Abort;
use std::test::Fail;
use t7_base::{Feed, Public, SecurityId};

const GREATEST: u32 = u32::MAX;

/// A message that tells which one it is.
fn message(which: u32) -> Public {
    Public::MassDelete {
        security: SecurityId(i64::from(which)),
    }
}

/// What is done, and what it answers: a message is put beside a base, under a number, as the message that `which` tells; the number
/// after n is taken, and is one of those or isn't kept.
#[derive(Clone, Copy)]
enum Case {
    Puts(Option<u32>, u32, u32, Put),
    Takes(u32, u32),
    Misses(u32),
}

use Case::{Misses, Puts, Takes};

/// The steps have their answers, one after another.
fn check(rt: &impl Abort, alloc: Global, window: u32, steps: &[Case]) -> Result<(), Fail> {
    let mut gap = GapBuffer::new(alloc, window)?;
    for step in steps {
        match *step {
            Puts(base, number, which, put) => {
                assert_eq!(rt; gap.put(base, number, message(which)), put, "put {number}");
            }
            Takes(n, which) => {
                assert!(rt; n < GREATEST);
                assert_eq!(rt; gap.take_next(n), Some(message(which)), "after {n}");
            }
            Misses(n) => {
                assert!(rt; n < GREATEST);
                assert_eq!(rt; gap.take_next(n), None, "after {n}");
            }
        }
    }
    Ok(())
}

#[test]
fn a_window_of_one_keeps_the_highest_number(rt: HostRuntime) -> Result<(), Fail> {
    let steps = [
        Puts(None, 5, 50, Put::New),
        Puts(None, 5, 51, Put::Old),
        Puts(None, 4, 40, Put::Outside),
        Puts(None, 6, 60, Put::New),
        Misses(4),
        Puts(None, 6, 61, Put::Old),
        Takes(5, 60),
        Misses(5),
        Puts(None, 6, 62, Put::New),
        Puts(Some(6), 6, 63, Put::Old),
        Takes(5, 62),
    ];
    check(&rt, rt.alloc(), 1, &steps)
}

#[test]
fn small_windows_keep_what_came_first(rt: HostRuntime) -> Result<(), Fail> {
    let of_two = [
        Puts(None, 1, 10, Put::New),
        Puts(None, 3, 30, Put::New),
        Puts(None, 1, 11, Put::Outside),
        Puts(None, 2, 20, Put::New),
        Puts(None, 2, 21, Put::Old),
        Puts(Some(2), 2, 22, Put::Old),
        Puts(Some(2), 3, 31, Put::Old),
        Takes(1, 20),
        Misses(1),
        Takes(2, 30),
    ];
    check(&rt, rt.alloc(), 2, &of_two)?;
    let of_four = [
        Puts(None, 2, 20, Put::New),
        Puts(None, 7, 70, Put::New),
        Misses(1),
        Puts(None, 3, 30, Put::Outside),
        Puts(None, 4, 40, Put::New),
        Puts(Some(5), 6, 60, Put::New),
        Puts(Some(5), 5, 50, Put::Old),
        Takes(3, 40),
        Misses(4),
        Puts(Some(8), 9, 90, Put::New),
        Takes(5, 60),
        Puts(Some(8), 1_000, 100, Put::New),
        Misses(8),
        Takes(999, 100),
    ];
    check(&rt, rt.alloc(), 4, &of_four)
}

#[test]
fn the_least_and_the_greatest_numbers(rt: HostRuntime) -> Result<(), Fail> {
    let greatest = [
        Puts(None, GREATEST, 1, Put::New),
        Puts(None, GREATEST - 3, 2, Put::New),
        Puts(None, GREATEST - 4, 3, Put::Outside),
        Puts(None, 0, 4, Put::Outside),
        Puts(Some(GREATEST - 1), GREATEST, 5, Put::Old),
        Takes(GREATEST - 1, 1),
        Takes(GREATEST - 4, 2),
        Puts(Some(GREATEST), GREATEST, 6, Put::Old),
        Misses(GREATEST - 1),
    ];
    check(&rt, rt.alloc(), 4, &greatest)?;
    let least = [
        Puts(None, 0, 1, Put::New),
        Puts(None, 0, 2, Put::Old),
        Puts(None, 65_535, 3, Put::New),
        Puts(None, 0, 4, Put::Old),
        Puts(None, 65_536, 5, Put::New),
        Puts(None, 0, 6, Put::Outside),
        Puts(Some(0), 0, 7, Put::Old),
        Takes(65_534, 3),
        Takes(65_535, 5),
    ];
    check(&rt, rt.alloc(), 65_536, &least)?;
    check(
        &rt,
        rt.alloc(),
        0,
        &[Puts(None, 3, 1, Put::Outside), Misses(2)],
    )
}

/// A generator of numbers, always the same.
#[derive(Drop)]
struct Draw(u64);

impl Draw {
    /// A number below 256.
    fn next(&mut self) -> u32 {
        self.0 = self
            .0
            .wrapping_mul(6_364_136_223_846_793_005)
            .wrapping_add(1_442_695_040_888_963_407);
        ((self.0 >> 33) % 256) as u32
    }
}

/// The same rules over a list of the numbers that are kept, each with which message it is.
#[derive(Drop)]
struct Plain {
    window: u64,
    highest: u64,
    kept: Vec<(u64, u32)>,
}

impl Plain {
    fn at(&self, number: u64) -> Option<u32> {
        for (kept, which) in &self.kept {
            if *kept == number {
                return Some(*which);
            }
        }
        None
    }

    fn put(&mut self, base: Option<u32>, number: u64, which: u32) -> Result<Put, Fail> {
        self.highest = number.max(self.highest);
        let is_old = base.is_some_and(|n| number <= u64::from(n)) || self.at(number).is_some();
        let (highest, window) = (self.highest, self.window);
        self.kept
            .retain(|entry| highest < entry.0.saturating_add(window));
        if is_old {
            return Ok(Put::Old);
        }
        if number.saturating_add(window) <= highest {
            return Ok(Put::Outside);
        }
        self.kept.push((number, which))?;
        Ok(Put::New)
    }

    fn take(&mut self, number: u64) -> Option<u32> {
        let found = self.at(number);
        self.kept.retain(|entry| entry.0 != number);
        found
    }
}

/// Puts and takes about a number that rises slowly answer as over the list.
fn check_drawn(rt: &impl Abort, alloc: Global, window: u32, count: u32) -> Result<(), Fail> {
    let mut gap = GapBuffer::new(alloc, window)?;
    let mut plain = Plain {
        window: u64::from(window),
        highest: 0,
        kept: Vec::new(alloc),
    };
    let mut draw = Draw(u64::from(window));
    for which in 0..count {
        let number = which / 4 + draw.next() / 16;
        let base = if draw.next() < 128 {
            None
        } else {
            Some(which / 4)
        };
        if draw.next() < 96 {
            let taken = plain.take(u64::from(number).saturating_add(1));
            assert!(rt; number < GREATEST);
            assert_eq!(rt; gap.take_next(number), taken.map(message), "take {which}");
        } else {
            let put = plain.put(base, u64::from(number), which)?;
            assert_eq!(rt; gap.put(base, number, message(which)), put, "put {which}");
        }
    }
    Ok(())
}

#[test]
fn a_long_run_answers_as_a_plain_list(rt: HostRuntime) -> Result<(), Fail> {
    for window in [1, 2, 4, 7, 16, 1_000] {
        check_drawn(&rt, rt.alloc(), window, 10_000)?;
    }
    Ok(())
}

#[test]
fn each_feed_has_its_own_counts(rt: HostRuntime) -> Result<(), Fail> {
    let mut gap = GapBuffer::new(rt.alloc(), 4)?;
    gap.note(Feed::LiveA, true);
    gap.note(Feed::LiveA, false);
    gap.note(Feed::SnapB, true);
    assert_eq!(rt; gap.tally(Feed::LiveA), Tally { taken: 2, fresh: 1 });
    assert_eq!(rt; gap.tally(Feed::LiveB), Tally { taken: 0, fresh: 0 });
    assert_eq!(rt; gap.tally(Feed::SnapA), Tally { taken: 0, fresh: 0 });
    assert_eq!(rt; gap.tally(Feed::SnapB), Tally { taken: 1, fresh: 1 });
    Ok(())
}
