//! Losses, repeats and reordering on two lines, behind a snapshot and before it.

use super::fixture::Step::{Beat, Forged, Live, Shows, Snap};
use super::fixture::{Buy, CUT, Day, Step, play, product};
use crate::{Delivered, Member, State, Tally};
use std::alloc::Global;
use std::process::Abort;
use std::test::Fail;
use t7_base::Feed::{LiveA, LiveB, SnapA, SnapB};
use t7_base::Product;
use t7_eobi::{PacketFault, PacketWhy};
use t7_layout::Table;
use t7_mbook::Misfit;
use t7_sample::SAMPLE;

/// Three buys: the second at a worse price.
const THREE: [Buy; 3] = [(100, 50, 1), (99, 10, 2), (100, 20, 3)];

/// The three in the order of the book.
const SORTED: [Buy; 3] = [(100, 50, 1), (100, 20, 3), (99, 10, 2)];

/// And a fourth, at the worst price.
const FOUR: [Buy; 4] = [(100, 50, 1), (99, 10, 2), (100, 20, 3), (98, 5, 4)];

/// The four in the order of the book.
const FOUR_SORTED: [Buy; 4] = [(100, 50, 1), (100, 20, 3), (99, 10, 2), (98, 5, 4)];

/// Seven buys at one price.
const SEVEN: [Buy; 7] = [
    (100, 10, 1),
    (100, 20, 2),
    (100, 30, 3),
    (100, 40, 4),
    (100, 50, 5),
    (100, 60, 6),
    (100, 70, 7),
];

/// A new member plays this day.
fn plays_one(
    rt: &impl Abort,
    alloc: Global,
    table: &Table,
    product: &Product,
    day: Day<'_>,
    steps: &[Step],
) -> Result<(), Fail> {
    let mut member = Member::new(alloc, table, product)?;
    play(rt, alloc, &mut member, day, steps)
}

/// A new member plays each of these days.
fn plays(rt: &impl Abort, alloc: Global, day: Day<'_>, scripts: &[&[Step]]) -> Result<(), Fail> {
    let table = Table::read(alloc, SAMPLE.as_bytes())?;
    let product = product(alloc)?;
    for steps in scripts {
        plays_one(rt, alloc, &table, &product, day, steps)?;
    }
    Ok(())
}

#[test]
fn a_snapshot_and_the_messages_behind_it(rt: HostRuntime) -> Result<(), Fail> {
    let in_sync = [Snap(SnapA, 1, 0), Live(LiveA, 1), Shows(State::Sync(1), 1)];
    let no_snapshot = [Live(LiveA, 1), Shows(State::Wait, 0)];
    let lost_and_found = [
        Snap(SnapA, 1, 0),
        Live(LiveA, 1),
        Live(LiveA, 3),
        Shows(State::Miss(2), 1),
        Live(LiveB, 2),
        Shows(State::Sync(3), 3),
    ];
    let backwards_twice = [
        Live(LiveB, 3),
        Live(LiveA, 3),
        Live(LiveB, 2),
        Live(LiveA, 2),
        Live(LiveB, 1),
        Live(LiveA, 1),
        Snap(SnapB, 1, 0),
        Snap(SnapA, 1, 0),
        Shows(State::Sync(3), 3),
    ];
    plays(
        &rt,
        rt.alloc(),
        Day {
            buys: &THREE,
            book: &SORTED,
        },
        &[&in_sync, &no_snapshot, &lost_and_found, &backwards_twice],
    )
}

#[test]
fn the_window_behind_and_before_a_snapshot(rt: HostRuntime) -> Result<(), Fail> {
    let filled = [
        Snap(SnapA, 1, 2),
        Live(LiveA, 6),
        Shows(State::Miss(3), 2),
        Live(LiveA, 3),
        Live(LiveA, 4),
        Live(LiveA, 5),
        Shows(State::Sync(6), 6),
    ];
    let next_outside = [
        Snap(SnapA, 1, 2),
        Live(LiveA, 7),
        Live(LiveA, 3),
        Live(LiveA, 4),
        Live(LiveA, 5),
        Live(LiveA, 6),
        Shows(State::Sync(7), 7),
    ];
    let outside_before = [
        Live(LiveA, 7),
        Live(LiveA, 3),
        Live(LiveA, 4),
        Live(LiveA, 5),
        Live(LiveA, 6),
        Snap(SnapA, 1, 2),
        Shows(State::Miss(3), 2),
        Live(LiveB, 3),
        Shows(State::Sync(7), 7),
    ];
    let beaten = [
        Snap(SnapA, 1, 0),
        Live(LiveA, 1),
        Live(LiveA, 2),
        Live(LiveA, 3),
        Live(LiveA, 4),
        Shows(State::Sync(4), 4),
        Beat(LiveA, 6, 5),
        Shows(State::Miss(5), 4),
    ];
    plays(
        &rt,
        rt.alloc(),
        Day {
            buys: &SEVEN,
            book: &SEVEN,
        },
        &[&filled, &next_outside, &outside_before, &beaten],
    )
}

/// The forged message, which is about no order of the book.
fn refused() -> State {
    State::Refused {
        number: 4,
        why: Misfit::Absent,
    }
}

#[test]
fn a_misfit_is_refused_until_a_snapshot_at_its_number(rt: HostRuntime) -> Result<(), Fail> {
    let steps = [
        Snap(SnapA, 1, 0),
        Live(LiveA, 1),
        Live(LiveA, 2),
        Live(LiveA, 3),
        Forged(LiveA),
        Shows(refused(), 0),
        Snap(SnapA, 2, 3),
        Shows(refused(), 0),
        Snap(SnapA, 3, 4),
        Shows(State::Sync(4), 4),
    ];
    plays(
        &rt,
        rt.alloc(),
        Day {
            buys: &FOUR,
            book: &FOUR_SORTED,
        },
        &[&steps],
    )
}

/// A member that is refused a datagram and is sent some twice counts each.
fn counts(rt: &impl Abort, alloc: Global, member: &mut Member<'_>) -> Result<(), Fail> {
    let cut = Delivered::Bad(PacketFault {
        why: PacketWhy::Cut,
        place: 16,
    });
    let steps = [
        Snap(SnapA, 1, 0),
        Snap(SnapB, 1, 0),
        Live(LiveA, 1),
        Live(LiveB, 1),
        Live(LiveB, 3),
        Beat(LiveB, 4, 3),
    ];
    assert_eq!(rt; member.deliver(LiveA, &CUT), cut);
    let day = Day {
        buys: &THREE,
        book: &SORTED,
    };
    play(rt, alloc, member, day, &steps)?;
    assert_eq!(rt; member.bad(), 1);
    assert_eq!(rt; member.tally(LiveA), Tally { taken: 1, fresh: 1 });
    assert_eq!(rt; member.tally(LiveB), Tally { taken: 3, fresh: 1 });
    assert_eq!(rt; member.tally(SnapA), Tally { taken: 1, fresh: 1 });
    assert_eq!(rt; member.tally(SnapB), Tally { taken: 1, fresh: 0 });
    Ok(())
}

#[test]
fn refused_and_repeated_deliveries_are_counted_apart(rt: HostRuntime) -> Result<(), Fail> {
    let table = Table::read(rt.alloc(), SAMPLE.as_bytes())?;
    let product = product(rt.alloc())?;
    let mut member = Member::new(rt.alloc(), &table, &product)?;
    counts(&rt, rt.alloc(), &mut member)
}
