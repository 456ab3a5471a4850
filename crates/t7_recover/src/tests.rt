//! Ranges of stored responses, against the numbers that they are to have, and what a client gathers.

ghost use Rattle.std.specs.Prelude.{◌≤◌};
ghost use Rattle.t7_recover.specs.Shelves.{spare_of};

use crate::{BadRange, Gathered, Offered, Store};
use std::alloc::Global;
use std::process::Abort;
use std::test::Fail;
use t7_base::{OrderId, Product, ProductRefusal, SessionId};
use t7_eti::Kept;

const DAY: SessionId = SessionId(21);

const NIGHT: SessionId = SessionId(22);

fn product(alloc: Global) -> Result<Product, ProductRefusal> {
    Product::read(
        alloc,
        b"product,7\nwindow,4\npackets,8\ndatagram,1472\nsecurity,1001,1\nsession,21\nsession,22\n",
    )
}

// A response that is told from others by its order.
fn deleted(order: u64) -> Kept {
    Kept::Deleted {
        order: OrderId(order),
        client: 9,
    }
}

// A range, and the first and the last number that it has; (0, 0) where it has none, and nothing where it is none.
type Case = (u128, u128, Option<(u64, u64)>);

// Ranges of 502 responses: from the front, in the middle, at the end, past it, of 500 and of more, and backwards.
static CASES: [Case; 18] = [
    (0, 0, Some((0, 0))),
    (0, 1, Some((1, 1))),
    (0, 499, Some((1, 499))),
    (0, 500, Some((1, 500))),
    (0, 501, Some((1, 500))),
    (0, u128::MAX, Some((1, 500))),
    (1, 501, Some((2, 501))),
    (1, 502, Some((2, 501))),
    (2, 502, Some((3, 502))),
    (200, 300, Some((201, 300))),
    (300, 300, Some((0, 0))),
    (300, 299, None),
    (500, u128::MAX, Some((501, 502))),
    (501, 503, Some((502, 502))),
    (502, u128::MAX, Some((0, 0))),
    (503, 503, None),
    (u128::MAX, u128::MAX, None),
    (u128::MAX, 0, None),
];

// Stores so many responses for a session.
fn fill(rt: &impl Abort, store: &mut Store, session: SessionId, count: u64)
    requires { count ≤ spare_of store.old session }
{
    for number in 0..count {
        assert_eq!(rt; store.append(session, deleted(number)), number + 1);
    }
}

// A range has the responses from the first number to the last.
fn assert_range(rt: &impl Abort, range: Result<&[Kept], BadRange>, wanted: Option<(u64, u64)>) {
    let Some((first, last)) = wanted else {
        assert_eq!(rt; range.err(), Some(BadRange));
        return;
    };
    let Ok(range) = range else {
        assert!(rt; false, "{first} to {last}");
        return;
    };
    assert_eq!(rt;
        range.len() as u64,
        if first == 0 {
            0
        } else {
            1 + last.saturating_sub(first)
        }
    );
    for (i, kept) in range.iter().enumerate() {
        let number = first.saturating_add(i as u64);
        assert_eq!(rt; *kept, deleted(number.saturating_sub(1)), "number {number}");
    }
}

// The ranges of one session's responses, beside those of another.
#[tactic(auto, using(crate::proofs::RowFacts::sessions_of_fresh))]
fn assert_ranges(rt: &impl Abort, alloc: Global, product: &Product) -> Result<(), Fail> {
    assert!(rt; product.sessions().contains(&DAY));
    let mut store = Store::new(alloc, product)?;
    store.reserve(DAY, 502)?;
    fill(rt, &mut store, DAY, 502);
    for case in &CASES {
        let (after, upto, wanted) = *case;
        assert_range(rt, store.range(DAY, after, upto), wanted);
    }
    assert_eq!(rt; (store.len(DAY), store.len(NIGHT)), (502, 0));
    assert_eq!(rt; store.list(DAY).last(), Some(&deleted(501)));
    assert_eq!(rt;
        store.range(NIGHT, 0, u128::MAX).map(|range| range.len()),
        Ok(0)
    );
    assert_eq!(rt; store.range(NIGHT, 1, 2).err(), Some(BadRange));
    Ok(())
}

#[test]
fn a_range_has_its_responses(rt: HostRuntime) -> Result<(), Fail> {
    let alloc = rt.alloc();
    let product = product(alloc)?;
    assert_ranges(&rt, alloc, &product)
}

// Responses as they are offered, each with what becomes of it.
static OFFERS: [(u128, Offered); 8] = [
    (2, Offered::Ahead),
    (1, Offered::Next),
    (1, Offered::Old),
    (3, Offered::Ahead),
    (2, Offered::Next),
    (0, Offered::Old),
    (u128::MAX, Offered::Ahead),
    (3, Offered::Next),
];

#[test]
fn the_next_response_alone_is_gathered(rt: HostRuntime) -> Result<(), Fail> {
    let mut gathered = Gathered::new(rt.alloc())?;
    for (order, &(number, wanted)) in OFFERS.iter().enumerate() {
        assert_eq!(rt;
            gathered.offer(number, deleted(order as u64))?,
            wanted,
            "{number}"
        );
    }
    assert_eq!(rt;
        gathered.list(),
        [deleted(1), deleted(4), deleted(7)].as_slice()
    );
    Ok(())
}
