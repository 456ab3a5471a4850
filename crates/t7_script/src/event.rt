//! The events of a script, and why a line is none.

use t7_base::{Feed, Moment, Octets, Price, Qty, SecurityId, SessionId, Side};

/// What a line of a script asks for.
#[derive(Drop)]
pub enum Event {
    /// `RAW`: from now on the bytes of replies and datagrams are printed.
    Raw,
    /// `OPEN c`: connection c of the exchange opens, 1..=1,000.
    Opens {
        conn: u32,
    },
    /// `IN c hex`: these bytes come on connection c, 1..=65,536 of them.
    Input {
        conn: u32,
        bytes: Octets,
    },
    /// `CUT c`: connection c closes.
    Cut {
        conn: u32,
    },
    /// `TICK m`: the moment becomes m, which isn't before the last one, and the exchange ticks.
    Tick {
        moment: Moment,
    },
    /// `SNAP`: the exchange sends the next snapshot datagram.
    Snap,
    /// `BEAT`: the exchange sends a Heartbeat datagram on the live channel.
    Beat,
    /// `CLEAR x`: all orders of a security of the product are cleared.
    Clear {
        security: SecurityId,
    },
    /// `LA k`, `LB k`, `SA k`, `SB k`: the datagram with ApplSeqNum k of the feed's channel is delivered to the member on it.
    Deliver {
        feed: Feed,
        number: u64,
    },
    /// `FORGE f hex`: these bytes are delivered to the member on feed f; `-` stands for none.
    Forge {
        feed: Feed,
        bytes: Octets,
    },
    /// `DIAL c x`: connection c opens, and the client of session x of the product dials on it.
    Dial {
        conn: u32,
        session: SessionId,
    },
    /// `ORDER x d p q n`: the client queues an order of a security of the product.
    Order {
        security: SecurityId,
        side: Side,
        price: Price,
        qty: Qty,
        client: u64,
    },
    /// `UP n`: the next n of the client's queued bytes come to the exchange; all of them with `*`, which is None.
    Up {
        count: Option<u64>,
    },
    /// `DOWN n`: the next n bytes that the exchange sent on the client's connection come to the client; all of them with `*`, which is None.
    Down {
        count: Option<u64>,
    },
    /// `SHOW`: the member's report is printed.
    Show,
    /// `LIST`: the client's report is printed.
    List,
}

/// Why a line is no event. The first test that fails is named.
#[derive(Clone, Copy, Debug, PartialEq, Eq)]
pub enum LineRefusal {
    /// The first cell is no event, or the number of cells is wrong.
    Event,
    /// A cell isn't a number, hex or word of its form, or is out of its range.
    Number,
    /// Memory is wanting.
    Memory,
}
