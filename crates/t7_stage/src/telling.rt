//! What a link and lines in memory were asked and sent, as printed lines.
use std::alloc::Global;
use std::io;
use t7_base::Feed;
use t7_memory::{Asking, Binding, MemoryLines, MemoryLink, Sending};

/// Prints what the link was asked and sent: `LISTEN ADDRESS` and `DIAL ADDRESS`, with `failed` behind where it failed, and then `SENT C HEX` and `CLOSE C`.
pub(crate) fn tell_link(
    rt: &HostRuntime,
    alloc: Global,
    link: &MemoryLink,
    calls: usize,
) -> io::Result<()> {
    for at in 0..calls {
        if let Some((asking, address)) = link.asked_at(at) {
            let words = match asking {
                Asking::Listen(true) => "LISTEN",
                Asking::Listen(false) => "LISTEN failed",
                Asking::Dial(Some(_)) => "DIAL",
                Asking::Dial(None) => "DIAL failed",
            };
            println!(rt; "{words} {}", text_of(address))?;
        }
    }
    for at in 0..calls {
        match link.sent_at(at) {
            Some((Sending::Bytes(conn), bytes)) => println!(rt;
                "SENT {conn} {}",
                hex::encode(alloc, bytes)?
            )?,
            Some((Sending::Close(conn), _)) => println!(rt; "CLOSE {conn}")?,
            None => return Ok(()),
        }
    }
    Ok(())
}

/// Prints what the lines were asked and cast: `BIND FEED ADDRESS`, or `JOIN FEED ADDRESS` for listening, and then `CAST FEED HEX`.
pub(crate) fn tell_lines(
    rt: &HostRuntime,
    alloc: Global,
    lines: &MemoryLines,
    calls: usize,
) -> io::Result<()> {
    for at in 0..calls {
        if let Some((Binding { feed, listen }, address)) = lines.asked_at(at) {
            let word = if listen { "JOIN" } else { "BIND" };
            println!(rt; "{word} {} {}", feed_word(feed), text_of(address))?;
        }
    }
    for at in 0..calls {
        if let Some((feed, bytes)) = lines.cast_at(at) {
            println!(rt; "CAST {} {}", feed_word(feed), hex::encode(alloc, bytes)?)?;
        }
    }
    Ok(())
}

// An address as it was given.
fn text_of(address: &[u8]) -> &str {
    str::from_utf8(address).unwrap_or("no text")
}

// The word of a feed.
fn feed_word(feed: Feed) -> &'static str {
    match feed {
        Feed::LiveA => "LA",
        Feed::LiveB => "LB",
        Feed::SnapA => "SA",
        Feed::SnapB => "SB",
    }
}
