//! The words of the command line.
ghost use Rattle.std.specs.Prelude.{◌≡◌, ◌≤◌, IfSome, map, string_bytes};
ghost use Rattle.std.specs.Option.{option_map};
ghost use Rattle.t7_top.specs.Words as spec;
ghost use Rattle.t7_top.specs.Meaning.{IsWithin, IsWithinJob, feeds_meant, job_meant, meant};

use t7_records::decimal;

/// The greatest COUNT of events or receipts.
pub const GREATEST_COUNT: u64 = 1_000_000_000;

/// The greatest SESSION.
const GREATEST_SESSION: u64 = 4_000_000_000;

/// The greatest ORDERS of a drill.
const GREATEST_ORDERS: u64 = 20_000;

/// The addresses of the four feeds: any words; one that can't be used is a net fault when it is bound.
#[derive(Clone, Copy, Debug)]
pub struct Feeds<'a> {
    /// Live messages, line A.
    pub live_a: &'a str,
    /// Live messages, line B.
    pub live_b: &'a str,
    /// Snapshots, line A.
    pub snap_a: &'a str,
    /// Snapshots, line B.
    pub snap_b: &'a str,
}

/// What is done with a valid table and a valid product.
#[derive(Clone, Copy, Debug)]
pub enum Job<'a> {
    /// `replay TABLE PRODUCT SCRIPT`: the script, the name of a file.
    Replay {
        script: &'a str,
    },
    /// `exchange TABLE PRODUCT LISTEN LA LB SA SB COUNT`: the address for clients, the feeds, and how many events are taken.
    Exchange {
        listen: &'a str,
        feeds: Feeds<'a>,
        count: u32,
    },
    /// `member TABLE PRODUCT LA LB SA SB COUNT`: the feeds, and how many receipts are taken.
    Member {
        feeds: Feeds<'a>,
        count: u32,
    },
    /// `gather TABLE PRODUCT ADDRESS SESSION COUNT`: the exchange's address, the session, and how many events are taken at most.
    Gather {
        address: &'a str,
        session: u32,
        count: u32,
    },
}

/// A command with its words.
#[derive(Clone, Copy, Debug)]
pub enum Invocation<'a> {
    /// A job over a table and a product, the names of two files.
    Over {
        table: &'a str,
        product: &'a str,
        job: Job<'a>,
    },
    /// `check TABLE`, the name of a file.
    Check {
        table: &'a str,
    },
    /// `drill SEED ORDERS`
    Drill {
        seed: u64,
        orders: u32,
    },
    /// `--help`, `-h` or `help`
    Help,
    /// `--version`
    Version,
}

/// The command that the words are a form of, where they are one.
pub fn read_words<'a>(words: &'a [String]) -> Option<Invocation<'a>>
    ensures value { meant result ≡ spec.command_of (map string_bytes words.now) }
    ensures limits { IfSome result IsWithin }
{
    match words {
        [word] => lone_command(word.as_str()),
        [name, table] if name.as_str() == "check" => Some(Invocation::Check {
            table: table.as_str(),
        }),
        [name, seed, orders] if name.as_str() == "drill" => {
            drill_of(seed.as_bytes(), orders.as_bytes())
        }
        [name, table, product, more @ ..] => {
            over(name.as_str(), table.as_str(), product.as_str(), more)
        }
        _ => None,
    }
}

// A command with these words behind its name, of which the first two name files.
fn over<'a>(
    name: &str,
    table: &'a str,
    product: &'a str,
    more: &'a [String],
) -> Option<Invocation<'a>>
    ensures value { meant result ≡ spec.over name.now table.now product.now (map string_bytes more.now) }
    ensures limits { IfSome result IsWithin }
{
    match job_of(name, more) {
        Some(job) => Some(Invocation::Over {
            table,
            product,
            job,
        }),
        None => None,
    }
}

// The command that a word alone is a form of.
fn lone_command<'a>(word: &str) -> Option<Invocation<'a>>
    ensures value { meant result ≡ spec.lone_command word.now }
    ensures limits { IfSome result IsWithin }
{
    if word == "--help" || word == "-h" || word == "help" {
        Some(Invocation::Help)
    } else if word == "--version" {
        Some(Invocation::Version)
    } else {
        None
    }
}

// A drill with this SEED and these ORDERS.
fn drill_of<'a>(seed: &[u8], orders: &[u8]) -> Option<Invocation<'a>>
    ensures value { meant result ≡ spec.drill_of seed.now orders.now }
    ensures limits { IfSome result IsWithin }
{
    let seed = decimal(seed, u64::MAX)?;
    let orders = decimal(orders, GREATEST_ORDERS)?;
    Some(Invocation::Drill {
        seed,
        orders: orders as u32,
    })
}

// What the words behind the names of a table and of a product are a form of.
fn job_of<'a>(name: &str, words: &'a [String]) -> Option<Job<'a>>
    ensures value { option_map job_meant result ≡ spec.job_of name.now (map string_bytes words.now) }
    ensures limits { IfSome result IsWithinJob }
{
    match words {
        [script] if name == "replay" => Some(Job::Replay {
            script: script.as_str(),
        }),
        [address, session, count] if name == "gather" => {
            gather_of(address.as_str(), session.as_bytes(), count.as_bytes())
        }
        [live_a, live_b, snap_a, snap_b, count] if name == "member" => {
            member_of(feeds_of(live_a, live_b, snap_a, snap_b), count.as_bytes())
        }
        [listen, live_a, live_b, snap_a, snap_b, count] if name == "exchange" => exchange_of(
            listen.as_str(),
            feeds_of(live_a, live_b, snap_a, snap_b),
            count.as_bytes(),
        ),
        _ => None,
    }
}

// A member that listens to these feeds.
fn member_of<'a>(feeds: Feeds<'a>, count: &[u8]) -> Option<Job<'a>>
    ensures value { option_map job_meant result ≡ spec.member_of (feeds_meant feeds.entry) count.now }
    ensures limits { IfSome result IsWithinJob }
{
    let count = count_of(count)?;
    Some(Job::Member { feeds, count })
}

// An exchange that listens here and sends these feeds.
fn exchange_of<'a>(listen: &'a str, feeds: Feeds<'a>, count: &[u8]) -> Option<Job<'a>>
    ensures value { option_map job_meant result ≡ spec.exchange_of listen.now (feeds_meant feeds.entry) count.now }
    ensures limits { IfSome result IsWithinJob }
{
    let count = count_of(count)?;
    Some(Job::Exchange {
        listen,
        feeds,
        count,
    })
}

// The addresses of the four feeds.
fn feeds_of<'a>(
    live_a: &'a String,
    live_b: &'a String,
    snap_a: &'a String,
    snap_b: &'a String,
) -> Feeds<'a>
    ensures { feeds_meant result ≡ record {
      live_a = string_bytes live_a.now;
      live_b = string_bytes live_b.now;
      snap_a = string_bytes snap_a.now;
      snap_b = string_bytes snap_b.now;
    } }
{
    Feeds {
        live_a: live_a.as_str(),
        live_b: live_b.as_str(),
        snap_a: snap_a.as_str(),
        snap_b: snap_b.as_str(),
    }
}

// A gatherer of a session.
fn gather_of<'a>(address: &'a str, session: &[u8], count: &[u8]) -> Option<Job<'a>>
    ensures value { option_map job_meant result ≡ spec.gather_of address.now session.now count.now }
    ensures limits { IfSome result IsWithinJob }
{
    let session = counted_to(GREATEST_SESSION, session)?;
    let count = count_of(count)?;
    Some(Job::Gather {
        address,
        session: session as u32,
        count,
    })
}

// A COUNT of events or receipts.
fn count_of(word: &[u8]) -> Option<u32>
    ensures value { result ≡ spec.count_of word.now }
    ensures limits { IfSome result (λ count. count ≤ 1_000_000_000) }
{
    let count = counted_to(GREATEST_COUNT, word)?;
    Some(count as u32)
}

// The number from 1 to `most` that a word is.
fn counted_to(most: u64, word: &[u8]) -> Option<u64>
    ensures value { result ≡ spec.counted_to most word.now }
    ensures limits { IfSome result (λ number. number ≤ most) }
{
    match decimal(word, most)? {
        0 => None,
        number => Some(number),
    }
}
