//! How much each feed gave.

ghost use Rattle.std.specs.Prelude.{◌≡◌};
ghost use Rattle.t7_lines.specs.Gap.{no_tallies, noted_on, noted_tally, tally_of};

use t7_base::Feed;

/// How many deliveries of a feed were taken, and how many of them gave something new. Both counts stop at the greatest u64.
#[derive(Clone, Copy, Debug, PartialEq, Eq)]
pub struct Tally {
    pub taken: u64,
    pub fresh: u64,
}

impl Tally {
    // One delivery more.
    fn note(&mut self, fresh: bool)
        ensures { self.new ≡ noted_tally fresh self.old }
    {
        self.taken = self.taken.saturating_add(1);
        if fresh {
            self.fresh = self.fresh.saturating_add(1);
        }
    }
}

/// The counts of the four feeds.
#[derive(Clone, Copy, Debug)]
pub struct Tallies {
    live_a: Tally,
    live_b: Tally,
    snap_a: Tally,
    snap_b: Tally,
}

const NOTHING: Tally = Tally { taken: 0, fresh: 0 };

impl Tallies {
    // Nothing was taken.
    pub fn new() -> Tallies
        ensures { result ≡ no_tallies }
    {
        Tallies {
            live_a: NOTHING,
            live_b: NOTHING,
            snap_a: NOTHING,
            snap_b: NOTHING,
        }
    }

    // Counts a delivery that was taken on a feed.
    pub fn note(&mut self, feed: Feed, fresh: bool)
        ensures { self.new ≡ noted_on self.old feed fresh }
    {
        match feed {
            Feed::LiveA => self.live_a.note(fresh),
            Feed::LiveB => self.live_b.note(fresh),
            Feed::SnapA => self.snap_a.note(fresh),
            Feed::SnapB => self.snap_b.note(fresh),
        }
    }

    // The counts of a feed.
    pub fn of(&self, feed: Feed) -> Tally
        ensures { result ≡ tally_of self.now feed }
    {
        match feed {
            Feed::LiveA => self.live_a,
            Feed::LiveB => self.live_b,
            Feed::SnapA => self.snap_a,
            Feed::SnapB => self.snap_b,
        }
    }
}
