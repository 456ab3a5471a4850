//! What always holds of what is printed.
ghost use Rattle.std.specs.Prelude.{◌≡◌, ◌<◌, ◌^◌, List, length};
ghost use Rattle.t7_base.specs.declared.ids.Feed.{Feed};
ghost use Rattle.t7_feed.specs.Arrivals.{Delivery, Terms};
ghost use Rattle.t7_follow.specs.Members.{Made, accepted_on};
ghost use Rattle.t7_lines.specs.Gap.{tally_of};
ghost use Rattle.t7_member.specs.Keeping.{Image};

/// The first count of a feed's line is the number of its deliveries that were accepted.
pub fn counts_are_of_accepted()
    ensures { (terms : Terms) (came : List Delivery) (member : Image) → Made terms came member → length came < 2 ^ 64 → (feed : Feed)
        → (tally_of member.tallies feed).taken ≡ accepted_on terms feed came }
{}
