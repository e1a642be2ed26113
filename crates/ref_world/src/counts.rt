//! What a world counts: its commits, and what they did to its tally.
ghost use Rattle.std.specs.Prelude.{◌≡◌, ◌+◌, ◌<◌, ◌≤◌, ◌^◌, if◌then◌else◌};
ghost use Rattle.ref_world.specs.World.{booked, most_booked, room};

use std::marker::Model;

/// The most that can be added to the tally in all, and the most that can be taken from it: 2^63 - 1.
pub const MOST_BOOKED: u64 = 9_223_372_036_854_775_807;

// How much can still be added where so much was, or taken.
pub(crate) fn room(booked: u64) -> u64
    requires { booked ≤ most_booked }
    ensures { result ≡ room booked }
{
    MOST_BOOKED - booked
}

// How many transactions were committed, how much they added to the tally and took from it, and what the tally began with.
#[derive(Drop)]
pub(crate) struct Counts {
    pub(crate) commits: u64,
    pub(crate) added: u64,
    pub(crate) taken: u64,
    pub(crate) start: u64,
}

impl Model for Counts {
    ghost use Rattle.ref_world.specs.Seen.{BooksSeen};

    ghost Value = { BooksSeen };

    ghost view = { λ b. record { commits = b.commits; added = b.added; taken = b.taken; start = b.start } };
}

impl Counts {
    // Where nothing was counted yet.
    pub(crate) fn none(start: u64) -> Counts
        ensures { result ≡ record { commits = 0; added = 0; taken = 0; start = start } }
    {
        Counts {
            commits: 0,
            added: 0,
            taken: 0,
            start,
        }
    }

    // Counts a commit that added so much to the tally and took so much from it.
    pub(crate) fn book(&mut self, added: u64, taken: u64)
        requires commits { self.old.commits + 1 < 2 ^ 64 }
        requires added { self.old.added + added < 2 ^ 64 }
        requires taken { self.old.taken + taken < 2 ^ 64 }
        ensures { self.new ≡ booked self.old added taken }
    {
        self.commits += 1;
        self.added += added;
        self.taken += taken;
    }

    // Where a ref is made as the tally, it begins with this value.
    pub(crate) fn start(&mut self, tally: bool, value: u64)
        ensures { self.new ≡ record self.old { start = if tally then value else self.old.start } }
    {
        if tally {
            self.start = value;
        }
    }
}
