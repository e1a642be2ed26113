//! The books of a world: what all of its shares have together.
ghost use Rattle.std.specs.Prelude.{◌≡◌, ◌+◌, []};
ghost use Rattle.ref_world.specs.Seen.{TotalsSeen};
ghost use Rattle.ref_world.specs.Shares.{AreBlanks, all_parts, whole};

use crate::histories::History;
use crate::names::{Added, Blanks, Books, Commits, Taken};
use crate::shares::Share;
use ref_log::Base;
use std::alloc::Global;
use std::marker::Model;
use std::sync::ledger::Book;

/// The three books of a world. Contracts see what stands in each.
#[derive(Drop)]
pub struct Ledgers<L: Books> {
    commits: Book<Commits<L>>,
    added: Book<Added<L>>,
    taken: Book<Taken<L>>,
}

impl<L: Books> Model for Ledgers<L> {
    ghost use Rattle.ref_world.specs.Seen.{TotalsSeen};

    ghost Value = { TotalsSeen };

    ghost view = { λ l. record { commits = l.commits.total; added = l.added.total; taken = l.taken.total } };
}

impl<L: Books> Ledgers<L> {
    // Books in which nothing stands yet, the history of a world that begins with this base, and the share with all parts.
    pub(crate) fn open(
        alloc: Global,
        blanks: Blanks,
        base: &Base,
    ) -> (Ledgers<L>, History<L>, Share<L>)
        requires { AreBlanks blanks L.commits L.added L.taken L.story }
        ensures books { result.0 ≡ record { commits = 0; added = 0; taken = 0 } }
        ensures history { result.1 ≡ record { start = base.now; entries = [] } }
        ensures share { result.2 ≡ whole result.1 }
    {
        let Blanks {
            commits,
            added,
            taken,
            story,
        } = blanks;
        let mut history = History::of(story, base);
        let front = history.front(base.point);
        let (commits, commit_parts) = commits.open::<Commits<L>>();
        let (added, added_parts) = added.open::<Added<L>>();
        let (taken, taken_parts) = taken.open::<Taken<L>>();
        let books = Ledgers {
            commits,
            added,
            taken,
        };
        let share = Share::whole(
            Vec::new(alloc),
            commit_parts,
            added_parts,
            taken_parts,
            front,
        );
        (books, history, share)
    }

    // Counts a commit that added so much to the tally and took so much from it, here and in a share.
    pub(crate) fn book(&mut self, share: &mut Share<L>, added: u64, taken: u64)
        ensures books { self.new ≡ record {
          commits = self.old.commits + 1;
          added = self.old.added + added;
          taken = self.old.taken + taken;
        } }
        ensures share { share.new ≡ record share.old {
          commits = share.old.commits + 1;
          added = share.old.added + added;
          taken = share.old.taken + taken;
        } }
    {
        self.commits.add(&mut share.commits, 1);
        self.added.add(&mut share.added, added);
        self.taken.add(&mut share.taken, taken);
    }

    // Changes nothing. The share that has all parts has what stands here.
    pub(crate) fn audit(&mut self, share: &mut Share<L>)
        ensures books { self.new ≡ self.old }
        ensures share { share.new ≡ share.old }
        ensures whole { share.old.parts ≡ all_parts
            → (self.old.commits ≡ share.old.commits) × (self.old.added ≡ share.old.added)
            × (self.old.taken ≡ share.old.taken) }
    {
        self.commits.audit(&mut share.commits);
        self.added.audit(&mut share.added);
        self.taken.audit(&mut share.taken);
    }
}
