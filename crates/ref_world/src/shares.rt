//! Shares of what is done to a world.
ghost use Rattle.std.specs.Prelude.{◌≡◌, ◌≢◌, ◌+◌, ◌<◌, ◌≤◌, ◌==◌, ◌↔◌, [], IsSome, IfSome, IfNone, OnOk, OnErr, IfErr};
ghost use Rattle.ref_world.specs.History.{Begins};
ghost use Rattle.ref_world.specs.Shares.{all_parts, forgotten, joined, knowing, whole};

use crate::histories::Front;
use crate::names::{Added, Books, Commits, Taken};
use std::marker::Model;
use std::sync::ledger::Share as Part;

/// How many parts all shares of a world have: 2^32.
pub const ALL_PARTS: u64 = 4_294_967_296;

/// Some of the 2^32 parts of a world, and what was done with them: how many commits, how much they added to the tally and took from
/// it, and the receipt of each entry that a commit or a change of an atom added, in the order of the calls, as long as no share was joined. A
/// receipt is the point of the entry; the history, as far as the share knows it, has the entry there.
///
/// A world comes with one share, which has all parts. Whoever is to change it gets some of them by [`Share::split`]; the calls
/// that add such an entry take the share and count in it. L names the world's books, so that a share fits no other
/// world and meets no share of one. Where all are joined again, what is in the share is what is in the world's books. A share
/// that is dropped takes its parts with it.
#[derive(Drop)]
pub struct Share<L: Books> {
    parts: u64,
    pub(crate) commits: Part<Commits<L>>,
    pub(crate) added: Part<Added<L>>,
    pub(crate) taken: Part<Taken<L>>,
    pub(crate) receipts: Vec<u64>,
    pub(crate) front: Front<L>,
}

impl<L: Books> Model for Share<L> {
    ghost use Rattle.std.specs.Prelude.{◌≡◌, ◌<◌, ◌≤◌};
    ghost use Rattle.std.specs.Coded.{codes};
    ghost use Rattle.ref_value.specs.Code.{edn_code};
    ghost use Rattle.ref_world.specs.Seen.{ShareSeen};
    ghost use Rattle.ref_world.specs.Shares.{all_parts};

    ghost Value = { ShareSeen };

    ghost coded = { Prim.hlevel (codes, edn_code) };

    ghost view = { λ s. record {
      parts = s.parts;
      commits = s.commits.amount;
      added = s.added.amount;
      taken = s.taken.amount;
      receipts = s.receipts.items;
      history = s.front;
    } };

    ghost invariant = { λ s. (s.commits.parts ≡ s.parts) × (s.added.parts ≡ s.parts) × (s.taken.parts ≡ s.parts)
        × (0 < s.parts) × (s.parts ≤ all_parts) };
}

impl<L: Books> Share<L> {
    // The share with all parts, of a world in which nothing was done.
    pub(crate) fn whole(
        receipts: Vec<u64>,
        commits: Part<Commits<L>>,
        added: Part<Added<L>>,
        taken: Part<Taken<L>>,
        front: Front<L>,
    ) -> Share<L>
        requires parts { (commits.parts ≡ all_parts) × (added.parts ≡ all_parts) × (taken.parts ≡ all_parts) }
        requires amounts { (commits.amount ≡ 0) × (added.amount ≡ 0) × (taken.amount ≡ 0) }
        requires receipts { receipts.items ≡ [] }
        ensures { result ≡ whole front }
    {
        Share {
            parts: ALL_PARTS,
            commits,
            added,
            taken,
            receipts,
            front,
        }
    }

    /// How many of the 2^32 parts it has: at least one, and at most all.
    pub fn parts(&self) -> u64
        ensures value { result ≡ self.now.parts }
        ensures some { 0 < result }
        ensures most { result ≤ all_parts }
    {
        self.parts
    }

    /// Whether it has all parts.
    pub fn is_whole(&self) -> bool
        ensures { result ≡ (self.now.parts == all_parts) }
    {
        self.parts == ALL_PARTS
    }

    /// The points of the entries that were added, in the order in which the calls were made; those of a share that was joined stand where
    /// [`Share::join`] put them.
    pub fn receipts(&self) -> &[u64]
        ensures { result.now ≡ self.now.receipts }
    {
        self.receipts.as_slice()
    }

    /// How far the history of the world is known.
    pub fn front(&self) -> &Front<L>
        ensures { result.now ≡ self.now.history }
    {
        &self.front
    }

    /// Knows the history up to this front, which what it knew begins.
    pub fn catch_up(&mut self, front: Front<L>)
        requires { Begins self.old.history front }
        ensures { self.new ≡ knowing self.old front }
    {
        self.front = front;
    }

    /// Another share with so many of the parts, with which nothing was done; the history is known as far as here. None for 0 of them, and for as many as it has or
    /// more. It takes no memory.
    pub fn split(&mut self, parts: u64) -> Option<Share<L>>
        ensures when { IsSome result ↔ ((0 < parts) × (parts < self.old.parts)) }
        ensures some { IfSome result (λ s. s ≡ record (whole self.old.history) { parts = parts }) }
        ensures left { IfSome result (λ s. self.new.parts + parts ≡ self.old.parts) }
        ensures same { (self.new.commits ≡ self.old.commits) × (self.new.added ≡ self.old.added)
            × (self.new.taken ≡ self.old.taken) × (self.new.receipts ≡ self.old.receipts) × (self.new.history ≡ self.old.history) }
        ensures none { IfNone result (self.new ≡ self.old) }
    {
        if parts == 0 || parts >= self.parts {
            return None;
        }
        let commits = self.commits.split_off(parts, 0);
        let added = self.added.split_off(parts, 0);
        let taken = self.taken.split_off(parts, 0);
        self.parts -= parts;
        Some(Share {
            parts,
            commits,
            added,
            taken,
            receipts: Vec::new(*self.receipts.allocator()),
            front: self.front.again(),
        })
    }

    /// Drops the receipts of the entries up to this point. All else stays, and so do the receipts of later entries, in their order.
    /// [`Booked::forget`](crate::Booked::forget) passes the point of the base, up to which no receipt is asked for any more. With a
    /// later point the share lacks receipts that are still asked for, until a checkpoint has reached that point.
    ///
    /// It takes no memory, and the list of receipts has room for as many as before. Linear in the number of receipts.
    pub fn forget(&mut self, point: u64)
        ensures { self.new ≡ forgotten self.old point }
    {
        self.receipts.retain(|receipt| *receipt > point);
    }

    /// Takes all of another share in. The receipts that were here stand first, in their order, and then the other's, in theirs;
    /// so where both shares were used side by side, the receipts of the joined one needn't stand in the order of their points.
    /// Linear in the number of the other's receipts. Where there is no memory for these it changes nothing and returns the other
    /// share back; one without receipts takes no memory.
    pub fn join(&mut self, other: Share<L>) -> Result<(), Share<L>>
        ensures ok { OnOk result (self.new ≡ joined self.old other) }
        ensures known { OnOk result (Begins self.old.history self.new.history × Begins other.history self.new.history) }
        ensures back { IfErr result (λ s. s ≡ other) }
        ensures err { OnErr result (self.new ≡ self.old) }
        ensures memory { OnErr result (other.receipts ≢ []) }
    {
        let more = other.receipts.len();
        if more > 0 && self.receipts.reserve(more).is_err() {
            return Err(other);
        }
        let Share {
            parts,
            commits,
            added,
            taken,
            mut receipts,
            front,
        } = other;
        let _ = self.receipts.append(&mut receipts);
        self.commits.merge(commits);
        self.added.merge(added);
        self.taken.merge(taken);
        self.front.learn(front);
        self.parts += parts;
        Ok(())
    }
}
