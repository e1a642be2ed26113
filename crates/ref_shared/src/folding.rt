//! What a program that stays up folds: the log, the receipts of shares, and the accounts of agents.
ghost use Rattle.std.specs.Prelude.{◌≡◌, ◌<◌, ◌≤◌, ◌+◌, ℕ, max, IfErr, IfOk, OnOk};
ghost use Rattle.ref_shared.specs.Commits.{HasCaughtUp};
ghost use Rattle.ref_world.specs.History.{point_in};
ghost use Rattle.ref_world.specs.Shares.{forgotten};
ghost use Rattle.ref_world.specs.declared.faults.CheckpointFault.TheVariants as checkpoints;

use crate::shared::{Held, Shared};
use ref_fun::{Functions, Meaning};
use ref_world::{Books, CheckpointFault, Front, Share};
use std::alloc::{AllocError, Global};
use std::sync::Wait;

impl<M: Meaning, L: Books> Shared<M, L> {
    /// Folds the entries up to this point into the base, and returns how many these were: see [`ref_world::World::checkpoint`]. The
    /// lock is held while these entries are replayed, for a step for each ref and atom, and for a logarithm of the entries that are left: so
    /// not for longer than the entries since the last checkpoint take. Whoever calls it often holds it for a short time each. What is
    /// dropped of base and log is dropped with the lock free.
    pub fn checkpoint<R: Wait, F: Functions<M>>(
        &self,
        rt: &R,
        alloc: Global,
        funs: &F,
        front: &mut Front<L>,
        point: u64,
    ) -> Result<u64, CheckpointFault>
        ensures learned { HasCaughtUp M.means front.old front.new }
        ensures point { OnOk result (point ≤ point_in front.new) }
    {
        let mut held = self.lock(rt);
        let before = held.booked.world.view();
        let folded = held.fold(alloc, funs, front, point);
        drop(held);
        drop(before);
        folded
    }

    /// Folds the entries up to this point into the base, so many at a time, and returns how many it folded: the lock is free between two
    /// bites, and held for one bite at a time. Nothing says that a thread which waits for the lock gets it between two bites. Entries
    /// that are folded already, also by others meanwhile, aren't counted, so for a point that isn't past the base's it returns 0.
    ///
    /// It fails as [`Shared::checkpoint`]: for a point past the present with nothing changed; if memory or a function is lacking, what
    /// was folded before stays folded. Each bite copies the base, which takes a step for each ref and atom: with many of them take large
    /// bites.
    pub fn checkpoint_in_bites<R: Wait, F: Functions<M>>(
        &self,
        rt: &R,
        alloc: Global,
        funs: &F,
        front: &mut Front<L>,
        point: u64,
        bite: u32,
    ) -> Result<u64, CheckpointFault>
        requires { 0 < bite }
        ensures learned { HasCaughtUp M.means front.old front.new }
        ensures point { OnOk result (point ≤ point_in front.new) }
        ensures absent { IfErr result (λ f. f ≡ checkpoints.NoSuchPoint → point_in front.new < point) }
    {
        let mut folded = 0u64;
        for _ in rt.forever() {
            match self.fold_bite(rt, alloc, funs, front, point, bite) {
                Ok(0) => return Ok(folded),
                Ok(count) => folded = folded.saturating_add(count),
                Err(fault) => return Err(fault),
            }
        }
        unreachable!()
    }

    // One bite. What it drops of base and log is dropped with the lock free.
    fn fold_bite<R: Wait, F: Functions<M>>(
        &self,
        rt: &R,
        alloc: Global,
        funs: &F,
        front: &mut Front<L>,
        point: u64,
        bite: u32,
    ) -> Result<u64, CheckpointFault>
        requires { 0 < bite }
        ensures learned { HasCaughtUp M.means front.old front.new }
        ensures point { OnOk result (point ≤ point_in front.new) }
        ensures absent { IfErr result (λ f. f ≡ checkpoints.NoSuchPoint → point_in front.new < point) }
    {
        let mut held = self.lock(rt);
        let before = held.booked.world.view();
        let folded = held.fold_bite(alloc, funs, front, point, bite);
        drop(held);
        drop(before);
        folded
    }

    /// Drops the receipts of a share whose entries are folded into the base: see [`ref_world::Booked::forget`]. The lock is held for a look at
    /// the base, and the receipts are dropped with the lock free.
    pub fn forget<R: Wait>(&self, rt: &R, share: &mut Share<L>)
        ensures { (point : ℕ) × (share.new ≡ forgotten share.old point) }
    {
        let point = self.lock(rt).booked.world.base().point;
        share.forget(point);
    }

    /// Folds the account of an agent, and returns whether it did so: see [`ref_world::World::fold_agent`]. The lock is held for a step for each
    /// action that ended since the last fold or restart: what is dropped is dropped under it. Actions may be queued, on their way, and end
    /// meanwhile.
    pub fn fold_agent<R: Wait>(&self, rt: &R, g: u32) -> Result<bool, AllocError> {
        self.lock(rt).booked.world.fold_agent(g)
    }
}

impl<M: Meaning, L: Books> Held<M, L> {
    // Folds the entries up to this point, and returns how many these were.
    fn fold<F: Functions<M>>(
        &mut self,
        alloc: Global,
        funs: &F,
        front: &mut Front<L>,
        point: u64,
    ) -> Result<u64, CheckpointFault>
        ensures learned { HasCaughtUp M.means front.old front.new }
        ensures point { OnOk result (point ≤ point_in front.new) }
        ensures count { IfOk result (λ n. n + self.old.booked.world.base.point ≡ point) }
    {
        self.booked.inform_front(front);
        self.booked.checkpoint(alloc, funs, point)
    }

    // Folds at most so many entries up to this point, and returns how many: 0 only where all up to it are folded.
    fn fold_bite<F: Functions<M>>(
        &mut self,
        alloc: Global,
        funs: &F,
        front: &mut Front<L>,
        point: u64,
        bite: u32,
    ) -> Result<u64, CheckpointFault>
        requires { 0 < bite }
        ensures learned { HasCaughtUp M.means front.old front.new }
        ensures point { OnOk result (point ≤ point_in front.new) }
        ensures absent { IfErr result (λ f. f ≡ checkpoints.NoSuchPoint → point_in front.new < point) }
        ensures count { IfOk result (λ n. (n ≤ bite) × (n ≡ 0 → point ≤ self.old.booked.world.base.point)
            × (n + self.old.booked.world.base.point ≤ max point self.old.booked.world.base.point)) }
    {
        let present = self.booked.world.point();
        self.booked.inform_front(front);
        if point > present {
            return Err(CheckpointFault::NoSuchPoint);
        }
        let base = self.booked.world.base().point;
        if point <= base {
            return Ok(0);
        }
        let to = if point - base < bite as u64 {
            point
        } else {
            base + bite as u64
        };
        self.booked.checkpoint(alloc, funs, to)
    }
}
