//! A world under one lock.
ghost use Rattle.std.specs.Prelude.{◌≡◌, ℕ, [], true, false, Ok, IfOk, IfErr, OnErr, OnOk};
ghost use Rattle.ref_log.specs.Replay.{place};
ghost use Rattle.ref_log.specs.declared.notices.Who.TheVariants as who;
ghost use Rattle.ref_log.specs.declared.operations.Op.TheVariants.{Alter, Set};
ghost use Rattle.ref_refs.specs.Conflicts.{ConflictFits};
ghost use Rattle.ref_world.specs.Shares.{all_parts};
ghost use Rattle.ref_shared.specs.Bodies.{IsFresh};
ghost use Rattle.ref_world.specs.History.{atoms_in, changed_in, point_in, refs_in};
ghost use Rattle.ref_log.specs.declared.entries.Entry.TheVariants as entries;
ghost use Rattle.ref_shared.specs.Commits.{AreCommitted, AreNotices, HasCaughtUp, HasChanged, HasCommitted, HasEnded, HasLearned, HasMade, IsValueIn};
ghost use Rattle.ref_shared.specs.Gather.{GatherFails, InOrder, ReceiptsMatch};

use crate::faults::GatherFault;
use crate::gathering::match_receipts;
use crate::waiters::Waiters;
use ref_agents::{AgentError, ErrorMode, ModeFault, RestartFault, SendFault};
use ref_atoms::{AtomFault, Cas, Swapped};
use ref_fun::{Action, Args, Functions, Meaning, Rule};
use ref_log::{MakeFault, RuleFault, Stamp, WatchFault, Who};
use ref_refs::CommitFault;
use ref_tx::{Snapshot, Tx};
use ref_value::Value;
use ref_world::{Booked, Books, Front, Opening, Preparing, Receipt, Share, Totals, View, World};
use std::alloc::{AllocError, Global};
use std::hint::spin_loop;
use std::sync::{Condvar, Mutex, MutexGuard, Wait};

// How often the processor pauses between one look at a lock that is held and the next, before a thread sleeps. A pause takes some
// 5 to 60 nanoseconds: on a quick processor a thread waits for a third of a millisecond, with looks that are up to 80 microseconds
// apart. So far apart, they leave the lock for a while to a thread that has the world in its processor's cache.
const PAUSES: &[u32] = &[1_024, 4_096, 16_384, 16_384, 16_384, 16_384];

// What the lock is round: the world, whether the shared world was closed, and who waits for what.
#[derive(Drop)]
pub(crate) struct Held<M: Meaning, L: Books> {
    pub(crate) booked: Booked<M, L>,
    pub(crate) is_closed: bool,
    pub(crate) waiters: Waiters,
}

/// A world that threads share.
///
/// It stands under one lock. Each call but [`Shared::new`] and [`Shared::finish`] takes that lock, makes one step on the world, or none as
/// [`Shared::close`], and then releases it; [`Shared::transact`], [`Shared::transact_when`], [`Shared::work_once`],
/// [`Shared::await_agents`] and [`Shared::checkpoint_in_bites`] take it for each of their steps. The lock is never held while a
/// transaction's body, an action, a gate or a sink runs, and whenever it is free, the world is as the type [`World`] guarantees. What was
/// found at one lock need not hold at the next. Where a commit commutes, where an atom is changed and where a rule is asked, the table's
/// functions are called under the lock: they are to be quick.
///
/// The calls may wait for the lock, and promise what they say where they return. A thread that never lets its body, its gate or
/// its sink return holds up nobody who waits for the lock.
#[derive(Drop)]
pub struct Shared<M: Meaning, L: Books> {
    held: Mutex<Held<M, L>>,
    // Woken where an agent may have become ready, and at the end: threads that run actions wait for it.
    pub(crate) ready: Condvar,
    // Woken where an entry has come, or enough actions of an agent are gone, and somebody waits for it; and at the end. All who wait are
    // woken each time, for they don't wait for the same.
    pub(crate) moved: Condvar,
}

impl<M: Meaning, L: Books> Shared<M, L> {
    /// Puts a world under a lock. It waits for nobody.
    pub fn new(booked: Booked<M, L>) -> Shared<M, L> {
        let held = Held {
            booked,
            is_closed: false,
            waiters: Waiters::none(),
        };
        Shared {
            held: Mutex::new(held),
            ready: Condvar::new(),
            moved: Condvar::new(),
        }
    }

    // The lock. It is free again where the guard is dropped. Whoever finds it held looks again after pauses, and then sleeps: a call
    // holds it for some microseconds, and to sleep and be woken takes longer.
    pub(crate) fn lock<R: Wait>(&self, rt: &R) -> MutexGuard<'_, Held<M, L>> {
        for pauses in PAUSES {
            if let Some(guard) = self.held.try_lock() {
                return guard;
            }
            for _ in 0..*pauses {
                spin_loop();
            }
        }
        self.held.lock(rt)
    }

    /// Begins a transaction over the values as they are now: see [`World::begin`]. They are the values after all of the history that the share
    /// then knows.
    pub fn begin<R: Wait>(
        &self,
        rt: &R,
        alloc: Global,
        share: &mut Share<L>,
    ) -> Result<Tx<M>, AllocError>
        ensures fresh { IfOk result (λ tx. IsFresh tx) }
        ensures began { IfOk result (λ tx. (tx.read_point ≡ point_in share.new.history)
            × (tx.began ≡ refs_in M.means share.new.history)) }
        ensures learned { HasLearned M.means share.old share.new }
    {
        self.begin_as::<Snapshot, R>(rt, alloc, share)
    }

    /// The same, with a beginning of any kind. One that began as [`Known`](ref_world::Known) compares no value when it is committed.
    pub fn begin_as<S: Opening<M, L>, R: Wait>(
        &self,
        rt: &R,
        alloc: Global,
        share: &mut Share<L>,
    ) -> Result<Tx<M, S>, AllocError>
        ensures fresh { IfOk result (λ tx. IsFresh tx) }
        ensures began { IfOk result (λ tx. (tx.read_point ≡ point_in share.new.history)
            × (tx.began ≡ refs_in M.means share.new.history)) }
        ensures learned { HasLearned M.means share.old share.new }
    {
        let mut held = self.lock(rt);
        S::start(&mut held.booked, alloc, share)
    }

    /// Commits a transaction: see [`Booked::commit_with`]. Its entry is the last of the history that the share then knows, at the receipt's
    /// point, and each of its operations was a legal step there.
    ///
    /// The caller delivers the notices of the receipt to the watches, and then releases the commit's sends by [`Shared::release`];
    /// [`Shared::transact`] does all of it.
    pub fn commit<R: Wait, F: Functions<M>, S: Preparing<M, L>>(
        &self,
        rt: &R,
        alloc: Global,
        funs: &F,
        share: &mut Share<L>,
        stamp: Stamp,
        tx: Tx<M, S>,
    ) -> Result<Receipt, (Tx<M, S>, CommitFault)>
        ensures stamp { IfOk result (λ receipt. receipt.stamp ≡ stamp) }
        ensures share { IfOk result (λ receipt. HasCommitted M.means stamp tx receipt.point share.old share.new) }
        ensures notices { IfOk result (λ receipt. AreCommitted M.means tx receipt.notices.items) }
        // A conflict is one that the history shows: the ref's last change there came after the read point.
        ensures conflict { IfErr result (λ e. ConflictFits tx (changed_in share.new.history) e.1) }
        ensures back { IfErr result (λ e. e.0 ≡ tx) }
        ensures learned { OnErr result (HasLearned M.means share.old share.new) }
    {
        let mut held = self.lock(rt);
        let booked = &mut held.booked;
        let committed = booked.commit_with(alloc, funs, share, stamp, tx);
        booked.inform(share);
        self.free_with_entry(held, committed.is_ok());
        committed
    }

    /// Releases what the commit at this point sent, and wakes the threads that wait for an action to run: see [`World::release`].
    pub fn release<R: Wait>(&self, rt: &R, point: u64) -> bool {
        let had_sends = self.lock(rt).booked.world.release(point);
        if had_sends {
            self.ready.notify_all();
        }
        had_sends
    }

    /// Releases what the last handled action of an agent carried, and wakes the threads that wait for an action to run: see
    /// [`World::release_carried`]. [`Shared::work_once`] does it.
    pub fn release_carried<R: Wait>(&self, rt: &R, g: u32) -> bool {
        let had_carries = self.lock(rt).booked.world.release_carried(g);
        if had_carries {
            self.ready.notify_all();
        }
        had_carries
    }

    /// The value of a reference now, if it is there: of a ref or atom that after all of the history that is then known, of an agent its
    /// state. It takes no memory, but std can refuse one more owner.
    pub fn value_of<R: Wait>(
        &self,
        rt: &R,
        front: &mut Front<L>,
        who: Who,
    ) -> Result<Option<Value>, AllocError>
        ensures value { IfOk result (IsValueIn M.means front.new who) }
        ensures learned { HasCaughtUp M.means front.old front.new }
    {
        let mut held = self.lock(rt);
        held.booked.inform_front(front);
        match held.booked.world.value_of(who) {
            Some(value) => Ok(Some(value.share()?)),
            None => Ok(None),
        }
    }

    /// Gives a reference another rule, or none: see [`World::set_validator`].
    pub fn set_validator<R: Wait, F: Functions<M>>(
        &self,
        rt: &R,
        funs: &F,
        who: Who,
        rule: Option<Rule>,
    ) -> Result<(), RuleFault> {
        self.lock(rt).booked.world.set_validator(funs, who, rule)
    }

    /// Adds a watch to a reference: see [`World::add_watch`].
    pub fn add_watch<R: Wait>(&self, rt: &R, who: Who, key: Value) -> Result<bool, WatchFault> {
        self.lock(rt).booked.world.add_watch(who, key)
    }

    /// Takes a watch away from a reference: see [`World::remove_watch`].
    pub fn remove_watch<R: Wait>(&self, rt: &R, who: Who, key: &Value) -> bool {
        self.lock(rt).booked.world.remove_watch(who, key)
    }

    /// Makes a ref: see [`World::make_ref`]. Its entry is the last of the history that is then known.
    pub fn make_ref<R: Wait, F: Functions<M>>(
        &self,
        rt: &R,
        alloc: Global,
        funs: &F,
        front: &mut Front<L>,
        value: Value,
        rule: Option<Rule>,
        tally: bool,
    ) -> Result<u32, MakeFault>
        ensures made { IfOk result (λ r. HasMade M.means (entries.MadeRef value) (refs_in M.means) r front.old front.new) }
        ensures learned { OnErr result (HasCaughtUp M.means front.old front.new) }
    {
        let mut held = self.lock(rt);
        let booked = &mut held.booked;
        booked.inform_front(front);
        let made = booked.make_ref(alloc, funs, value, rule, tally);
        booked.inform_front(front);
        self.free_with_entry(held, made.is_ok());
        made
    }

    /// Makes an atom: see [`World::make_atom`]. Its entry is the last of the history that is then known.
    pub fn make_atom<R: Wait, F: Functions<M>>(
        &self,
        rt: &R,
        alloc: Global,
        funs: &F,
        front: &mut Front<L>,
        value: Value,
        rule: Option<Rule>,
    ) -> Result<u32, MakeFault>
        ensures made { IfOk result (λ a. HasMade M.means (entries.MadeAtom value) (atoms_in M.means) a front.old front.new) }
        ensures learned { OnErr result (HasCaughtUp M.means front.old front.new) }
    {
        let mut held = self.lock(rt);
        let booked = &mut held.booked;
        booked.inform_front(front);
        let made = booked.make_atom(alloc, funs, value, rule);
        booked.inform_front(front);
        self.free_with_entry(held, made.is_ok());
        made
    }

    /// Makes an agent: see [`World::make_agent`].
    pub fn make_agent<R: Wait, F: Functions<M>>(
        &self,
        rt: &R,
        alloc: Global,
        funs: &F,
        value: Value,
        rule: Option<Rule>,
        mode: ErrorMode,
    ) -> Result<u32, MakeFault> {
        self.lock(rt)
            .booked
            .world
            .make_agent(alloc, funs, value, rule, mode)
    }

    /// Sets an atom to the function of its value and the arguments: see [`World::swap`]. The caller delivers
    /// the notices of the answer to the watches.
    pub fn swap<R: Wait, F: Functions<M>>(
        &self,
        rt: &R,
        alloc: Global,
        funs: &F,
        share: &mut Share<L>,
        a: u32,
        code: u32,
        args: Args,
    ) -> Result<Swapped, AtomFault>
        ensures new { IfOk result (λ s. place M.means (Alter code args) s.old ≡ Ok s.new) }
        ensures notices { IfOk result (λ s. AreNotices (who.Atom a) s.old s.new s.notices.items) }
        ensures share { IfOk result (λ s. HasChanged M.means a (Alter code args) s.old s.new share.old share.new) }
        ensures learned { OnErr result (HasLearned M.means share.old share.new) }
    {
        let mut held = self.lock(rt);
        let booked = &mut held.booked;
        booked.inform(share);
        let swapped = booked.swap(alloc, funs, share, a, code, args);
        booked.inform(share);
        self.free_with_entry(held, swapped.is_ok());
        swapped
    }

    /// Sets an atom to a value regardless of the one that it has: see [`World::reset`]. The caller delivers the
    /// notices of the answer to the watches.
    pub fn reset<R: Wait, F: Functions<M>>(
        &self,
        rt: &R,
        alloc: Global,
        funs: &F,
        share: &mut Share<L>,
        a: u32,
        value: Value,
    ) -> Result<Swapped, AtomFault>
        ensures new { IfOk result (λ s. s.new ≡ value) }
        ensures notices { IfOk result (λ s. AreNotices (who.Atom a) s.old s.new s.notices.items) }
        ensures share { IfOk result (λ s. HasChanged M.means a (Set value) s.old value share.old share.new) }
        ensures learned { OnErr result (HasLearned M.means share.old share.new) }
    {
        let mut held = self.lock(rt);
        let booked = &mut held.booked;
        booked.inform(share);
        let swapped = booked.reset(alloc, funs, share, a, value);
        booked.inform(share);
        self.free_with_entry(held, swapped.is_ok());
        swapped
    }

    /// Sets an atom to a new value where it has the old one that is given: see [`World::compare_and_set`]. The caller
    /// delivers the notices of the answer to the watches.
    pub fn compare_and_set<R: Wait, F: Functions<M>>(
        &self,
        rt: &R,
        alloc: Global,
        funs: &F,
        share: &mut Share<L>,
        a: u32,
        old: &Value,
        new: Value,
    ) -> Result<Cas, AtomFault>
        ensures share { IfOk result (λ c. c.done ≡ true
            → HasChanged M.means a (Set new) old.now new share.old share.new) }
        ensures unshared { IfOk result (λ c. c.done ≡ false → HasLearned M.means share.old share.new) }
        ensures untold { IfOk result (λ c. c.done ≡ false → c.notices.items ≡ []) }
        ensures notices { IfOk result (λ c. c.done ≡ true → AreNotices (who.Atom a) old.now new c.notices.items) }
        ensures learned { OnErr result (HasLearned M.means share.old share.new) }
    {
        let mut held = self.lock(rt);
        let booked = &mut held.booked;
        booked.inform(share);
        let compared = booked.compare_and_set(alloc, funs, share, a, old, new);
        booked.inform(share);
        self.free_with_entry(held, matches!(&compared, Ok(Cas { done: true, .. })));
        compared
    }

    /// Sends an action to an agent, and wakes a thread that waits for an action to run: see [`World::send`].
    pub fn send<R: Wait>(&self, rt: &R, g: u32, action: Action) -> Result<(), SendFault> {
        let sent = self.lock(rt).booked.world.send(g, action);
        if sent.is_ok() {
            self.ready.notify_one();
        }
        sent
    }

    /// Restarts a failed agent, and wakes a thread that waits for an action to run: see [`World::restart`].
    pub fn restart<R: Wait, F: Functions<M>>(
        &self,
        rt: &R,
        funs: &F,
        g: u32,
        state: Value,
        clear: bool,
    ) -> Result<(), RestartFault> {
        let mut held = self.lock(rt);
        let queued = if clear {
            held.queued(g).unwrap_or(0)
        } else {
            0
        };
        let restarted = held.booked.world.restart(funs, g, state, clear);
        held.note_restart(g, queued, &restarted);
        drop(held);
        if restarted.is_ok() {
            self.ready.notify_one();
        }
        restarted
    }

    /// Sets what happens where an action of an agent fails: see [`World::set_error_mode`].
    pub fn set_error_mode<R: Wait>(
        &self,
        rt: &R,
        g: u32,
        mode: ErrorMode,
    ) -> Result<(), ModeFault> {
        self.lock(rt).booked.world.set_error_mode(g, mode)
    }

    /// The error of a failed agent: see [`World::error_of`].
    pub fn error_of<R: Wait>(&self, rt: &R, g: u32) -> Option<AgentError> {
        self.lock(rt).booked.world.error_of(g)
    }

    /// The base and the log as they are now: see [`World::view`]. The lock is held for a few steps, whatever the length of
    /// the log; the view is read with the lock free.
    pub fn view<R: Wait>(&self, rt: &R) -> Result<View<M>, AllocError> {
        self.lock(rt).booked.world.view()
    }

    /// Takes the world out of its books, with the totals of all its shares, which have to be joined again. It takes no lock and waits for
    /// nobody: it takes the whole shared world. The receipts are compared with the log by
    /// [`match_receipts`]; where they don't fit, or there is no memory to compare them, the world with its books and the share come back. Of entries that a
    /// checkpoint folded nothing is compared. A share that forgot receipts past the base ([`Share::forget`]) doesn't fit until a
    /// checkpoint has reached the point up to which it forgot.
    pub fn finish(
        self,
        alloc: Global,
        share: Share<L>,
    ) -> Result<(World<M>, Totals), (Booked<M, L>, Share<L>, GatherFault)>
        requires whole { share.parts ≡ all_parts }
        ensures totals { IfOk result (λ r. (r.1.commits ≡ share.commits) × (r.1.added ≡ share.added)
            × (r.1.taken ≡ share.taken)) }
        ensures books { IfOk result (λ r. (r.1.commits ≡ r.0.books.commits) × (r.1.added ≡ r.0.books.added)
            × (r.1.taken ≡ r.0.books.taken)) }
        ensures ok { IfOk result (λ r. ReceiptsMatch r.0.base.point r.0.log share.receipts
            × InOrder r.0.base.point r.0.log) }
        ensures fault { IfErr result (λ e. GatherFails e.0.world.base.point e.0.world.log share.receipts e.2) }
        ensures history { IfOk result (λ r. HasEnded M.means share.history r.0.base r.0.log) }
        ensures back { IfErr result (λ e. e.1 ≡ share) }
    {
        let Shared {
            held,
            ready: _,
            moved: _,
        } = self;
        let Held {
            mut booked,
            is_closed: _,
            waiters: _,
        } = held.into_inner();
        // What the share knows of the history begins it, and a world's points end at 2^62.
        booked.bounds(share.front());
        let point = booked.world.base().point;
        let _ = booked.world.point();
        let mut share = share;
        let totals = booked.totals(&mut share);
        match match_receipts(alloc, point, booked.world.log(), share.receipts()) {
            Ok(()) => Ok((booked.into_world(), totals)),
            Err(fault) => Err((booked, share, fault)),
        }
    }
}
