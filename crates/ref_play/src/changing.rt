//! Acts that add an entry: commits, changes of atoms, and makings; and the one that folds entries.
ghost use Rattle.std.specs.Prelude.{ℕ};
ghost use Rattle.ref_play.specs.Sims.{Serves, SimSeen};
ghost use Rattle.ref_play.specs.declared.events.Act.TheVariants as acts;

use crate::actors::Actors;
use crate::events::Reply;
use ref_atoms::AtomFault;
use ref_fun::{Args, Functions, Meaning, Rule, share_rule};
use ref_log::{MakeFault, Stamp};
use ref_value::Value;
use ref_world::{Booked, Books, Share};
use std::alloc::Global;

// Commits the actor's transaction. A refused commit leaves it with the actor.
pub(crate) fn commit<M: Meaning, L: Books, F: Functions<M>>(
    alloc: Global,
    funs: &F,
    booked: &mut Booked<M, L>,
    share: &mut Share<L>,
    actors: &mut Actors<M>,
    actor: u32,
    stamp: Stamp,
) -> Reply
    ensures { (s : SimSeen) → Serves M.means M.accepts (F.knows funs.now)
        (record s { world = booked.old.world; share = share.old; slots = actors.old }) actor (acts.Commit stamp) result
        (record s { world = booked.new.world; share = share.new; slots = actors.new }) }
{
    let Some(tx) = actors.take(actor) else {
        return Reply::NoTx;
    };
    match booked.commit_with(alloc, funs, share, stamp, tx) {
        Ok(receipt) => {
            // each ref has a last change
            let _ = booked.world.ref_count();
            Reply::Commit(Ok(receipt))
        }
        Err((tx, fault)) => {
            actors.put(actor, tx);
            Reply::Commit(Err(fault))
        }
    }
}

// Sets an atom to what a function makes of it.
pub(crate) fn swap<M: Meaning, L: Books, F: Functions<M>>(
    alloc: Global,
    funs: &F,
    booked: &mut Booked<M, L>,
    share: &mut Share<L>,
    n: u32,
    code: u32,
    args: &Args,
) -> Reply
    ensures { (s : SimSeen) (actor : ℕ) → Serves M.means M.accepts (F.knows funs.now)
        (record s { world = booked.old.world; share = share.old }) actor (acts.Swap n code args.now) result
        (record s { world = booked.new.world; share = share.new }) }
{
    let Ok(args) = args.share() else {
        return Reply::Swap(Err(AtomFault::Memory));
    };
    match booked.swap(alloc, funs, share, n, code, args) {
        Ok(swapped) => Reply::Swap(Ok(swapped)),
        Err(fault) => Reply::Swap(Err(fault)),
    }
}

// Sets an atom.
pub(crate) fn reset<M: Meaning, L: Books, F: Functions<M>>(
    alloc: Global,
    funs: &F,
    booked: &mut Booked<M, L>,
    share: &mut Share<L>,
    n: u32,
    value: &Value,
) -> Reply
    ensures { (s : SimSeen) (actor : ℕ) → Serves M.means M.accepts (F.knows funs.now)
        (record s { world = booked.old.world; share = share.old }) actor (acts.Reset n value.now) result
        (record s { world = booked.new.world; share = share.new }) }
{
    let Ok(value) = value.share() else {
        return Reply::Reset(Err(AtomFault::Memory));
    };
    match booked.reset(alloc, funs, share, n, value) {
        Ok(swapped) => Reply::Reset(Ok(swapped)),
        Err(fault) => Reply::Reset(Err(fault)),
    }
}

// Sets an atom where it has this value.
pub(crate) fn compare_and_set<M: Meaning, L: Books, F: Functions<M>>(
    alloc: Global,
    funs: &F,
    booked: &mut Booked<M, L>,
    share: &mut Share<L>,
    n: u32,
    old: &Value,
    new: &Value,
) -> Reply
    ensures { (s : SimSeen) (actor : ℕ) → Serves M.means M.accepts (F.knows funs.now)
        (record s { world = booked.old.world; share = share.old }) actor (acts.CompareAndSet n old.now new.now) result
        (record s { world = booked.new.world; share = share.new }) }
{
    let Ok(new) = new.share() else {
        return Reply::CompareAndSet(Err(AtomFault::Memory));
    };
    match booked.compare_and_set(alloc, funs, share, n, old, new) {
        Ok(compared) => Reply::CompareAndSet(Ok(compared)),
        Err(fault) => Reply::CompareAndSet(Err(fault)),
    }
}

// Makes a ref.
pub(crate) fn make_ref<M: Meaning, L: Books, F: Functions<M>>(
    alloc: Global,
    funs: &F,
    booked: &mut Booked<M, L>,
    value: &Value,
    rule: &Option<Rule>,
    tally: bool,
) -> Reply
    ensures serves { (s : SimSeen) (actor : ℕ) → Serves M.means M.accepts (F.knows funs.now) (record s { world = booked.old.world })
        actor (acts.MakeRef value.now rule.now tally) result
        (record s { world = booked.new.world }) }
{
    let Ok(value) = value.share() else {
        return Reply::MakeRef(Err(MakeFault::Memory));
    };
    let Ok(rule) = share_rule(rule) else {
        return Reply::MakeRef(Err(MakeFault::Memory));
    };
    match booked.make_ref(alloc, funs, value, rule, tally) {
        Ok(r) => Reply::MakeRef(Ok(r)),
        Err(fault) => Reply::MakeRef(Err(fault)),
    }
}

// Makes an atom.
pub(crate) fn make_atom<M: Meaning, L: Books, F: Functions<M>>(
    alloc: Global,
    funs: &F,
    booked: &mut Booked<M, L>,
    value: &Value,
    rule: &Option<Rule>,
) -> Reply
    ensures serves { (s : SimSeen) (actor : ℕ) → Serves M.means M.accepts (F.knows funs.now) (record s { world = booked.old.world })
        actor (acts.MakeAtom value.now rule.now) result
        (record s { world = booked.new.world }) }
{
    let Ok(value) = value.share() else {
        return Reply::MakeAtom(Err(MakeFault::Memory));
    };
    let Ok(rule) = share_rule(rule) else {
        return Reply::MakeAtom(Err(MakeFault::Memory));
    };
    match booked.make_atom(alloc, funs, value, rule) {
        Ok(n) => Reply::MakeAtom(Ok(n)),
        Err(fault) => Reply::MakeAtom(Err(fault)),
    }
}

// Folds the entries up to a point into the base.
pub(crate) fn checkpoint<M: Meaning, L: Books, F: Functions<M>>(
    alloc: Global,
    funs: &F,
    booked: &mut Booked<M, L>,
    point: u64,
) -> Reply
    ensures serves { (s : SimSeen) (actor : ℕ) → Serves M.means M.accepts (F.knows funs.now) (record s { world = booked.old.world })
        actor (acts.Checkpoint point) result
        (record s { world = booked.new.world }) }
{
    match booked.checkpoint(alloc, funs, point) {
        Ok(count) => Reply::Checkpoint(Ok(count)),
        Err(fault) => Reply::Checkpoint(Err(fault)),
    }
}
