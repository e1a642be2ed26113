//! One event: the act of an actor on a world and on what the actors have.
ghost use Rattle.ref_play.specs.Runs.{AreHeld};
ghost use Rattle.ref_play.specs.Sims.{Serves, jobs_of};

use crate::actors::Actors;
use crate::changing::{checkpoint, commit, compare_and_set, make_atom, make_ref, reset, swap};
use crate::events::{Act, Event, Reply};
use crate::jobs::Jobs;
use crate::looking::{add_watch, error_of, remove_watch, rule_of, set_validator, value_of};
use crate::sending::{
    fold_agent, make_agent, release, release_carried, restart, send, set_error_mode,
};
use crate::transacting::{
    abort, alter, begin, commute, deref, ensure, read_point, ref_set, require, send_in_tx,
};
use crate::working::{finish, put_back, run, take};
use ref_fun::{Functions, Meaning};
use ref_world::{Booked, Books, Share};
use std::alloc::Global;

// One event.
pub(crate) fn serve<M: Meaning, L: Books, F: Functions<M>>(
    alloc: Global,
    funs: &F,
    booked: &mut Booked<M, L>,
    share: &mut Share<L>,
    actors: &mut Actors<M>,
    jobs: &mut Jobs<M>,
    event: &Event,
) -> Reply
    requires { AreHeld M.means booked.old.world.agents.agents (jobs_of jobs.old) }
    ensures { Serves M.means M.accepts (F.knows funs.now)
        (record { world = booked.old.world; share = share.old; slots = actors.old; jobs = jobs.old }) event.now.actor
        event.now.act result
        (record { world = booked.new.world; share = share.new; slots = actors.new; jobs = jobs.new }) }
{
    let actor = event.actor;
    match &event.act {
        Act::Begin => begin(alloc, &booked.world, actors, actor),
        Act::Deref(r) => deref(actors, actor, *r),
        Act::RefSet(r, value) => ref_set(alloc, actors, actor, *r, value),
        Act::Alter(r, code, args) => alter(alloc, funs, actors, actor, *r, *code, args),
        Act::Commute(r, code, args) => commute(alloc, funs, actors, actor, *r, *code, args),
        Act::Ensure(r) => ensure(alloc, actors, actor, *r),
        Act::SendInTx(g, action) => send_in_tx(alloc, funs, actors, actor, *g, action),
        Act::Require(r, rule) => require(funs, actors, actor, *r, rule),
        Act::ReadPoint => read_point(actors, actor),
        Act::Commit(stamp) => commit(alloc, funs, booked, share, actors, actor, *stamp),
        Act::Abort => abort(actors, actor),
        Act::Release(point) => release(&mut booked.world, *point),
        Act::ReleaseCarried(g) => release_carried(&mut booked.world, *g),
        Act::Swap(n, code, args) => swap(alloc, funs, booked, share, *n, *code, args),
        Act::Reset(n, value) => reset(alloc, funs, booked, share, *n, value),
        Act::CompareAndSet(n, old, new) => compare_and_set(
            alloc, funs, booked, share, *n, old, new,
        ),
        Act::Send(g, action) => send(&mut booked.world, *g, action),
        Act::Take => take(&mut booked.world, jobs, actor),
        Act::Run => run(alloc, funs, jobs, actor),
        Act::PutBack => put_back(&mut booked.world, jobs, actor),
        Act::Finish => finish(alloc, funs, &mut booked.world, jobs, actor),
        Act::Restart(g, state, clear) => restart(funs, &mut booked.world, *g, state, *clear),
        Act::SetErrorMode(g, mode) => set_error_mode(&mut booked.world, *g, *mode),
        Act::Fold(g) => fold_agent(&mut booked.world, *g),
        Act::SetValidator(who, rule) => set_validator(funs, &mut booked.world, *who, rule),
        Act::AddWatch(who, key) => add_watch(&mut booked.world, *who, key),
        Act::RemoveWatch(who, key) => remove_watch(&mut booked.world, *who, key),
        Act::MakeRef(value, rule, tally) => { make_ref(alloc, funs, booked, value, rule, *tally) }
        Act::MakeAtom(value, rule) => make_atom(alloc, funs, booked, value, rule),
        Act::MakeAgent(value, rule, mode) => make_agent(
            alloc,
            funs,
            &mut booked.world,
            value,
            rule,
            *mode,
        ),
        Act::Checkpoint(point) => checkpoint(alloc, funs, booked, *point),
        Act::ValueOf(who) => value_of(&booked.world, *who),
        Act::RuleOf(who) => rule_of(&booked.world, *who),
        Act::ErrorOf(g) => error_of(&booked.world, *g),
    }
}
