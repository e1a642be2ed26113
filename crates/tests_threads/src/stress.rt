//! Four threads that change everything, and two that run actions.
use crate::cases::{Case, check};
use crate::pools::two_pools;
use crate::same::same;
use ref_fun::codes::{MINUS, PLUS};
use ref_fun::{Action, Carries, Core, CoreFunctions};
use ref_log::{Stamp, Who};
use ref_shared::{Open, Quiet, Shared};
use ref_tx::Tx;
use ref_world::{Books, RefStart, Share, Start, Totals, World};
use std::alloc::{AllocError, Global};
use std::process::Abort;
use std::sync::Wait;
use std::test::Fail;
use std::thread;
use std::thread::Threads;
use std::time::Clock;
use tests_shared::numbers::int_of;
use tests_shared::worlds::{Stop, action, add, agent, carry, done, one_arg, plain_start, value};

/// So few that any two transactions have one in common.
const FEW: u32 = 3;

/// As many as a worker has rounds, each of which begins at another one.
const MANY: u32 = 50;

// So many refs, then the tally, an atom and two agents, which are all 0.
pub(crate) fn start(alloc: Global, refs: u32) -> Result<Start, AllocError> {
    let mut start = plain_start(alloc, "", "0")?;
    for r in 0..refs.saturating_add(1) {
        start.refs.push(RefStart {
            value: value(alloc, "0")?,
            rule: None,
            tally: r == refs,
        })?;
    }
    for _ in 0..2u32 {
        start.agents.push(agent(value(alloc, "0")?, None))?;
    }
    Ok(start)
}

// The ref on turn, of so many.
fn on_turn(n: u32, refs: u32) -> u32 {
    if refs == 0 { 0 } else { n % refs }
}

// `+ 1`, which carries `+ 1` to an agent.
fn carrying(alloc: Global, to: u32) -> Result<Action, Stop> {
    let mut action = action(alloc, PLUS, "1")?;
    action.carries = Carries::of(alloc, vec![in alloc; carry(alloc, to, "1")?]?)?;
    Ok(action)
}

// Adds 1 to two of the refs and to the tally, which comes after them, and sends `+ 1` to an agent, which sends it on to the other.
fn change(alloc: Global, tx: &mut Tx<Core>, n: u32) -> Result<(), Stop> {
    let refs = u32::try_from(tx.began().len().saturating_sub(1)).unwrap_or(0);
    add(alloc, tx, on_turn(n, refs), "1")?;
    add(alloc, tx, on_turn(n.saturating_add(1), refs), "1")?;
    let _ = done(tx.commute(alloc, &CoreFunctions, refs, PLUS, one_arg(alloc, "3")?))?;
    let _ = done(tx.commute(alloc, &CoreFunctions, refs, MINUS, one_arg(alloc, "2")?))?;
    let to = n % 2;
    done(tx.send(alloc, &CoreFunctions, to, carrying(alloc, 1 - to)?))
}

// Fifty rounds of a transaction and a change of the atom. It answers the share, and whether none was refused.
fn fifty<R: Wait, L: Books>(
    rt: &R,
    alloc: Global,
    shared: &Shared<Core, L>,
    mut share: Share<L>,
    worker: u32,
) -> (Share<L>, Result<(), Stop>) {
    for step in 0..50u32 {
        if let Err(stop) = round(rt, alloc, shared, &mut share, Stamp { worker, step }) {
            return (share, Err(stop));
        }
    }
    (share, Ok(()))
}

fn round<R: Wait, L: Books>(
    rt: &R,
    alloc: Global,
    shared: &Shared<Core, L>,
    share: &mut Share<L>,
    stamp: Stamp,
) -> Result<(), Stop> {
    let n = stamp.worker.saturating_add(stamp.step);
    let (funs, gate, sink) = (&CoreFunctions, &mut Open, &mut Quiet);
    let body = |tx: &mut Tx<Core>| change(alloc, tx, n);
    let _ = done(shared.transact(rt, alloc, funs, share, stamp, 10_000, gate, sink, body))?;
    let one = one_arg(alloc, "1")?;
    let _ = done(shared.swap(rt, alloc, funs, share, 0, PLUS, one))?;
    Ok(())
}

// Two threads' rounds, each with a part of the share. It answers the parts joined, and whether none was refused.
fn two_by_fifty<L: Books + Send + Sync, R: Threads + Wait + Sync>(
    rt: &R,
    alloc: Global,
    shared: &Shared<Core, L>,
    mut share: Share<L>,
    worker: u32,
) -> (Share<L>, Result<(), Stop>) {
    let Some(other) = share.split(1) else {
        return (share, Err(Stop::Refused));
    };
    let next = worker.saturating_add(1);
    let (mine, theirs) = thread::join(
        rt,
        move || fifty(rt, alloc, shared, share, worker),
        move || fifty(rt, alloc, shared, other, next),
    );
    together(mine, theirs)
}

// Two shares joined, and what came of both.
fn together<L: Books>(
    mine: (Share<L>, Result<(), Stop>),
    theirs: (Share<L>, Result<(), Stop>),
) -> (Share<L>, Result<(), Stop>) {
    let (mut share, mine) = mine;
    let (other, theirs) = theirs;
    let joined = match share.join(other) {
        Ok(()) => mine.and(theirs),
        Err(_) => Err(Stop::Memory),
    };
    (share, joined)
}

// Four threads' rounds; then the shared world is closed.
fn four_by_fifty<L: Books + Send + Sync, R: Threads + Wait + Sync>(
    rt: &R,
    alloc: Global,
    shared: &Shared<Core, L>,
    mut share: Share<L>,
) -> (Share<L>, Result<(), Stop>) {
    let Some(other) = share.split(2) else {
        return (share, Err(Stop::Refused));
    };
    let (mine, theirs) = thread::join(
        rt,
        move || two_by_fifty(rt, alloc, shared, share, 0),
        move || two_by_fifty(rt, alloc, shared, other, 2),
    );
    shared.close(rt);
    together(mine, theirs)
}

fn held(world: &World<Core>, who: Who) -> Option<i64> {
    int_of(world.value_of(who)?)
}

// What so many refs come to.
fn sum_of(world: &World<Core>, refs: u32) -> i64 {
    let mut sum = 0i64;
    for r in 0..refs {
        sum = sum.saturating_add(held(world, Who::Ref(r)).unwrap_or(0));
    }
    sum
}

// Two threads that run actions, and four threads' rounds with what can be split off the share.
pub(crate) fn see<L: Books + Send + Sync, R: AllocGlobal + Threads + Wait + Clock + Abort + Sync>(
    rt: &R,
    shared: &Shared<Core, L>,
    share: &mut Share<L>,
) -> Result<(), Stop> {
    let (alloc, part) = (rt.alloc(), share.split(4).ok_or(Stop::Refused)?);
    let (actions, all) = thread::join(
        rt,
        move || two_pools(rt, alloc, shared),
        move || four_by_fifty(rt, alloc, shared, part),
    );
    let (part, went) = all;
    done(share.join(part))?;
    same(rt, (actions, went), (Ok(400), Ok(())));
    same(rt, share.receipts().len(), 400);
    Ok(())
}

// What six threads come to, on however many refs: these together, the tally, the atom, the agents, and that no action waits.
pub(crate) fn look_at<R: AllocGlobal + Abort>(
    rt: &R,
    world: &World<Core>,
    totals: Totals,
    refs: u32,
) -> Result<(), Stop> {
    let counted = (held(world, Who::Ref(refs)), held(world, Who::Atom(0)));
    let agents = (held(world, Who::Agent(0)), held(world, Who::Agent(1)));
    let all = (totals.commits, totals.added, totals.taken);
    same(rt, sum_of(world, refs), 400);
    same(
        rt,
        (counted, agents),
        ((Some(200), Some(200)), (Some(200), Some(200))),
    );
    for g in [0, 1] {
        same(
            rt,
            world.account(g).map(|account| account.waiting()),
            Some(0),
        );
    }
    same(rt, all, (200, 600, 400));
    Ok(())
}

#[test]
fn the_sums_of_six_threads_are_right(rt: HostRuntime) -> Result<(), Fail> {
    check(&rt, Case::Sums(FEW))?;
    check(&rt, Case::Sums(MANY))
}
