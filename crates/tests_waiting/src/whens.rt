//! A transaction that waits is woken by each entry of another thread, and at the end.
use crate::cases::{Case, check};
use crate::same::same;
use ref_fun::codes::PLUS;
use ref_fun::{Core, CoreFunctions};
use ref_log::{Stamp, Who};
use ref_shared::{Open, Quiet, Shared, WaitFault};
use ref_tx::Tx;
use ref_world::{Books, Front, Share};
use std::alloc::Global;
use std::process::Abort;
use std::sync::Wait;
use std::sync::atomic::Ordering;
use std::test::Fail;
use std::thread;
use std::thread::Threads;
use std::time::Clock;
use tests_shared::scenarios::Commits;
use tests_shared::steps::commit_set;
use tests_shared::worlds::{STAMP, Stop, add, done, int_at, one_arg, value};
use tests_threads::flags::Flags;
use tests_threads::waits::{wait_for, wait_past};

const OTHER: Stamp = Stamp { worker: 1, step: 0 };

// ---- By each kind of entry

// Adds 1 to a, if there is an entry. Else it says that it isn't ready.
fn add_behind(alloc: Global, tx: &mut Tx<Core>, flags: &Flags) -> Result<Option<()>, Stop> {
    if tx.read_point() == 0 {
        flags.first.store(true, Ordering::SeqCst);
        return Ok(None);
    }
    add(alloc, tx, 0, "1")?;
    Ok(Some(()))
}

// What came of a transaction that waits.
#[derive(Clone, Copy, Debug, Drop, PartialEq)]
struct Added {
    point: Result<u64, Stop>,
    // How many times the body was called.
    bodies: u32,
}

// Adds 1 to a in a transaction that waits for an entry, and says when it has returned.
fn add_when<R: AllocGlobal + Wait, L: Books>(
    rt: &R,
    shared: &Shared<Core, L>,
    mut share: Share<L>,
    flags: &Flags,
) -> (Share<L>, Added) {
    let (alloc, funs, gate, sink) = (rt.alloc(), &CoreFunctions, &mut Open, &mut Quiet);
    let mut bodies = 0u32;
    let body = |tx: &mut Tx<Core>| {
        bodies = bodies.saturating_add(1);
        add_behind(alloc, tx, flags)
    };
    let lent = &mut share;
    let committed = shared.transact_when(rt, alloc, funs, lent, STAMP, 1, gate, sink, body);
    flags.second.store(true, Ordering::SeqCst);
    let point = match committed {
        Ok((_, receipt)) => Ok(receipt.point),
        Err(_) => Err(Stop::Refused),
    };
    (share, Added { point, bodies })
}

// What makes an entry.
#[derive(Clone, Copy, Debug, Drop)]
pub(crate) enum Kind {
    Commit,
    Swap,
    Reset,
    CompareAndSet,
    MakeRef,
    MakeAtom,
}

fn make_ref<R: Wait, L: Books>(
    rt: &R,
    alloc: Global,
    shared: &Shared<Core, L>,
    front: &Front<L>,
) -> Result<(), Stop> {
    let (new, mut front) = (value(alloc, "7")?, front.again());
    done(shared.make_ref(rt, alloc, &CoreFunctions, &mut front, new, None, false)).map(drop)
}

pub(crate) fn make_atom<R: Wait, L: Books>(
    rt: &R,
    alloc: Global,
    shared: &Shared<Core, L>,
    front: &Front<L>,
) -> Result<(), Stop> {
    let (new, mut front) = (value(alloc, "7")?, front.again());
    done(shared.make_atom(rt, alloc, &CoreFunctions, &mut front, new, None)).map(drop)
}

fn enter<R: Wait, L: Books>(
    rt: &R,
    alloc: Global,
    shared: &Shared<Core, L>,
    share: &mut Share<L>,
    kind: Kind,
) -> Result<(), Stop> {
    match kind {
        Kind::Commit => commit_set(rt, alloc, shared, share, OTHER, "10").map(drop),
        Kind::Swap => {
            let one = one_arg(alloc, "1")?;
            done(shared.swap(rt, alloc, &CoreFunctions, share, 0, PLUS, one)).map(drop)
        }
        Kind::Reset => {
            let new = value(alloc, "7")?;
            done(shared.reset(rt, alloc, &CoreFunctions, share, 0, new)).map(drop)
        }
        Kind::CompareAndSet => {
            let (old, new) = (value(alloc, "0")?, value(alloc, "7")?);
            let set = shared.compare_and_set(rt, alloc, &CoreFunctions, share, 0, &old, new);
            done(set).map(drop)
        }
        Kind::MakeRef => make_ref(rt, alloc, shared, share.front()),
        Kind::MakeAtom => make_atom(rt, alloc, shared, share.front()),
    }
}

// Wakes all who wait for an entry, so that a test ends which has failed.
pub(crate) fn nudge<R: Wait, L: Books>(
    rt: &R,
    alloc: Global,
    shared: &Shared<Core, L>,
    front: &Front<L>,
) {
    let _ = make_ref(rt, alloc, shared, front);
    let _ = make_atom(rt, alloc, shared, front);
}

// Makes an entry while the other waits. It returns the share, and whether the other was woken in time.
fn enter_and_wake<R: AllocGlobal + Wait + Clock, L: Books>(
    rt: &R,
    shared: &Shared<Core, L>,
    mut share: Share<L>,
    kind: Kind,
    flags: &Flags,
) -> (Share<L>, bool) {
    let was_there = wait_past(rt, &flags.first);
    let entered = enter(rt, rt.alloc(), shared, &mut share, kind);
    let woke = wait_for(rt, &flags.second);
    shared.close(rt);
    if !woke {
        nudge(rt, rt.alloc(), shared, share.front());
    }
    (share, was_there && woke && entered.is_ok())
}

fn add_and_enter<L: Books + Send + Sync, R: AllocGlobal + Threads + Wait + Clock + Sync>(
    rt: &R,
    shared: &Shared<Core, L>,
    share: Share<L>,
    other: Share<L>,
    kind: Kind,
) -> ((Share<L>, Added), (Share<L>, bool)) {
    let flags = Flags::new();
    let lent = &flags;
    let (mine, theirs) = thread::join(
        rt,
        move || add_when(rt, shared, share, lent),
        move || enter_and_wake(rt, shared, other, kind, lent),
    );
    (mine, theirs)
}

// The body isn't ready at the first call, and its second one is committed behind the entry.
pub(crate) fn see_entry<
    L: Books + Send + Sync,
    R: AllocGlobal + Threads + Wait + Clock + Abort + Sync,
>(
    rt: &R,
    shared: &Shared<Core, L>,
    share: &mut Share<L>,
    kind: Kind,
    value: i64,
) -> Result<(), Stop> {
    let part = share.split(1).ok_or(Stop::Refused)?;
    let other = share.split(1).ok_or(Stop::Refused)?;
    let (mine, theirs) = add_and_enter(rt, shared, part, other, kind);
    let (part, added) = mine;
    let (other, woke) = theirs;
    done(share.join(part))?;
    done(share.join(other))?;
    let wanted = Added {
        point: Ok(2),
        bodies: 2,
    };
    same(rt, (added, woke), (wanted, true));
    same(
        rt,
        int_at(rt, shared, share.front(), Who::Ref(0)),
        Some(value),
    );
    Ok(())
}

// What makes the entry, what a holds in the end, and whether the entry is a commit.
const KINDS: &[(Kind, i64, bool)] = &[
    (Kind::Commit, 11, true),
    (Kind::Swap, 1, false),
    (Kind::Reset, 1, false),
    (Kind::CompareAndSet, 1, false),
    (Kind::MakeRef, 1, false),
    (Kind::MakeAtom, 1, false),
];

// The commits then.
pub(crate) fn wanted_of(alloc: Global, is_commit: bool) -> Result<Commits, Stop> {
    let mut log: Vec<(Stamp, u64)> = Vec::new(alloc);
    if is_commit {
        log.push((OTHER, 0))?;
    }
    log.push((STAMP, 1))?;
    let commits = log.len() as u64;
    Ok(Commits { log, commits })
}

#[test]
fn each_entry_wakes_a_transaction_that_waits(rt: HostRuntime) -> Result<(), Fail> {
    for (kind, value, is_commit) in KINDS {
        check(&rt, Case::Entry(*kind, *value, *is_commit))?;
    }
    Ok(())
}

// ---- At the end

// Waits in a transaction that is never ready, once the other is there. It says before that it comes, and when it has returned; and
// returns how many times the body was called, if it ended since the shared world was closed.
pub(crate) fn wait_in_vain<R: AllocGlobal + Wait + Clock, L: Books>(
    rt: &R,
    shared: &Shared<Core, L>,
    mut share: Share<L>,
    flags: &Flags,
) -> Option<u32> {
    let _ = wait_for(rt, &flags.first);
    let (alloc, funs, gate, sink) = (rt.alloc(), &CoreFunctions, &mut Open, &mut Quiet);
    let mut bodies = 0u32;
    let body = |_tx: &mut Tx<Core>| -> Result<Option<()>, Stop> {
        bodies = bodies.saturating_add(1);
        flags.second.store(true, Ordering::SeqCst);
        Ok(None)
    };
    let lent = &mut share;
    let waited = shared.transact_when(rt, alloc, funs, lent, STAMP, 1, gate, sink, body);
    flags.third.store(true, Ordering::SeqCst);
    match waited {
        Err(WaitFault::Closed) => Some(bodies),
        _ => None,
    }
}

// Closes while the other waits, and returns whether that one returned then, and not before.
fn close_on<R: AllocGlobal + Wait + Clock, L: Books>(
    rt: &R,
    shared: &Shared<Core, L>,
    front: &Front<L>,
    flags: &Flags,
) -> bool {
    flags.first.store(true, Ordering::SeqCst);
    let was_there = wait_past(rt, &flags.second);
    let early = flags.third.load(Ordering::SeqCst);
    shared.close(rt);
    let woke = wait_for(rt, &flags.third);
    if !woke {
        nudge(rt, rt.alloc(), shared, front);
    }
    was_there && woke && !early
}

fn wait_and_close<L: Books + Send + Sync, R: AllocGlobal + Threads + Wait + Clock + Sync>(
    rt: &R,
    shared: &Shared<Core, L>,
    share: Share<L>,
) -> (Option<u32>, bool) {
    let (flags, front) = (Flags::new(), share.front().again());
    let (lent, known) = (&flags, &front);
    let (bodies, woke) = thread::join(
        rt,
        move || wait_in_vain(rt, shared, share, lent),
        move || close_on(rt, shared, known, lent),
    );
    (bodies, woke)
}

pub(crate) fn see_end<
    L: Books + Send + Sync,
    R: AllocGlobal + Threads + Wait + Clock + Abort + Sync,
>(rt: &R, shared: &Shared<Core, L>, share: &mut Share<L>) -> Result<(), Stop> {
    let part = share.split(1).ok_or(Stop::Refused)?;
    same(rt, wait_and_close(rt, shared, part), (Some(1), true));
    Ok(())
}

#[test]
fn closing_wakes_a_transaction_that_waits(rt: HostRuntime) -> Result<(), Fail> {
    check(&rt, Case::End)
}
