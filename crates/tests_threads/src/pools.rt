//! What runs actions in these tests: until the end, or three times.
use crate::flags::Flags;
use ref_fun::{Core, CoreFunctions};
use ref_shared::{Open, Quiet, Shared, Worked};
use ref_world::Books;
use std::alloc::Global;
use std::sync::Wait;
use std::sync::atomic::Ordering;
use std::thread;
use std::thread::Threads;
use tests_shared::jobs::{Work, work};
use tests_shared::worlds::{Stop, done};

/// Runs actions until the shared world is closed and no agent is ready, and returns how many.
pub fn pool<R: Wait, L: Books>(
    rt: &R,
    alloc: Global,
    shared: &Shared<Core, L>,
) -> Result<u32, Stop> {
    for did in 0..1_000u32 {
        match done(shared.work_once(rt, alloc, &CoreFunctions, &mut Open, &mut Quiet))? {
            Worked::Did(_) => {}
            Worked::Closed => return Ok(did),
        }
    }
    Err(Stop::Late)
}

/// Two threads run actions, as [`pool`] does; it returns how many.
pub fn two_pools<L: Books + Send + Sync, R: Threads + Wait + Sync>(
    rt: &R,
    alloc: Global,
    shared: &Shared<Core, L>,
) -> Result<u32, Stop> {
    let (one, two) = thread::join(
        rt,
        move || pool(rt, alloc, shared),
        move || pool(rt, alloc, shared),
    );
    Ok(one?.saturating_add(two?))
}

/// Works three times, and says before each that it comes, and when it has ended.
pub fn work_thrice<R: Wait, L: Books>(
    rt: &R,
    alloc: Global,
    shared: &Shared<Core, L>,
    flags: &Flags,
) -> (Work, Work, Work) {
    flags.first.store(true, Ordering::SeqCst);
    let one = work(rt, alloc, shared);
    flags.second.store(true, Ordering::SeqCst);
    let two = work(rt, alloc, shared);
    flags.third.store(true, Ordering::SeqCst);
    let three = work(rt, alloc, shared);
    flags.fourth.store(true, Ordering::SeqCst);
    (one, two, three)
}
