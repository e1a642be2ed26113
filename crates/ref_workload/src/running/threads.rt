//! A thread for each worker, and the pool.
ghost use Rattle.std.specs.Thread.{IsSend, IsSync};

use crate::faults::Stop;
use crate::running::workers::{Ended, Run, WorkerStart, serve, work};
use ref_audit::Refusal;
use ref_fun::{Core, Functions};
use ref_shared::Gate;
use ref_world::{Books, Share};
use std::alloc::Global;
use std::sync::Wait;
use std::thread;
use std::thread::{JoinHandle, Scope, Threads};

// How many of the 2^32 parts of a share each worker gets: 64 workers leave some.
const WORKER_PARTS: u64 = 16_777_216;

/// Starts a thread for each worker and the pool, joins the workers, closes the shared world, and joins the pool. It answers the
/// refused steps, by worker, then step. Where a thread can't be made, those that were started run to their end. What the
/// workers had of the share comes back.
pub(crate) fn run_threads<F, L, R, G>(
    rt: &R,
    run: &Run<'_, F, L>,
    share: &mut Share<L>,
    gates: Vec<G>,
) -> Result<Vec<Refusal>, Stop>
where
    F: Functions<Core> + Sync,
    L: Books + Send + Sync,
    R: Threads + Wait + Sync,
    G: Gate + Send + Drop,
{
    let alloc = run.alloc;
    // What the threads begin with, and the room for their handles, is there before the first of them is made.
    let (starts, rest) = make_starts(alloc, run.workers.len(), share, gates)?;
    let mut workers = Vec::with_capacity(alloc, starts.len())?;
    let mut pool = Vec::with_capacity(alloc, rest.len())?;
    let mut refused = Vec::new(alloc);
    let ended = thread::scope(
        thread::scope_env(),
        rt,
        |scope| -> Result<(), Stop>
            requires { IsSync F.row × IsSend L.row × IsSend G.row }
        {
            let mut started = start_pool(scope, rt, run, rest, &mut pool);
            if started.is_ok() {
                started = start_workers(scope, rt, run, starts, &mut workers);
            }
            let worked = join_workers(rt, share, &mut refused, workers);
            run.shared.close(rt);
            let served = join_pool(rt, pool);
            started.and(worked).and(served)
        },
    );
    ended?;
    Ok(refused)
}

// What the workers are started with, a gate each, and the gates that are left, which are the pool's.
fn make_starts<L: Books, G: Drop>(
    alloc: Global,
    workers: usize,
    share: &mut Share<L>,
    gates: Vec<G>,
) -> Result<(Vec<WorkerStart<L, G>>, Vec<G>), Stop> {
    let mut starts = Vec::with_capacity(alloc, workers)?;
    let mut rest = Vec::with_capacity(alloc, gates.len())?;
    let mut worker = 0u32;
    for gate in gates {
        if starts.len() < workers {
            add_start(&mut starts, share, worker, gate)?;
            worker = worker.saturating_add(1);
        } else if rest.push(gate).is_err() {
            return Err(Stop::Memory);
        }
    }
    Ok((starts, rest))
}

fn add_start<L: Books, G: Drop>(
    starts: &mut Vec<WorkerStart<L, G>>,
    share: &mut Share<L>,
    worker: u32,
    gate: G,
) -> Result<(), Stop> {
    let Some(part) = share.split(WORKER_PARTS) else {
        return Err(Stop::Internal);
    };
    let start = WorkerStart {
        worker,
        share: part,
        gate,
    };
    match starts.push(start) {
        Ok(()) => Ok(()),
        Err(_) => Err(Stop::Memory),
    }
}

// Starts the pool's threads. One that can't be made ends it, and leaves those that were started.
fn start_pool<'s, E, F, L, R, G>(
    scope: &Scope<'s, E>,
    rt: &'s R,
    run: &'s Run<'s, F, L>,
    gates: Vec<G>,
    pool: &mut Vec<JoinHandle<Result<(), Stop>>>,
) -> Result<(), Stop>
where
    F: Functions<Core> + Sync + 's,
    L: Books + Send + Sync + 's,
    R: Wait + Sync + 's,
    G: Gate + Send + Drop + 's,
{
    for gate in gates {
        let Ok(handle) = scope.spawn(move || serve(rt, run, gate)) else {
            return Err(Stop::Memory);
        };
        if pool.push(handle).is_err() {
            return Err(Stop::Memory);
        }
    }
    Ok(())
}

// Starts a thread for each. One that can't be made ends it, and leaves those that were started.
fn start_workers<'s, E, F, L, R, G>(
    scope: &Scope<'s, E>,
    rt: &'s R,
    run: &'s Run<'s, F, L>,
    starts: Vec<WorkerStart<L, G>>,
    workers: &mut Vec<JoinHandle<Ended<L>>>,
) -> Result<(), Stop>
where
    F: Functions<Core> + Sync + 's,
    L: Books + Send + Sync + 's,
    R: Wait + Sync + 's,
    G: Gate + Send + Drop + 's,
{
    for start in starts {
        let Ok(handle) = scope.spawn(move || work(rt, run, start)) else {
            return Err(Stop::Memory);
        };
        if workers.push(handle).is_err() {
            return Err(Stop::Memory);
        }
    }
    Ok(())
}

// Waits for each worker, by number, and returns the first that ended early.
fn join_workers<L: Books, R: Threads>(
    rt: &R,
    share: &mut Share<L>,
    refused: &mut Vec<Refusal>,
    workers: Vec<JoinHandle<Ended<L>>>,
) -> Result<(), Stop> {
    let mut ended = Ok(());
    for handle in workers {
        ended = ended.and(gather(share, refused, handle.join(rt)));
    }
    ended
}

// Takes in what a worker returns.
fn gather<L: Books>(
    share: &mut Share<L>,
    refused: &mut Vec<Refusal>,
    worker: Ended<L>,
) -> Result<(), Stop> {
    let Ended {
        share: part,
        refused: mut more,
        stop,
    } = worker;
    let joined = share.join(part).is_ok();
    let told = refused.append(&mut more).is_ok();
    match stop {
        Some(stop) => Err(stop),
        None if joined && told => Ok(()),
        None => Err(Stop::Memory),
    }
}

// Waits for each thread of the pool, and returns the first fault.
fn join_pool<R: Threads>(rt: &R, pool: Vec<JoinHandle<Result<(), Stop>>>) -> Result<(), Stop> {
    let mut ended = Ok(());
    for handle in pool {
        ended = ended.and(handle.join(rt));
    }
    ended
}
