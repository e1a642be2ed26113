//! What the threads of a run are lent, what they are started with, and what they return.
use crate::faults::Stop;
use crate::progress::Progress;
use crate::running::steps::run_step;
use ref_audit::Refusal;
use ref_fun::{Core, Functions};
use ref_log::{SharedVec, Stamp};
use ref_plan::Step;
use ref_shared::{Gate, Quiet, Shared, WorkFault, Worked};
use ref_world::{Books, Share};
use std::alloc::Global;
use std::sync::Wait;

/// What all threads of a run are lent: the shared world, a table, the steps of each worker, how often a transaction is tried, and
/// where they count how far they are.
#[derive(Drop)]
pub(crate) struct Run<'a, F: Functions<Core>, L: Books> {
    pub(crate) alloc: Global,
    pub(crate) funs: &'a F,
    pub(crate) shared: Shared<Core, L>,
    pub(crate) workers: &'a [SharedVec<Step>],
    pub(crate) tries: u32,
    pub(crate) progress: &'a Progress,
}

/// What a worker is started with.
#[derive(Drop)]
pub(crate) struct WorkerStart<L: Books, G> {
    pub(crate) worker: u32,
    pub(crate) share: Share<L>,
    pub(crate) gate: G,
}

/// What a worker returns: its share, its refused steps in order, and what ended it early.
#[derive(Drop)]
pub(crate) struct Ended<L: Books> {
    pub(crate) share: Share<L>,
    pub(crate) refused: Vec<Refusal>,
    pub(crate) stop: Option<Stop>,
}

/// Runs a worker's steps in order, up to the first that ends the run.
pub(crate) fn work<F: Functions<Core>, L: Books, R: Wait, G: Gate + Drop>(
    rt: &R,
    run: &Run<'_, F, L>,
    start: WorkerStart<L, G>,
) -> Ended<L> {
    let WorkerStart {
        worker,
        mut share,
        mut gate,
    } = start;
    let mut refused = Vec::new(run.alloc);
    let ran = run_steps(rt, run, worker, &mut share, &mut gate, &mut refused);
    Ended {
        share,
        refused,
        stop: ran.err(),
    }
}

fn run_steps<F: Functions<Core>, L: Books, R: Wait, G: Gate>(
    rt: &R,
    run: &Run<'_, F, L>,
    worker: u32,
    share: &mut Share<L>,
    gate: &mut G,
    refused: &mut Vec<Refusal>,
) -> Result<(), Stop> {
    let Some(steps) = run.workers.get(worker as usize) else {
        return Err(Stop::Internal);
    };
    for (at, step) in steps.as_slice().iter().enumerate() {
        let Ok(at) = u32::try_from(at) else {
            return Err(Stop::Internal);
        };
        let stamp = Stamp { worker, step: at };
        let refusal = run_step(rt, run, share, gate, stamp, step)?;
        run.progress
            .end_step(matches!(step, Step::Tx(_)), refusal.is_some());
        if let Some(reason) = refusal {
            if refused.push(Refusal { stamp, reason }).is_err() {
                return Err(Stop::Memory);
            }
        }
    }
    Ok(())
}

/// Runs the actions of agents until the shared world is closed and none is ready.
pub(crate) fn serve<F: Functions<Core>, L: Books, R: Wait, G: Gate + Drop>(
    rt: &R,
    run: &Run<'_, F, L>,
    mut gate: G,
) -> Result<(), Stop> {
    for _ in rt.forever() {
        match run
            .shared
            .work_once(rt, run.alloc, run.funs, &mut gate, &mut Quiet)
        {
            Ok(Worked::Did(_agent)) => {}
            Ok(Worked::Closed) => return Ok(()),
            Err(WorkFault::Memory) => return Err(Stop::Memory),
            Err(WorkFault::NoSuchFun(_) | WorkFault::Foreign) => return Err(Stop::Internal),
        }
    }
    unreachable!()
}
