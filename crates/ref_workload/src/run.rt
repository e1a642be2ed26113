//! A plan, run by threads.
ghost use Rattle.std.specs.Prelude.{◌≡◌, ◌+◌, [], Err, Ok, IfErr, IfOk, OnOk, length, vec_len};
ghost use Rattle.ref_fun.specs.Core.{core_accepts};
ghost use Rattle.ref_workload.specs.Orderly.{AreInOrder, IsOrderly};
ghost use Rattle.ref_workload.specs.Reasons.{HaveReasons};
ghost use Rattle.ref_workload.specs.Run.{IsAlwaysSo, IsOfPlan};
ghost use Rattle.ref_shared.specs.Gather.{InOrder};
ghost use Rattle.ref_world.specs.Shares.{AreBlanks, whole};
ghost use Rattle.ref_world.specs.Starts.{declared_agents, declared_atoms, declared_refs};

use crate::faults::{RunFault, Stop};
use crate::order::{are_in_order, have_reasons, is_orderly};
use crate::progress::Progress;
use crate::running::{Run, run_threads};
use ref_audit::Refusal;
use ref_fun::{Core, Functions};
use ref_log::{MakeFault, SharedVec, Who};
use ref_plan::{Plan, Step};
use ref_shared::{Gate, GatherFault, Shared};
use ref_world::{Blanks, Booked, Books, Share, Totals, World};
use std::alloc::Global;
use std::marker::Brand;
use std::sync::Wait;
use std::thread::Threads;

/// What comes of a run: the world that is taken out, its totals, and the refused steps, by worker, then step.
#[derive(Drop)]
pub struct RunOut {
    pub world: World<Core>,
    pub totals: Totals,
    pub refused: Vec<Refusal>,
}

/// Runs a plan in a world of its own: each worker's steps in order, in a thread of its own, next to a pool of threads that run
/// the actions of agents. A transaction is tried so often, and once where that is 0. Each thread gets a gate, the workers the
/// first ones, by number.
///
/// When all workers have ended the shared world is closed, and the pool does what is left. Where a thread can't be made, or one
/// meets a fault, the others run to their end before the fault is returned, the first of the workers by number and then of the
/// pool. A table that lacks a function or a predicate that the plan names ends the run with [`RunFault::Internal`]. What comes
/// out is compared with the plan, in time linear in both.
pub fn run_plan<F, R, G>(
    rt: &R,
    alloc: Global,
    funs: &F,
    plan: &Plan,
    tries: u32,
    gates: Vec<G>,
) -> Result<RunOut, RunFault>
where
    F: Functions<Core> + Sync,
    R: Threads + Wait + Sync,
    G: Gate + Send + Drop,
    requires gates { vec_len gates ≡ length plan.now.workers + plan.now.pool }
    ensures orderly { IfOk result (λ out. IsOrderly plan.now out.world out.refused.items) }
    ensures order { IfOk result (λ out. AreInOrder out.refused.items) }
    ensures reasons { IfOk result (λ out. HaveReasons plan.now.workers out.refused.items) }
    ensures world { IfOk result (λ out. IsAlwaysSo out.world) }
    ensures totals { IfOk result (λ out. (out.totals.commits ≡ out.world.books.commits)
        × (out.totals.added ≡ out.world.books.added) × (out.totals.taken ≡ out.world.books.taken)) }
    ensures inner { IfErr result IsOfPlan }
{
    let progress = Progress::new();
    run_plan_with(rt, alloc, funs, plan, tries, gates, &progress)
}

/// As [`run_plan`], and counts in `progress` how far it is.
pub fn run_plan_with<F, R, G>(
    rt: &R,
    alloc: Global,
    funs: &F,
    plan: &Plan,
    tries: u32,
    gates: Vec<G>,
    progress: &Progress,
) -> Result<RunOut, RunFault>
where
    F: Functions<Core> + Sync,
    R: Threads + Wait + Sync,
    G: Gate + Send + Drop,
    requires gates { vec_len gates ≡ length plan.now.workers + plan.now.pool }
    ensures orderly { IfOk result (λ out. IsOrderly plan.now out.world out.refused.items) }
    ensures order { IfOk result (λ out. AreInOrder out.refused.items) }
    ensures reasons { IfOk result (λ out. HaveReasons plan.now.workers out.refused.items) }
    ensures world { IfOk result (λ out. IsAlwaysSo out.world) }
    ensures totals { IfOk result (λ out. (out.totals.commits ≡ out.world.books.commits)
        × (out.totals.added ≡ out.world.books.added) × (out.totals.taken ≡ out.world.books.taken)) }
    ensures inner { IfErr result IsOfPlan }
{
    match run_booked::<F, Brand, R, G>(
        rt,
        alloc,
        funs,
        plan,
        tries,
        gates,
        progress,
        Blanks::new(),
    ) {
        Ok(out) => Ok(out),
        Err(fault) => Err(fault),
    }
}

// The run, in a world whose books L names.
fn run_booked<F, L, R, G>(
    rt: &R,
    alloc: Global,
    funs: &F,
    plan: &Plan,
    tries: u32,
    gates: Vec<G>,
    progress: &Progress,
    blanks: Blanks,
) -> Result<RunOut, RunFault>
where
    F: Functions<Core> + Sync,
    L: Books + Send + Sync,
    R: Threads + Wait + Sync,
    G: Gate + Send + Drop,
    requires gates { vec_len gates ≡ length plan.now.workers + plan.now.pool }
    requires blanks { AreBlanks blanks L.commits L.added L.taken L.story }
    ensures orderly { IfOk result (λ out. IsOrderly plan.now out.world out.refused.items) }
    ensures order { IfOk result (λ out. AreInOrder out.refused.items) }
    ensures reasons { IfOk result (λ out. HaveReasons plan.now.workers out.refused.items) }
    ensures world { IfOk result (λ out. IsAlwaysSo out.world) }
    ensures totals { IfOk result (λ out. (out.totals.commits ≡ out.world.books.commits)
        × (out.totals.added ≡ out.world.books.added) × (out.totals.taken ≡ out.world.books.taken)) }
    ensures inner { IfErr result IsOfPlan }
{
    let (booked, mut share) = open_world::<F, L>(alloc, funs, plan, blanks)?;
    let run = Run {
        alloc,
        funs,
        shared: Shared::new(booked),
        workers: plan.workers(),
        tries,
        progress,
    };
    progress.begin(count_steps(run.workers));
    let refused = run_threads(rt, &run, &mut share, gates)?;
    let Run { shared, .. } = run;
    take_out(alloc, plan, shared, share, refused)
}

// How many steps all workers have.
fn count_steps(workers: &[SharedVec<Step>]) -> u64 {
    let mut steps = 0u64;
    for worker in workers {
        steps = steps.saturating_add(worker.len() as u64);
    }
    steps
}

// The world that a plan declares, with its whole share.
fn open_world<F: Functions<Core>, L: Books>(
    alloc: Global,
    funs: &F,
    plan: &Plan,
    blanks: Blanks,
) -> Result<(Booked<Core, L>, Share<L>), Stop>
    requires { AreBlanks blanks L.commits L.added L.taken L.story }
    ensures refs { IfOk result (λ r. declared_refs core_accepts (F.knows funs.now).preds plan.now.refs ≡ Ok r.0.world.refs) }
    ensures atoms { IfOk result (λ r. declared_atoms core_accepts (F.knows funs.now).preds plan.now.atoms
        ≡ Ok r.0.world.atoms) }
    ensures agents { IfOk result (λ r. declared_agents core_accepts (F.knows funs.now).preds plan.now.agents
        ≡ Ok r.0.world.agents) }
    ensures log { IfOk result (λ r. r.0.world.log ≡ []) }
    ensures share { IfOk result (λ r. r.1 ≡ whole r.1.history) }
{
    match Booked::new(alloc, funs, plan.start(), blanks) {
        Ok(opened) => Ok(opened),
        Err((_, MakeFault::Memory)) => Err(Stop::Memory),
        Err((_, _)) => Err(Stop::Internal),
    }
}

// Takes the world out of a shared one, and compares it with the plan.
fn take_out<L: Books>(
    alloc: Global,
    plan: &Plan,
    shared: Shared<Core, L>,
    share: Share<L>,
    refused: Vec<Refusal>,
) -> Result<RunOut, RunFault>
    ensures orderly { IfOk result (λ out. IsOrderly plan.now out.world out.refused.items) }
    ensures order { IfOk result (λ out. AreInOrder out.refused.items) }
    ensures reasons { IfOk result (λ out. HaveReasons plan.now.workers out.refused.items) }
    ensures world { IfOk result (λ out. IsAlwaysSo out.world) }
    ensures totals { IfOk result (λ out. (out.totals.commits ≡ out.world.books.commits)
        × (out.totals.added ≡ out.world.books.added) × (out.totals.taken ≡ out.world.books.taken)) }
    ensures inner { IfErr result IsOfPlan }
{
    let (world, totals) = finished(alloc, shared, share)?;
    check(alloc, plan, &world, refused.as_slice())?;
    Ok(RunOut {
        world,
        totals,
        refused,
    })
}

// The world and its totals, where all shares were joined and their receipts fit its log.
fn finished<L: Books>(
    alloc: Global,
    shared: Shared<Core, L>,
    share: Share<L>,
) -> Result<(World<Core>, Totals), RunFault>
    ensures order { IfOk result (λ r. InOrder r.0.base.point r.0.log) }
    ensures world { IfOk result (λ r. IsAlwaysSo r.0) }
    ensures totals { IfOk result (λ r. (r.1.commits ≡ r.0.books.commits) × (r.1.added ≡ r.0.books.added)
        × (r.1.taken ≡ r.0.books.taken)) }
    ensures inner { IfErr result IsOfPlan }
{
    if !share.is_whole() {
        return Err(RunFault::Internal);
    }
    match shared.finish(alloc, share) {
        Ok(taken) => {
            ask_always_so(&taken.0);
            Ok(taken)
        }
        Err((_, _, GatherFault::Memory)) => Err(RunFault::Memory),
        Err((_, _, _)) => Err(RunFault::Internal),
    }
}

// Whether the world and the refused steps are those of a run of the plan.
fn check(
    alloc: Global,
    plan: &Plan,
    world: &World<Core>,
    refused: &[Refusal],
) -> Result<(), RunFault>
    requires { InOrder world.now.base.point world.now.log }
    ensures orderly { OnOk result (IsOrderly plan.now world.now refused.now) }
    ensures order { OnOk result (AreInOrder refused.now) }
    ensures reasons { OnOk result (HaveReasons plan.now.workers refused.now) }
    ensures inner { IfErr result IsOfPlan }
    // A run of the plan is never reported as none.
    ensures internal { result ≡ Err RunFault.Internal → IsOrderly plan.now world.now refused.now
        → AreInOrder refused.now
        → HaveReasons plan.now.workers refused.now → ⊥ }
{
    if !are_in_order(refused) || !have_reasons(plan.workers(), refused) {
        return Err(RunFault::Internal);
    }
    match is_orderly(alloc, plan, world, refused) {
        Ok(true) => Ok(()),
        Ok(false) => Err(RunFault::Internal),
        Err(_) => Err(RunFault::Memory),
    }
}

// What is always so of a world. It changes nothing.
fn ask_always_so(world: &World<Core>)
    ensures { IsAlwaysSo world.now }
{
    let _ = world.point();
    let _ = world.base().point;
    let _ = world.log().len();
    let _ = world.value_of(Who::Ref(0)).is_some();
}
