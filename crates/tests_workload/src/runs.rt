//! Running the plan of a text, with gates, and what is seen of it.
use crate::gates::{Board, Role, Turn};
use crate::tables::CoreWithout;
use ref_audit::{audit, dump, report};
use ref_edn::read_one;
use ref_fun::has_core;
use ref_workload::plan::plan;
use ref_workload::{Plan, Progress, RunFault, RunOut, run_plan_with};
use std::alloc::{AllocError, Global};
use std::sync::Wait;
use std::sync::atomic::Ordering;
use std::test::Fail;
use std::thread::Threads;
use std::time::Clock;

/// How a text is run: the table, how often a transaction is tried, and what the gates do, those of the workers first. Who has no
/// role here is let pass.
#[derive(Clone, Copy, Drop)]
pub(crate) struct How<'a> {
    pub(crate) funs: CoreWithout,
    pub(crate) tries: u32,
    pub(crate) roles: &'a [Role],
}

/// Runs the workload that a text says, and answers its report.
pub(crate) fn run<R: Threads + Wait + Clock + Sync>(
    rt: &R,
    alloc: Global,
    text: &str,
    how: How,
    progress: &Progress,
) -> Result<Result<Vec<u8>, RunFault>, Fail> {
    let plan = plan(alloc, &read_one(alloc, text.as_bytes())?)?;
    let board = Board::new();
    let ran = run_gated(rt, alloc, &plan, how, progress, &board)?;
    if board.late.load(Ordering::SeqCst) {
        return Err(Fail::new("a thread waited in vain"));
    }
    Ok(ran)
}

fn run_gated<R: Threads + Wait + Clock + Sync>(
    rt: &R,
    alloc: Global,
    plan: &Plan,
    how: How,
    progress: &Progress,
    board: &Board,
) -> Result<Result<Vec<u8>, RunFault>, Fail> {
    let Some(count) = plan.workers().len().checked_add(plan.pool() as usize) else {
        return Err(Fail::new("too many threads"));
    };
    let gates = make_gates(rt, alloc, board, how.roles, count)?;
    if gates.len() != count {
        return Err(Fail::new("each thread has a gate"));
    }
    match run_plan_with(rt, alloc, &how.funs, plan, how.tries, gates, progress) {
        Ok(out) => Ok(Ok(report_of(alloc, &how.funs, plan, &out)?)),
        Err(fault) => Ok(Err(fault)),
    }
}

fn make_gates<'a, 'b, R: Clock>(
    rt: &'a R,
    alloc: Global,
    board: &'b Board,
    roles: &[Role],
    count: usize,
) -> Result<Vec<Turn<'a, 'b, R>>, AllocError> {
    let mut gates = Vec::with_capacity(alloc, count)?;
    for i in 0..count {
        let role = match roles.get(i) {
            Some(role) => *role,
            None => Role::Open,
        };
        gates.push(Turn {
            rt,
            board,
            role,
            times: 0,
        })?;
    }
    Ok(gates)
}

// The report of the world that a run ended with, and of the verdict on its dump.
fn report_of(
    alloc: Global,
    funs: &CoreWithout,
    plan: &Plan,
    out: &RunOut,
) -> Result<Vec<u8>, Fail> {
    if !has_core(funs) {
        return Err(Fail::new("the table has all of Core"));
    }
    let verdict = audit(alloc, funs, &dump(alloc, &out.world)?)?;
    let (names, refused) = (plan.names(), out.refused.as_slice());
    let mut text = Vec::new(alloc);
    report(alloc, names, &out.world, refused, &verdict, &mut text)?;
    Ok(text)
}
