//! The run of a workload, from its bytes to its report or its dump.
ghost use Rattle.std.specs.Prelude.{◌≡◌, ◌≢◌, ◌+◌, ◌++◌, ◌∷◌, [], Ok, IfOk, IfErr, IfSome, OnOk, length, vec_len};
ghost use Rattle.ref_edn.specs.Streams.{ConsumesUpTo};
ghost use Rattle.ref_fun.specs.Calls.{HasCore};
ghost use Rattle.ref_edn.specs.Printed.{printed};
ghost use Rattle.ref_audit.specs.DumpForm.{dump_of};
ghost use Rattle.ref_audit.specs.Dumped.{dumped};
ghost use Rattle.ref_audit.specs.Report.{reported};
ghost use Rattle.ref_audit.specs.Verdict.{verdict_on};
ghost use Rattle.ref_verdict.specs.declared.reports.Verdict.TheVariants as verdicts;
ghost use Rattle.ref_workload.specs.Run.{IsAtFault, IsOfPlan, IsOfText, IsPlanRun, IsRun};
ghost use Rattle.ref_workload.specs.Streams.{CountsReads, CountsWrites, HasBrokenOff, HasWritten};
ghost use Rattle.ref_workload.specs.Streams.{most_input};

use crate::faults::RunFault;
use crate::progress::Progress;
use crate::run::{RunOut, run_plan_with};
use crate::streams::{read_input, write_output};
use ref_audit::{DumpFault, DumpMakeFault, Verdict, audit, audit_world, dump, report};
use ref_edn::{Sink, Source, print, read_one};
use ref_fun::{Core, Functions};
use ref_plan::Plan;
use ref_plan::plan::plan;
use ref_shared::Open;
use ref_value::Value;
use ref_world::World;
use std::alloc::Global;
use std::sync::Wait;
use std::thread::Threads;

/// How a workload is run.
#[derive(Clone, Copy, Debug, Drop, PartialEq, Eq)]
pub struct Options {
    /// How often a transaction is tried that is in conflict, at least once.
    pub tries: u32,
    /// Whether the dump of the run is written instead of its report.
    pub dump: bool,
}

/// Reads a workload to its end, runs it by a table of Core's functions, with a thread for each worker next to a pool, audits what came
/// of it, and writes the report, or the dump that was audited and a newline.
///
/// Nothing is written before the run has ended. The reader is read to its end or to one byte more than a workload may have.
pub fn run_workload<F, R, I, O>(
    rt: &R,
    alloc: Global,
    funs: &F,
    reader: &mut I,
    writer: &mut O,
    options: Options,
) -> Result<Verdict, RunFault>
where
    F: Functions<Core> + Sync,
    R: Threads + Wait + Sync,
    I: Source,
    O: Sink,
    requires { HasCore (F.knows funs.now) }
    // It reads no further than one byte past what a workload may have.
    ensures taken { ConsumesUpTo (I.left reader.old) (I.left reader.new) (most_input + 1) }
    ensures ok { IfOk result (λ verdict. (verdict ≡ verdicts.Ok)
        × HasWritten (IsRun options.dump) (I.left reader.old) (I.left reader.new) (O.written writer.old)
        (O.written writer.new)) }
    // The text, its value or its length is at fault, where the fault says so.
    ensures fault { IfErr result (λ f. IfSome (I.left reader.old) (λ text. IsAtFault text f)) }
    ensures write { IfErr result (λ f. f ≡ RunFault.Write
        → HasBrokenOff (IsRun options.dump) (I.left reader.old) (I.left reader.new) (O.written writer.old)
        (O.written writer.new)) }
    // Before any other fault nothing was written.
    ensures silent { IfErr result (λ f. f ≢ RunFault.Write → O.written writer.new ≡ O.written writer.old) }
    ensures reads { CountsReads (I.failures reader.old) (I.failures reader.new) result }
    ensures writes { CountsWrites (O.failures writer.old) (O.failures writer.new) result }
{
    let progress = Progress::new();
    let input = read_input(alloc, reader)?;
    let output = run_text(rt, alloc, funs, &input, options, &progress)?;
    write_output(writer, &output)?;
    Ok(Verdict::Ok)
}

/// Runs the workload that a text writes, as [`run_workload`] does, and answers what is to be written of it. `progress` counts how
/// far the run is.
pub fn run_text<F: Functions<Core> + Sync, R: Threads + Wait + Sync>(
    rt: &R,
    alloc: Global,
    funs: &F,
    text: &[u8],
    options: Options,
    progress: &Progress,
) -> Result<Vec<u8>, RunFault>
    requires { HasCore (F.knows funs.now) }
    ensures ok { IfOk result (λ output. IsRun options.dump text.now output.items) }
    ensures fault { IfErr result (λ f. IsAtFault text.now f) }
    ensures inner { IfErr result IsOfText }
{
    let value = read_one(alloc, text)?;
    let plan = plan(alloc, &value)?;
    // A run needs its memory.
    drop(value);
    match output_of_plan(rt, alloc, funs, &plan, options, progress) {
        Ok(output) => Ok(output),
        Err(fault) => Err(fault),
    }
}

// What is written of a plan that is run.
fn output_of_plan<F, R>(
    rt: &R,
    alloc: Global,
    funs: &F,
    plan: &Plan,
    options: Options,
    progress: &Progress,
) -> Result<Vec<u8>, RunFault>
where
    F: Functions<Core> + Sync,
    R: Threads + Wait + Sync,
    requires { HasCore (F.knows funs.now) }
    ensures ok { IfOk result (λ output. IsPlanRun options.dump plan.now output.items) }
    ensures inner { IfErr result IsOfPlan }
{
    let gates = open_gates(alloc, plan)?;
    let ran = run_plan_with(rt, alloc, funs, plan, options.tries, gates, progress);
    let out = ran?;
    if options.dump {
        let dumped = audited(alloc, funs, &out.world)?;
        dump_line(alloc, &dumped)
    } else {
        check_audit(alloc, funs, &out.world)?;
        report_of(alloc, plan, &out)
    }
}

// A gate that lets all pass, for each worker and each thread of the pool.
fn open_gates(alloc: Global, plan: &Plan) -> Result<Vec<Open>, RunFault>
    ensures gates { IfOk result (λ gates. vec_len gates ≡ length plan.now.workers + plan.now.pool) }
    ensures inner { IfErr result IsOfPlan }
{
    let Some(count) = plan.workers().len().checked_add(plan.pool() as usize) else {
        return Err(RunFault::Memory);
    };
    match vec![in alloc; Open; count] {
        Ok(gates) => Ok(gates),
        Err(_) => Err(RunFault::Memory),
    }
}

/// The dump of a world, which was audited and is ok. A world that a plan was run in has one.
pub fn audited<F: Functions<Core>>(
    alloc: Global,
    funs: &F,
    world: &World<Core>,
) -> Result<Value, RunFault>
    requires { HasCore (F.knows funs.now) }
    ensures dumped { IfOk result (λ v. v ≡ dumped world.now) }
    ensures audited { OnOk result (verdict_on (dump_of (dumped world.now)) ≡ Ok verdicts.Ok) }
    ensures inner { IfErr result IsOfPlan }
{
    let value = match dump(alloc, world) {
        Ok(value) => value,
        Err(DumpMakeFault::Memory) => return Err(RunFault::Memory),
        Err(DumpMakeFault::TooDeep | DumpMakeFault::Unnamed(_)) => {
            return Err(RunFault::Internal);
        }
    };
    match audit(alloc, funs, &value) {
        Ok(Verdict::Ok) => Ok(value),
        Err(DumpFault::Memory) => Err(RunFault::Memory),
        Ok(_) | Err(_) => Err(RunFault::Internal),
    }
}

/// Audits a world without its dump: no form is made of what nobody reads.
pub fn check_audit<F: Functions<Core>>(
    alloc: Global,
    funs: &F,
    world: &World<Core>,
) -> Result<(), RunFault>
    requires { HasCore (F.knows funs.now) }
    ensures audited { OnOk result (verdict_on (dump_of (dumped world.now)) ≡ Ok verdicts.Ok) }
    ensures inner { IfErr result IsOfPlan }
{
    match audit_world(alloc, funs, world) {
        Ok(Verdict::Ok) => Ok(()),
        Err(DumpMakeFault::Memory) => Err(RunFault::Memory),
        Ok(_) | Err(_) => Err(RunFault::Internal),
    }
}

// The line of a dump.
fn dump_line(alloc: Global, dumped: &Value) -> Result<Vec<u8>, RunFault>
    ensures ok { IfOk result (λ line. line.items ≡ printed dumped.now ++ 10 ∷ []) }
    ensures inner { IfErr result IsOfPlan }
{
    let mut line = Vec::new(alloc);
    if print(alloc, dumped, &mut line).is_err() || line.push(b'\n').is_err() {
        return Err(RunFault::Memory);
    }
    Ok(line)
}

// The report of a run whose world was audited.
fn report_of(alloc: Global, plan: &Plan, out: &RunOut) -> Result<Vec<u8>, RunFault>
    ensures ok { IfOk result (λ text. text.items
        ≡ reported plan.now.names out.now.world out.now.refused.items verdicts.Ok) }
    ensures inner { IfErr result IsOfPlan }
{
    let mut text = Vec::new(alloc);
    let told = report(
        alloc,
        plan.names(),
        &out.world,
        out.refused.as_slice(),
        &Verdict::Ok,
        &mut text,
    );
    match told {
        Ok(()) => Ok(text),
        Err(_) => Err(RunFault::Memory),
    }
}
