//! The play of a list of events, by one thread.
ghost use Rattle.std.specs.Prelude.{◌≡◌, ◌≢◌, ◌++◌, Some, Ok, IfErr, IfOk, OnOk};
ghost use Rattle.std.specs.Io.KnownBytes.{Appends};
ghost use Rattle.ref_fun.specs.Calls.{HasCore};
ghost use Rattle.ref_verdict.specs.DumpForm.{dump_of};
ghost use Rattle.ref_verdict.specs.Verdict.{verdict_on};
ghost use Rattle.ref_verdict.specs.declared.reports.Verdict.TheVariants as verdicts;
ghost use Rattle.ref_audit.specs.Dumped.{dumped};
ghost use Rattle.ref_events.specs.Documents.{ScriptSeen};
ghost use Rattle.ref_play.specs.Sims.{Stands, machine_of};
ghost use Rattle.ref_log.specs.declared.faults.MakeFault.TheVariants as makes;
ghost use Rattle.ref_output.specs.Pieces.{BreaksOff, CountsWrites, WritesOne};
ghost use Rattle.ref_player.specs.Lines.{event_lines, start_line};
ghost use Rattle.ref_player.specs.Faults.{IsOfOutput, output_fault_of};
ghost use Rattle.ref_player.specs.Plays.{Begins, IsDumpIf, IsLeft, IsPlayOf, IsPlayedFrom, IsStartLine, Plays, PlaysTo, end_text, start_refusal};
ghost use Rattle.ref_workload.specs.Run.{IsOfPlan};
ghost use Rattle.ref_workload.specs.Streams.{CountsWrites as CountsRunWrites};
ghost use Rattle.ref_world.specs.Shares.{AreBlanks};

use crate::lines::{start_line, write_lines};
use ref_agents::Start;
use ref_audit::{Verdict, report};
use ref_edn::{Sink, print};
use ref_events::{Script, ScriptParts};
use ref_forms::Names;
use ref_fun::{Core, Functions};
use ref_log::{MakeFault, Who};
use ref_output::{OutputFault, write_rest};
use ref_play::{Event, Reply, Sim};
use ref_value::{Items, Value};
use ref_workload::RunFault;
use ref_workload::streams::write_output;
use ref_workload::texts::{audited, check_audit};
use ref_world::{Blanks, Books, World};
use std::alloc::{AllocError, Global};
use std::marker::Brand;

// The world that is declared, on which no actor has acted, or why there is none.
fn begin<F: Functions<Core>, L: Books>(
    alloc: Global,
    funs: &F,
    start: &Start,
    blanks: Blanks,
) -> Result<Sim<Core, L>, (Who, MakeFault)>
    requires { AreBlanks blanks L.commits L.added L.taken L.story }
    ensures begins { IfOk result (Begins (F.knows funs.now) start.now.refs.items start.now.atoms.items
        start.now.agents.items) }
    ensures fault { IfErr result (λ e. e.1 ≢ makes.Memory → start_refusal (F.knows funs.now) start.now.refs.items
        start.now.atoms.items start.now.agents.items ≡ Some e) }
{
    match Sim::new(alloc, funs, start, blanks) {
        Ok(sim) => Ok(sim),
        Err(refused) => Err(refused),
    }
}

// The line of a start that is refused, if it isn't for lack of memory.
fn refused_start(alloc: Global, who: Who, fault: MakeFault) -> Result<Vec<u8>, RunFault>
    ensures text { IfOk result (λ text. text.items ≡ start_line who fault) }
    ensures told { OnOk result (fault ≢ makes.Memory) }
    ensures inner { IfErr result IsOfPlan }
{
    match fault {
        MakeFault::Memory => Err(RunFault::Memory),
        fault => match start_line(alloc, who, fault) {
            Ok(text) => Ok(text),
            Err(_) => Err(RunFault::Memory),
        },
    }
}

// The replies, and the world that it came to.
struct Played {
    replies: Vec<Reply>,
    world: World<Core>,
}

// Written by hand: a derived one would be written out wherever it is dropped.
impl Drop for Played {
    fn drop(self) {
        let Played {
            replies: _replies,
            world: _world,
        } = self;
    }
}

// Plays the events on a world, where its table serves it.
fn replies_of<F: Functions<Core>, L: Books>(
    alloc: Global,
    funs: &F,
    sim: &mut Sim<Core, L>,
    events: &[Event],
) -> Result<Vec<Reply>, RunFault>
    ensures plays { IfOk result (λ replies. PlaysTo (F.knows funs.now) sim.old events.now replies.items sim.new) }
    ensures inner { IfErr result IsOfPlan }
{
    let _ = sim.world();
    if !sim.served_by(funs) {
        return Err(RunFault::Internal);
    }
    match sim.play(alloc, funs, events) {
        Ok(replies) => Ok(replies),
        Err(_) => Err(RunFault::Memory),
    }
}

// Plays the events, and takes the world out.
fn play<F: Functions<Core>, L: Books>(
    alloc: Global,
    funs: &F,
    mut sim: Sim<Core, L>,
    events: &[Event],
) -> Result<Played, RunFault>
    ensures plays { IfOk result (λ p. Plays (F.knows funs.now) sim events.now p.replies.items p.world) }
    ensures inner { IfErr result IsOfPlan }
{
    let told = replies_of(alloc, funs, &mut sim, events);
    let (booked, _share) = sim.end();
    match told {
        Ok(replies) => Ok(Played {
            replies,
            world: booked.into_world(),
        }),
        Err(fault) => Err(fault),
    }
}

// The dump of a world, if it is asked for. The world is audited in any case.
fn audited_dump<F: Functions<Core>>(
    alloc: Global,
    funs: &F,
    world: &World<Core>,
    dump: bool,
) -> Result<Option<Value>, RunFault>
    requires { HasCore (F.knows funs.now) }
    ensures audited { OnOk result (verdict_on (dump_of (dumped world.now)) ≡ Ok verdicts.Ok) }
    ensures dump { IfOk result (λ dumped. IsDumpIf dump world.now dumped) }
    ensures inner { IfErr result IsOfPlan }
{
    if dump {
        let dumped = audited(alloc, funs, world)?;
        return Ok(Some(dumped));
    }
    check_audit(alloc, funs, world)?;
    Ok(None)
}

// Appends a dump and a newline, or else the report of a world.
fn append_end(
    alloc: Global,
    names: &Names,
    world: &World<Core>,
    dumped: &Option<Value>,
    out: &mut Vec<u8>,
) -> Result<(), AllocError>
    ensures { OnOk result (out.new.items ≡ out.old.items ++ end_text names.now world.now dumped.now) }
{
    match dumped {
        Some(dumped) => {
            print(alloc, dumped, out)?;
            out.extend_from_slice(b"\n")
        }
        None => report(alloc, names, world, &[], &Verdict::Ok, out),
    }
}

// Writes the lines of a play, and then the dump, or the report of the world that it came to.
fn write_played<W: Sink>(
    alloc: Global,
    names: &Names,
    forms: &Items,
    played: &Played,
    dumped: &Option<Value>,
    writer: &mut W,
) -> Result<(), OutputFault>
    ensures ok { OnOk result (Appends (W.written writer.old) (W.written writer.new)
        (event_lines 0 forms.now played.now.replies.items ++ end_text names.now played.now.world dumped.now)) }
    ensures err { IfErr result (λ f. BreaksOff f (W.written writer.old) (W.written writer.new)
        (event_lines 0 forms.now played.now.replies.items ++ end_text names.now played.now.world dumped.now)) }
    ensures writes { CountsWrites (W.failures writer.old) (W.failures writer.new) result }
{
    let mut waiting = Vec::new(alloc);
    write_lines(
        alloc,
        forms,
        played.replies.as_slice(),
        writer,
        &mut waiting,
    )?;
    append_end(alloc, names, &played.world, dumped, &mut waiting)?;
    write_rest(writer, &mut waiting)
}

// The fault of a run for one of an output.
fn output_fault(fault: OutputFault) -> RunFault
    ensures { result ≡ output_fault_of fault }
{
    match fault {
        OutputFault::Write => RunFault::Write,
        OutputFault::Memory => RunFault::Memory,
    }
}

// Plays the events on a world, and writes what comes of it.
fn write_play<F: Functions<Core>, L: Books, W: Sink>(
    alloc: Global,
    funs: &F,
    names: &Names,
    forms: &Items,
    sim: Sim<Core, L>,
    events: &[Event],
    dump: bool,
    writer: &mut W,
) -> Result<(), RunFault>
    requires { HasCore (F.knows funs.now) }
    ensures ok { OnOk result (WritesOne (IsPlayedFrom (F.knows funs.now) sim events.now forms.now names.now dump)
        (W.written writer.old) (W.written writer.new)) }
    ensures left { IfErr result (λ f. IsLeft (IsPlayedFrom (F.knows funs.now) sim events.now forms.now names.now dump) f
        (W.written writer.old) (W.written writer.new)) }
    ensures inner { IfErr result IsOfOutput }
    ensures writes { CountsRunWrites (W.failures writer.old) (W.failures writer.new) result }
{
    let played = play(alloc, funs, sim, events)?;
    let dumped = audited_dump(alloc, funs, &played.world, dump)?;
    match write_played(alloc, names, forms, &played, &dumped, writer) {
        Ok(()) => Ok(()),
        Err(fault) => Err(output_fault(fault)),
    }
}

// Writes the line of a start that is refused, if it isn't for lack of memory.
fn write_refused<W: Sink>(
    alloc: Global,
    who: Who,
    fault: MakeFault,
    writer: &mut W,
) -> Result<(), RunFault>
    ensures ok { OnOk result (WritesOne (IsStartLine who fault) (W.written writer.old) (W.written writer.new)) }
    ensures left { IfErr result (λ f. IsLeft (IsStartLine who fault) f (W.written writer.old) (W.written writer.new)) }
    ensures inner { IfErr result IsOfOutput }
    ensures writes { CountsRunWrites (W.failures writer.old) (W.failures writer.new) result }
{
    let line = refused_start(alloc, who, fault)?;
    write_output(writer, &line)
}

/// Plays a list of events by a table of Core's functions, and writes a line for each event, and the report, or the dump, of the world that
/// it came to, where all jobs were put back and all open transactions dropped. Where a rule or the tally refuses the start, it writes the
/// line that says so, and no event is played.
///
/// Nothing is written before the play has ended and its world is audited, and then in pieces.
pub fn write_script<F: Functions<Core>, W: Sink>(
    alloc: Global,
    funs: &F,
    script: Script,
    dump: bool,
    writer: &mut W,
) -> Result<(), RunFault>
    requires { HasCore (F.knows funs.now) }
    ensures ok { OnOk result (WritesOne (IsPlayOf dump script) (W.written writer.old) (W.written writer.new)) }
    ensures left { IfErr result (λ f. IsLeft (IsPlayOf dump script) f (W.written writer.old) (W.written writer.new)) }
    ensures inner { IfErr result IsOfOutput }
    ensures writes { CountsRunWrites (W.failures writer.old) (W.failures writer.new) result }
{
    match write_in::<F, Brand, W>(alloc, funs, script, dump, Blanks::new(), writer) {
        Ok(()) => Ok(()),
        Err(fault) => Err(fault),
    }
}

// The same, in a world whose books L names.
fn write_in<F: Functions<Core>, L: Books, W: Sink>(
    alloc: Global,
    funs: &F,
    script: Script,
    dump: bool,
    blanks: Blanks,
    writer: &mut W,
) -> Result<(), RunFault>
    requires core { HasCore (F.knows funs.now) }
    requires blanks { AreBlanks blanks L.commits L.added L.taken L.story }
    ensures ok { OnOk result (WritesOne (IsPlayOf dump script) (W.written writer.old) (W.written writer.new)) }
    ensures left { IfErr result (λ f. IsLeft (IsPlayOf dump script) f (W.written writer.old) (W.written writer.new)) }
    ensures inner { IfErr result IsOfOutput }
    ensures writes { CountsRunWrites (W.failures writer.old) (W.failures writer.new) result }
{
    let ScriptParts {
        names,
        start,
        events,
        forms,
    } = script.into_parts();
    match begin::<F, L>(alloc, funs, &start, blanks) {
        Ok(sim) => {
            let events = events.as_slice();
            write_play(alloc, funs, &names, &forms, sim, events, dump, writer)
        }
        Err((who, fault)) => write_refused(alloc, who, fault, writer),
    }
}
