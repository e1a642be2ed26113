//! `refrun` runs the workload that an EDN text describes, on refs, atoms and agents and with a thread for each worker, and reports
//! what came of it; it dumps a run, audits a dump and shows what it says, plays lists of events on one thread, and prints EDN.
//!
//! Each command is one function from a reader to a writer: `ref_workload::run_workload`, [`checking::check_text`],
//! [`auditing::audit_text`], [`looking::look_text`], [`looking::draw_text`], `ref_player::play_events` and [`printing::print_text`]. `commands` reads the command line, and `serving`
//! carries a command out and returns the status. `lines` has what is said on standard error, and `explaining` what follows there for
//! people. `tasks` has what is done by Core's functions, and `naming` reads the names of references.
#![tactic(auto)]

ghost use Rattle.std.specs.Prelude.{◌≡◌, true, IfErr};
ghost use Rattle.std.specs.IoError.{error_kind};
ghost use Rattle.clap.specs.Words.{kind_of};
ghost use Rattle.ref_fun.specs.Calls.{HasCore};
ghost use Rattle.refrun.specs.Checking.{IsOfChecking};
ghost use Rattle.refrun.specs.Serving.{CanEnd, EndsAtArguments, EndsAtWords, IsEnd, is_early};

pub mod auditing;
pub mod checking;
mod commands;
mod explaining;
pub mod faults;
pub mod limits;
mod lines;
pub mod looking;
mod measuring;
pub mod naming;
pub mod printing;
mod serving;
mod tasks;
mod telling;

use clap::Error;
use clap::error::ErrorKind;
use commands::{Request, Wanted, arguments, help_texts, matches_of, names_file_of, wanted_of};
use explaining::explain_fault;
use faults::Fault;
use lines::say;
use measuring::Measuring;
use naming::{names_of_text, no_names};
use ref_audit::Names;
use ref_edn::Counted;
use ref_explain::{Remembering, Watching};
use ref_fun::{Core, CoreFunctions, Functions};
use ref_workload::RunFault;
use serving::serve;
use std::env::Env;
use std::fs::File;
use std::io;
use std::process::ExitCode;
use std::rt::Files;
use std::sync::Wait;
use std::thread::Threads;
use std::time::Clock;
use tasks::Task;

// The status where the words are no command.
const USAGE: u8 = 2;

fn main(rt: HostRuntime) -> ExitCode {
    ExitCode::from(answer(&rt, &CoreFunctions::new()))
}

// Does what the words ask for by a table, and answers the status.
fn answer<F, R>(rt: &R, funs: &F) -> u8
where
    F: Functions<Core> + Sync,
    R: AllocGlobal + Env + Files + Input + Print + Eprint + Threads + Wait + Clock + Sync,
    requires { HasCore (F.knows funs.now) }
    ensures { IsEnd result }
{
    let words = match arguments(rt) {
        Ok(words) => words,
        Err(error) => return no_arguments(rt, &error),
    };
    let Ok(texts) = help_texts(rt.alloc()) else {
        return no_memory(rt);
    };
    match matches_of(rt.alloc(), &texts, words.as_slice()) {
        Ok(matches) => match wanted_of(&matches) {
            Some(wanted) => obey_with_names(rt, funs, wanted, names_file_of(&matches)),
            // The parser lets no other words pass.
            None => USAGE,
        },
        Err(error) => no_matches(rt, &error),
    }
}

// Does what the command says, with the names in a file, if one is given.
fn obey_with_names<F, R>(rt: &R, funs: &F, wanted: Wanted, file: Option<&str>) -> u8
where
    F: Functions<Core> + Sync,
    R: AllocGlobal + Files + Input + Print + Eprint + Threads + Wait + Clock + Sync,
    requires { HasCore (F.knows funs.now) }
    ensures { IsEnd result }
{
    let Some(file) = file else {
        return obey(rt, funs, &no_names(rt.alloc()), wanted);
    };
    match names_in_file(rt, file, wanted.explains) {
        Ok(names) => obey(rt, funs, &names, wanted),
        Err(status) => status,
    }
}

// Does what the command says, from standard input to standard output.
fn obey<F, R>(rt: &R, funs: &F, names: &Names, wanted: Wanted) -> u8
where
    F: Functions<Core> + Sync,
    R: AllocGlobal + Input + Print + Eprint + Threads + Wait + Clock + Sync,
    requires { HasCore (F.knows funs.now) }
    // No contract knows what standard input holds, nor what standard output took.
    ensures { CanEnd wanted result }
{
    let is_run = matches!(wanted.request, Request::ByCore(Task::Run { .. }));
    let mut reader = Remembering::new(rt.alloc(), Counted::new(rt.reader()), wanted.explains);
    let watching = Watching::new(
        rt.alloc(),
        Counted::new(io::writer(rt)),
        is_run && (wanted.explains || wanted.is_strict),
    );
    let mut writer = Measuring::new(watching);
    serve(rt, funs, names, wanted, &mut reader, &mut writer)
}

// ---- what ends a command early

fn no_memory<R: Eprint>(rt: &R) -> u8
    ensures { result ≡ 6 }
{
    say(rt, Fault::Run(RunFault::Memory))
}

// The names of the references that the workload in a file declares, or the status if there are none.
fn names_in_file<R: AllocGlobal + Files + Eprint>(
    rt: &R,
    file: &str,
    explains: bool,
) -> Result<Names, u8>
    // No contract knows what a file holds.
    ensures { IfErr result (λ status. is_early status ≡ true) }
{
    let Ok(opened) = File::open(rt, file) else {
        let _said = eprintln!(rt; "error: the file {file} cannot be opened");
        return Err(USAGE);
    };
    let mut reader = Remembering::new(rt.alloc(), Counted::new(opened), explains);
    match names_of_text(rt.alloc(), &mut reader) {
        Ok(names) => Ok(names),
        Err(fault) => Err(no_workload(rt, file, fault, reader.bytes())),
    }
}

// The file of names holds no workload, or it can't be read.
fn no_workload<R: AllocGlobal + Eprint>(
    rt: &R,
    file: &str,
    fault: RunFault,
    text: Option<&[u8]>,
) -> u8
    requires { IsOfChecking fault }
    ensures { is_early result ≡ true }
{
    let status = say(rt, Fault::Run(fault));
    if fault != RunFault::Memory {
        let _said = eprintln!(rt; "in {file}, the file of --names");
    }
    if let Some(text) = text {
        explain_fault(rt, text, Fault::Run(fault));
    }
    status
}

// The words can't be had: one of them isn't UTF-8, or there is no memory for them.
fn no_arguments<R: Eprint>(rt: &R, error: &io::Error) -> u8
    ensures { EndsAtArguments (error_kind error.now) result }
{
    if error.kind() == io::ErrorKind::OutOfMemory {
        return no_memory(rt);
    }
    let _said = eprintln!(rt; "error: an argument is not UTF-8");
    USAGE
}

// The words are no command, or they ask for help.
fn no_matches<R: Print + Eprint>(rt: &R, error: &Error) -> u8
    ensures { EndsAtWords (kind_of error.now) result }
{
    if error.kind() == ErrorKind::OutOfMemory {
        return no_memory(rt);
    }
    let printed = error.print(rt);
    if error.use_stderr() {
        USAGE
    } else if printed.is_err() {
        say(rt, Fault::Run(RunFault::Write))
    } else {
        0
    }
}
