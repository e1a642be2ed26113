//! A whole program: its world is made, its workers work, and its world is taken out.
ghost use Rattle.ref_fun.specs.Core.{core_means};
ghost use Rattle.std.specs.Prelude.{◌≡◌, ◌+◌, ◌-◌, ◌<◌, ◌^◌, true, [], ◌∷◌, ◌++◌, map, max, vec_len, Ok, IfOk, OnOk, is_ok};
ghost use Rattle.std.specs.Thread.{IsSend, IsSync};
ghost use Rattle.ref_program.specs.Done.{AreFresh, AreLeft, AreNumbers, HaveDone, HaveRun, IsEach};
ghost use Rattle.ref_program.specs.Seen.{HasDoneNothing};
ghost use Rattle.ref_shared.specs.Commits.{HasEnded};
ghost use Rattle.ref_shared.specs.Gather.{InOrder, ReceiptsMatch};
ghost use Rattle.ref_world.specs.Shares.{AreBlanks, all_parts, whole};

use crate::declared::{Declared, Watch};
use crate::faults::Fault;
use crate::programs::{Crew, CustomProgram, Ended, OfCore, Program};
use crate::stamps::Stamps;
use crate::workers::Worker;
use ref_fun::Meaning;
use ref_log::MakeFault;
use ref_shared::{Open, Shared, Worked};
use ref_world::{Blanks, Booked, Books, Share, World};
use std::alloc::{AllocError, Global};
use std::marker::{Brand, PhantomData};
use std::sync::Wait;
use std::thread;
use std::thread::{JoinHandle, Promise, PromisedHandle, Scope, Threads};

/// Runs a program with so many workers and helpers, each a thread of its own, and returns the world and what all workers did. Once all
/// workers are done the helpers do what is left.
///
/// The log of the world that is returned has just the entries of which the workers have receipts, from its base on, in the order of each
/// worker's steps: see [`ref_shared::match_receipts`], also for what the comparison costs.
///
/// A fault of a worker or a helper ends the run: who waits is woken, the others go on to their ends, and the first fault is returned, that
/// of a worker before that of a helper; one that says that the run was over ([`Fault::Closed`]) only if there is no other. The world is
/// dropped then. Where a thread can't be made it is [`Fault::Memory`].
pub fn run<P: Program + Sync, R: AllocGlobal + Threads + Wait + Sync>(
    rt: &R,
    program: &P,
    crew: Crew,
) -> Result<Ended, Fault>
    ensures did { IfOk result (λ end. HaveRun core_means P.did crew.workers end.totals end.world.base end.world.log) }
    ensures commits { IfOk result (λ end. IsEach P.did crew.workers (λ s. s.commits) end.totals.commits) }
    ensures added { IfOk result (λ end. IsEach P.did crew.workers (λ s. s.added) end.totals.added) }
    ensures taken { IfOk result (λ end. IsEach P.did crew.workers (λ s. s.taken) end.totals.taken) }
{
    run_custom(rt, &OfCore { program }, crew)
}

/// As [`run`], for a program with functions or sinks of its own.
pub fn run_custom<
    P: CustomProgram<Meaning = M> + Sync,
    R: AllocGlobal + Threads + Wait + Sync,
    M: Meaning + Send + Sync,
>(rt: &R, program: &P, crew: Crew) -> Result<Ended<M, P::Sink>, Fault>
    ensures did { IfOk result (λ end. HaveRun M.means P.did crew.workers end.totals end.world.base end.world.log) }
    ensures commits { IfOk result (λ end. IsEach P.did crew.workers (λ s. s.commits) end.totals.commits) }
    ensures added { IfOk result (λ end. IsEach P.did crew.workers (λ s. s.added) end.totals.added) }
    ensures taken { IfOk result (λ end. IsEach P.did crew.workers (λ s. s.taken) end.totals.taken) }
{
    match run_booked::<Brand, P, R, M>(rt, program, crew, Blanks::new()) {
        Ok(end) => Ok(end),
        Err(fault) => Err(fault),
    }
}

// The run, in a world whose books L names.
fn run_booked<
    L: Books + Send + Sync,
    P: CustomProgram<Meaning = M> + Sync,
    R: AllocGlobal + Threads + Wait + Sync,
    M: Meaning + Send + Sync,
>(rt: &R, program: &P, crew: Crew, blanks: Blanks) -> Result<Ended<M, P::Sink>, Fault>
    requires { AreBlanks blanks L.commits L.added L.taken L.story }
    ensures { IfOk result (λ end. HaveRun M.means P.did crew.workers end.totals end.world.base end.world.log) }
{
    let alloc = rt.alloc();
    let (hall, mut share) = open::<L, P>(alloc, program, crew, blanks)?;
    match work_all(rt, &hall, &mut share) {
        Ok(sinks) => {
            let Hall { shared, .. } = hall;
            finish::<L, P, M>(alloc, shared, share, sinks)
        }
        Err(fault) => {
            drop((hall, share));
            Err(fault)
        }
    }
}

// What all threads are lent.
#[derive(Drop)]
struct Hall<'p, P, M: Meaning, F, L: Books> {
    alloc: Global,
    program: &'p P,
    funs: F,
    crew: Crew,
    shared: Shared<M, L>,
}

type HallOf<'p, P, L> = Hall<
    'p,
    P,
    <P as CustomProgram>::Meaning,
    <P as CustomProgram>::Functions,
    L,
>;

// What a worker leaves: its share and its sink.
#[derive(Drop)]
struct Left<L: Books, S> {
    share: Share<L>,
    sink: S,
}

// What a thread promises that works as this number.
#[derive(Drop)]
struct AsWorker<P> {
    number: u32,
    of: PhantomData<P>,
}

impl<P: CustomProgram, L: Books> Promise<Result<Left<L, P::Sink>, Fault>> for AsWorker<P> {
    ghost kept_by = { λ p r. IfOk r (λ left. P.did p.number left.share × (left.share.parts ≡ 1)) };
}

// Makes the world, and puts it under a lock. The share has all its parts.
fn open<'p, L: Books, P: CustomProgram>(
    alloc: Global,
    program: &'p P,
    crew: Crew,
    blanks: Blanks,
) -> Result<(HallOf<'p, P, L>, Share<L>), Fault>
    requires { AreBlanks blanks L.commits L.added L.taken L.story }
    ensures share { IfOk result (λ r. r.1 ≡ whole r.1.history) }
    ensures crew { IfOk result (λ r. r.0.crew ≡ crew) }
{
    let funs = program.functions();
    let mut declared = Declared::nothing(alloc);
    program.start(&mut declared)?;
    let Declared { start, watches, .. } = declared;
    match Booked::new(alloc, &funs, &start, blanks) {
        Ok((mut booked, share)) => {
            add_watches(&mut booked.world, watches)?;
            let hall = Hall {
                alloc,
                program,
                funs,
                crew,
                shared: Shared::new(booked),
            };
            Ok((hall, share))
        }
        Err((_, MakeFault::Memory)) => Err(Fault::Memory),
        Err((who, fault)) => Err(Fault::Make(who, fault)),
    }
}

fn add_watches<M: Meaning>(world: &mut World<M>, watches: Vec<Watch>) -> Result<(), Fault>
    ensures books { world.new.books ≡ world.old.books }
    ensures log { (world.new.base ≡ world.old.base) × (world.new.log ≡ world.old.log) }
{
    for watch in watches {
        let Watch { who, key } = watch;
        let _ = world.add_watch(who, key)?;
    }
    Ok(())
}

// Has all workers work while the helpers help, and joins their shares. It answers their sinks.
fn work_all<
    L: Books + Send + Sync,
    P: CustomProgram + Sync,
    R: AllocGlobal + Threads + Wait + Sync,
>(rt: &R, hall: &HallOf<'_, P, L>, share: &mut Share<L>) -> Result<Vec<P::Sink>, Fault>
    requires { share.old ≡ whole share.old.history }
    ensures done { OnOk result (HaveDone P.did hall.now.crew.workers share.new) }
    ensures parts { OnOk result (share.new.parts ≡ all_parts) }
{
    let parts = parts(hall.alloc, hall.crew.workers, share)?;
    let left = thread::scope(
        thread::scope_env(),
        rt,
        |scope| -> Result<(Vec<Left<L, P::Sink>>, Vec<P::Sink>), Fault>
            requires { IsSync P.row × IsSend L.row × IsSync L.row × AreFresh parts.items
                × (vec_len parts ≡ hall.now.crew.workers) × (vec_len parts < 2 ^ 32) }
            ensures { IfOk result (λ r. (vec_len r.0 ≡ hall.entry.now.crew.workers)
                × AreLeft P.did 0 (map (λ left. left.share) r.0.items)) }
        { open_hours(scope, rt, hall, parts) },
    );
    let (left, helped) = left?;
    join_all::<L, P>(hall.alloc, share, left, helped)
}

// A part of the share for each worker, by number.
fn parts<L: Books>(
    alloc: Global,
    workers: u32,
    share: &mut Share<L>,
) -> Result<Vec<Share<L>>, AllocError>
    requires { share.old ≡ whole share.old.history }
    ensures parts { IfOk result (λ parts. AreFresh parts.items) }
    ensures count { IfOk result (λ parts. (vec_len parts ≡ workers) × (vec_len parts < 2 ^ 32)) }
    ensures rest { OnOk result (share.new ≡ record (whole share.new.history) { parts = all_parts - workers }) }
{
    let mut parts = Vec::with_capacity(alloc, workers as usize)?;
    for _ in 0..workers {
        let Some(part) = share.split(1) else {
            unreachable!()
        };
        parts.push(part)?;
    }
    Ok(parts)
}

// Starts the helpers and then the workers, and joins the workers; then the helpers do what is left, and are joined too. What the workers
// leave stands by number.
fn open_hours<'s, E, L, P, R>(
    scope: &Scope<'s, E>,
    rt: &'s R,
    hall: &'s HallOf<'s, P, L>,
    parts: Vec<Share<L>>,
) -> Result<(Vec<Left<L, P::Sink>>, Vec<P::Sink>), Fault>
where
    L: Books + Send + Sync + 's,
    P: CustomProgram + Sync + 's,
    R: Threads + Wait + Sync + 's,
    requires { AreFresh parts.items × (vec_len parts ≡ hall.now.crew.workers) × (vec_len parts < 2 ^ 32) }
    ensures { IfOk result (λ r. (vec_len r.0 ≡ hall.now.crew.workers)
        × AreLeft P.did 0 (map (λ left. left.share) r.0.items)) }
{
    let mut helpers = Vec::with_capacity(hall.alloc, hall.crew.helpers as usize)?;
    let mut workers = Vec::with_capacity(hall.alloc, parts.len())?;
    let mut left = Vec::with_capacity(hall.alloc, parts.len())?;
    let mut sinks = Vec::with_capacity(hall.alloc, hall.crew.helpers as usize)?;
    let mut started = start_helpers(scope, rt, hall, &mut helpers);
    if started.is_ok() {
        started = start_workers(scope, rt, hall, parts, &mut workers);
    }
    if started.is_err() {
        hall.shared.close(rt);
    }
    let worked = join_workers::<L, P, R>(rt, workers, &mut left);
    hall.shared.close(rt);
    let helped = join_helpers(rt, helpers, &mut sinks);
    first_fault(first_fault(started, worked), helped)?;
    Ok((left, sinks))
}

// The first fault, but one that says that all was over only if there is no other.
fn first_fault(one: Result<(), Fault>, other: Result<(), Fault>) -> Result<(), Fault>
    ensures { OnOk result ((is_ok one ≡ true) × (is_ok other ≡ true)) }
{
    match one {
        Ok(()) => other,
        Err(Fault::Closed) => match other {
            Ok(()) => Err(Fault::Closed),
            Err(fault) => Err(fault),
        },
        Err(fault) => Err(fault),
    }
}

// Stores what a thread leaves with what the others left.
fn keep<T: Drop>(all: &mut Vec<T>, one: Result<T, Fault>) -> Result<(), Fault>
    ensures { OnOk result ((x : T) × (one ≡ Ok x) × (all.new.items ≡ all.old.items ++ x ∷ [])
        × (vec_len all.new ≡ vec_len all.old + 1)) }
{
    match all.push(one?) {
        Ok(()) => Ok(()),
        Err(_) => Err(Fault::Memory),
    }
}

fn start_helpers<'s, E, L, P, R>(
    scope: &Scope<'s, E>,
    rt: &'s R,
    hall: &'s HallOf<'s, P, L>,
    helpers: &mut Vec<JoinHandle<Result<P::Sink, Fault>>>,
) -> Result<(), Fault>
where
    L: Books + Send + Sync + 's,
    P: CustomProgram + Sync + 's,
    R: Wait + Sync + 's,
{
    for _ in 0..hall.crew.helpers {
        let Ok(handle) = scope.spawn(move || help(rt, hall)) else {
            return Err(Fault::Memory);
        };
        if helpers.push(handle).is_err() {
            return Err(Fault::Memory);
        }
    }
    Ok(())
}

fn start_workers<'s, E, L, P, R>(
    scope: &Scope<'s, E>,
    rt: &'s R,
    hall: &'s HallOf<'s, P, L>,
    parts: Vec<Share<L>>,
    workers: &mut Vec<PromisedHandle<Result<Left<L, P::Sink>, Fault>, AsWorker<P>>>,
) -> Result<(), Fault>
where
    L: Books + Send + Sync + 's,
    P: CustomProgram + Sync + 's,
    R: Wait + Sync + 's,
    requires fresh { AreFresh parts.items }
    requires count { (vec_len parts ≡ hall.now.crew.workers) × (vec_len parts < 2 ^ 32) }
    requires none { (workers.old.items ≡ []) × (vec_len workers.old ≡ 0) }
    ensures numbers { AreNumbers 0 (map (λ h. h.promise.number) workers.new.items) }
    ensures all { OnOk result (vec_len workers.new ≡ hall.now.crew.workers) }
{
    let mut number = 0u32;
    for part in parts {
        let promise = AsWorker {
            number,
            of: PhantomData,
        };
        let Ok(handle) = scope.spawn_with(
            promise,
            move || -> Result<Left<L, P::Sink>, Fault>
                requires { HasDoneNothing part × (part.parts ≡ 1) }
                ensures { IfOk result (λ left. P.did number left.share × (left.share.parts ≡ 1)) }
            { work_in(rt, hall, number, part) },
        ) else {
            return Err(Fault::Memory);
        };
        if workers.push(handle).is_err() {
            return Err(Fault::Memory);
        }
        number = number.saturating_add(1);
    }
    Ok(())
}

// What a worker does in its thread. If it ends early nobody is to wait for what it would have done.
fn work_in<L: Books, P: CustomProgram, R: Wait>(
    rt: &R,
    hall: &HallOf<'_, P, L>,
    number: u32,
    share: Share<L>,
) -> Result<Left<L, P::Sink>, Fault>
    requires { HasDoneNothing share × (share.parts ≡ 1) }
    ensures { IfOk result (λ left. P.did number left.share × (left.share.parts ≡ 1)) }
{
    let mut worker = worker_of(rt, hall, number, share);
    match hall.program.work(&mut worker) {
        Ok(()) => {
            let Worker { share, sink, .. } = worker;
            Ok(Left { share, sink })
        }
        Err(fault) => {
            drop(worker);
            hall.shared.close(rt);
            Err(fault)
        }
    }
}

// The worker of a number, as it begins.
fn worker_of<'h, L: Books, P: CustomProgram, R: Wait>(
    rt: &'h R,
    hall: &'h HallOf<'_, P, L>,
    number: u32,
    share: Share<L>,
) -> Worker<'h, L, R, P::Meaning, P::Functions, P::Sink>
    requires { share.parts ≡ 1 }
    ensures { result ≡ record {
      number = number;
      next = record { worker = number; step = 0 };
      workers = hall.now.crew.workers;
      tries = max hall.now.crew.tries 1;
      point = 0;
      share = share;
      sink = result.sink;
    } }
{
    Worker {
        rt,
        alloc: hall.alloc,
        shared: &hall.shared,
        funs: hall.funs,
        number,
        stamps: Stamps::of(number, hall.crew.workers),
        tries: hall.crew.tries.max(1),
        point: 0,
        share,
        sink: hall.program.sink(),
    }
}

// Runs actions, whichever agent is ready, until all is closed and nothing is left to do. A helper that can't go on closes all, so that nobody
// waits for what isn't run any more.
fn help<L: Books, P: CustomProgram, R: Wait>(
    rt: &R,
    hall: &HallOf<'_, P, L>,
) -> Result<P::Sink, Fault> {
    let mut sink = hall.program.sink();
    for _ in rt.forever() {
        match hall
            .shared
            .work_once(rt, hall.alloc, &hall.funs, &mut Open, &mut sink)
        {
            Ok(Worked::Did(_agent)) => {}
            Ok(Worked::Closed) => return Ok(sink),
            Err(fault) => {
                hall.shared.close(rt);
                return Err(Fault::from(fault));
            }
        }
    }
    unreachable!()
}

// Waits for each worker, by number, and takes what it leaves.
fn join_workers<L: Books, P: CustomProgram, R: Threads>(
    rt: &R,
    workers: Vec<PromisedHandle<Result<Left<L, P::Sink>, Fault>, AsWorker<P>>>,
    left: &mut Vec<Left<L, P::Sink>>,
) -> Result<(), Fault>
    requires numbers { AreNumbers 0 (map (λ h. h.promise.number) workers.items) }
    requires none { (left.old.items ≡ []) × (vec_len left.old ≡ 0) }
    ensures count { OnOk result (vec_len left.new ≡ vec_len workers) }
    ensures left { OnOk result (AreLeft P.did 0 (map (λ left. left.share) left.new.items)) }
{
    let mut ended = Ok(());
    for handle in workers {
        let worked = keep(left, handle.join(rt));
        ended = first_fault(ended, worked);
    }
    ended
}

fn join_helpers<S: Drop, R: Threads>(
    rt: &R,
    helpers: Vec<JoinHandle<Result<S, Fault>>>,
    sinks: &mut Vec<S>,
) -> Result<(), Fault> {
    let mut ended = Ok(());
    for handle in helpers {
        let helped = keep(sinks, handle.join(rt));
        ended = first_fault(ended, helped);
    }
    ended
}

// Joins the shares of all workers, and answers the sinks: theirs, and then those of the helpers.
fn join_all<L: Books, P: CustomProgram>(
    alloc: Global,
    share: &mut Share<L>,
    left: Vec<Left<L, P::Sink>>,
    helped: Vec<P::Sink>,
) -> Result<Vec<P::Sink>, Fault>
    requires left { AreLeft P.did 0 (map (λ left. left.share) left.items) }
    requires rest { share.old ≡ record (whole share.old.history) { parts = all_parts - vec_len left } }
    requires few { vec_len left < all_parts }
    ensures done { OnOk result (HaveDone P.did (vec_len left) share.new) }
    ensures parts { OnOk result (share.new.parts ≡ all_parts) }
{
    let mut sinks = Vec::with_capacity(alloc, left.len())?;
    for one in left {
        let Left { share: part, sink } = one;
        if let Err(part) = share.join(part) {
            drop(part);
            return Err(Fault::Memory);
        }
        sinks.push(sink)?;
    }
    let mut helped = helped;
    if sinks.append(&mut helped).is_err() {
        return Err(Fault::Memory);
    }
    Ok(sinks)
}

// Takes the world out, after it has compared its log with what the workers did.
fn finish<L: Books, P: CustomProgram<Meaning = M>, M: Meaning>(
    alloc: Global,
    shared: Shared<M, L>,
    share: Share<L>,
    sinks: Vec<P::Sink>,
) -> Result<Ended<M, P::Sink>, Fault>
    requires { share.parts ≡ all_parts }
    ensures { IfOk result (λ end. ((end.totals.commits ≡ share.commits) × (end.totals.added ≡ share.added)
        × (end.totals.taken ≡ share.taken)) × ReceiptsMatch end.world.base.point end.world.log share.receipts
        × InOrder end.world.base.point end.world.log
        × HasEnded M.means share.history end.world.base end.world.log) }
{
    match shared.finish(alloc, share) {
        Ok((world, totals)) => Ok(Ended {
            world,
            totals,
            sinks,
        }),
        Err((booked, share, fault)) => {
            drop((booked, share));
            Err(Fault::from(fault))
        }
    }
}
