//! What a program is, and what comes of one.
ghost use Rattle.std.specs.Prelude.{◌≡◌, ℕ, Some, IfOk, OnOk};
ghost use Rattle.ref_program.specs.Seen.{HasDoneNothing};
ghost use Rattle.ref_world.specs.References.{value_at};
ghost use Rattle.ref_world.specs.Seen.{ShareSeen};

use crate::declared::Declared;
use crate::faults::Fault;
use crate::workers::Worker;
use ref_fun::{Core, CoreFunctions, Functions, Meaning};
use ref_log::Who;
use ref_shared::{Quiet, WatchSink};
use ref_value::Value;
use ref_world::{Books, Totals, World};
use std::sync::Wait;

/// How often a transaction is tried where a crew doesn't say: as often as in Clojure.
pub const TRIES: u32 = 10_000;

/// How many threads there are: workers, and helpers, who run what is sent to agents; and how often a transaction is tried that is in
/// conflict, at least once.
#[derive(Clone, Copy, Debug, Drop, PartialEq, Eq)]
pub struct Crew {
    pub workers: u32,
    pub helpers: u32,
    pub tries: u32,
}

impl Crew {
    pub fn of(workers: u32, helpers: u32) -> Crew
        ensures { (result.workers ≡ workers) × (result.helpers ≡ helpers) }
    {
        Crew {
            workers,
            helpers,
            tries: TRIES,
        }
    }

    /// The same, whose transactions are tried so often.
    pub fn with_tries(self, tries: u32) -> Crew
        ensures { result ≡ record self { tries = tries } }
    {
        Crew { tries, ..self }
    }
}

/// A program of threads over one world, whose functions are those of Core. [`run`](crate::run) runs it.
pub trait Program {
    /// What the worker of this number has done by its share, if its work ended well. By default nothing is said.
    ghost did: { ℕ → ShareSeen → Type 0 } = { λ _ _. Unit {0} };

    /// What the world begins with.
    fn start(&self, world: &mut Declared) -> Result<(), Fault>;

    /// What a worker does. A fault ends the run: the others are no longer waited for by who waits, and the first fault is returned.
    fn work<L: Books, R: Wait>(&self, worker: &mut Worker<'_, L, R>) -> Result<(), Fault>
        requires { HasDoneNothing worker.old.share }
        ensures { OnOk result (did worker.old.number worker.new.share) };
}

/// A program with functions of its own, or with sinks that get its notices. [`run_custom`](crate::run_custom) runs it.
pub trait CustomProgram {
    /// What the codes of functions mean.
    type Meaning: Meaning + Send + Sync;

    /// What functions are called by.
    type Functions: Functions<Self::Meaning> + Copy + Drop + Send + Sync;

    /// What gets the notices of watches, and hears how actions end: each thread has one.
    type Sink: WatchSink + Drop + Send;

    /// What the worker of this number has done by its share, if its work ended well. By default nothing is said.
    ghost did: { ℕ → ShareSeen → Type 0 } = { λ _ _. Unit {0} };

    fn functions(&self) -> Self::Functions;

    /// The sink of a thread, as it begins.
    fn sink(&self) -> Self::Sink;

    /// What the world begins with.
    fn start(&self, world: &mut Declared) -> Result<(), Fault>;

    /// What a worker does. A fault ends the run, as of [`Program::work`].
    fn work<L: Books, R: Wait>(
        &self,
        worker: &mut Worker<'_, L, R, Self::Meaning, Self::Functions, Self::Sink>,
    ) -> Result<(), Fault>
        requires { HasDoneNothing worker.old.share }
        ensures { OnOk result (did worker.old.number worker.new.share) };
}

// A program whose functions are Core's, as one of any meaning.
#[derive(Drop)]
pub(crate) struct OfCore<'p, P> {
    pub(crate) program: &'p P,
}

impl<'p, P: Program> CustomProgram for OfCore<'p, P> {
    type Meaning = Core;

    type Functions = CoreFunctions;

    type Sink = Quiet;

    ghost did = { P.did };

    fn functions(&self) -> CoreFunctions {
        CoreFunctions
    }

    fn sink(&self) -> Quiet {
        Quiet
    }

    fn start(&self, world: &mut Declared) -> Result<(), Fault> {
        self.program.start(world)
    }

    fn work<L: Books, R: Wait>(&self, worker: &mut Worker<'_, L, R>) -> Result<(), Fault>
        requires { HasDoneNothing worker.old.share }
        ensures { OnOk result (P.did worker.old.number worker.new.share) }
    {
        self.program.work(worker)
    }
}

/// What comes of a run: the world that is taken out, what all its workers did in sum, and the sinks, those of the workers by number and then
/// those of the helpers.
#[derive(Drop)]
pub struct Ended<M: Meaning = Core, S: WatchSink = Quiet> {
    pub world: World<M>,
    pub totals: Totals,
    pub sinks: Vec<S>,
    ghost commits: { totals.commits ≡ world.books.commits },
    ghost added: { totals.added ≡ world.books.added },
    ghost taken: { totals.taken ≡ world.books.taken },
}

impl<M: Meaning, S: WatchSink> Ended<M, S> {
    /// The value of a reference at the end.
    pub fn value_of(&self, who: Who) -> Result<&Value, Fault>
        ensures { IfOk result (λ v. value_at self.now.world who ≡ Some v.now) }
    {
        self.world.value_of(who).ok_or(Fault::NoSuch(who))
    }
}
