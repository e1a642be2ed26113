//! The shop: its world, and who does what.
use crate::errors::Errors;
use crate::folding::keep_folding;
use crate::selling::sell_all;
use ref_program::prelude::*;

/// How many threads sell. The refs 0 to 3 are their counters: how many pieces were sold there.
pub(crate) const COUNTERS: u32 = 4;

/// The counter that they share.
pub(crate) const SHARED_COUNTER: u32 = 4;

/// The tally.
pub(crate) const TAKINGS: u32 = 5;

/// The takings up to which all is folded, or is about to be.
pub(crate) const FOLDED: u32 = 6;

/// How many threads have made all their sales.
pub(crate) const GONE: u32 = 7;

/// The agents 0 and 1 are logs: how many lines they took.
pub(crate) const LOGS: u32 = 2;

/// The shop, and how many sales each thread is to make.
#[derive(Drop)]
pub(crate) struct Shop {
    pub(crate) sales: u64,
}

impl CustomProgram for Shop {
    type Meaning = Core;

    type Functions = CoreFunctions;

    // Each thread counts the actions that failed.
    type Sink = Errors;

    fn functions(&self) -> CoreFunctions {
        CoreFunctions
    }

    fn sink(&self) -> Errors {
        Errors::default()
    }

    fn start(&self, world: &mut Declared) -> Result<(), Fault> {
        for r in 0..=GONE {
            if r == TAKINGS {
                world.make_tally("0")?;
            } else {
                world.make_ref("0")?;
            }
        }
        // A log passes over a line that it can't take, and goes on.
        for _ in 0..LOGS {
            world.make_agent("0", ErrorMode::Continue)?;
        }
        Ok(())
    }

    fn work<L: Books, R: Wait>(
        &self,
        worker: &mut Worker<'_, L, R, Core, CoreFunctions, Errors>,
    ) -> Result<(), Fault> {
        if worker.number() < COUNTERS {
            sell_all(worker, self.sales)
        } else {
            keep_folding(worker)
        }
    }
}
