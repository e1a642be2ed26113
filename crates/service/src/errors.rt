//! The errors of actions, which no agent stores if it goes on.
ghost use Rattle.std.specs.Prelude.{◌≡◌, ◌+◌, ◌-◌, ◌^◌, min};
ghost use Rattle.service.specs.Errors.{errors_in};

use ref_agents::Finished;
use ref_log::Notice;
use ref_shared::WatchSink;

/// A sink that counts the actions that failed, as `:error-handler` in Clojure would. Each thread of the pool has one of its own.
#[derive(Clone, Copy, Debug, Default, Drop)]
pub(crate) struct Errors {
    pub(crate) count: u64,
}

impl WatchSink for Errors {
    ghost use Rattle.std.specs.Prelude.{◌≡◌, ◌+◌, ◌-◌, ◌^◌, min};
    ghost use Rattle.service.specs.Errors.{errors_in};

    ghost ends = { λ before _ finished after. after.count ≡ min (before.count + errors_in finished) (2 ^ 64 - 1) };

    fn told(&mut self, _notice: &Notice) {}

    fn ended(&mut self, _agent: u32, finished: &Finished) {
        self.hear(finished);
    }
}

impl Errors {
    // Counts an error if the action ended with one.
    fn hear(&mut self, finished: &Finished)
        ensures { self.new.count ≡ min (self.old.count + errors_in finished.now) (2 ^ 64 - 1) }
    {
        let errors = match finished {
            Finished::Changed(_) => 0,
            Finished::Failed(_) | Finished::Continued(_) => 1,
        };
        self.count = self.count.saturating_add(errors);
    }

    /// The errors of several sinks, added up.
    pub(crate) fn sum(sinks: &[Errors]) -> Errors {
        let mut all = Errors::default();
        for errors in sinks {
            all = all.with(*errors);
        }
        all
    }

    fn with(self, other: Errors) -> Errors {
        Errors {
            count: self.count.saturating_add(other.count),
        }
    }
}
