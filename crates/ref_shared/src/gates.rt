//! What is called between the steps of a transaction and of an action.
ghost use Rattle.std.specs.Prelude.{◌≡◌, ℕ};
ghost use Rattle.ref_agents.specs.declared.ends.Finished.{Finished};
ghost use Rattle.ref_log.specs.declared.notices.Notice.{Notice};
ghost use Rattle.ref_shared.specs.Sinks.{Ends, TakesAll, TakesEnd, notices_in};

use ref_agents::Finished;
use ref_log::Notice;

/// Where a transaction or an action stands.
#[derive(Clone, Copy, Debug, Drop, PartialEq, Eq)]
pub enum Spot {
    BeforeBody,
    AfterBody,
    AfterCommit,
    BeforeAction,
    AfterAction,
}

/// What is called at each [`Spot`], with the lock free: it may wait for other threads, as tests of what comes between do.
pub trait Gate {
    fn pass(&mut self, spot: Spot);
}

/// Who gets the notices for watches, with the lock free: of one commit or one action in order. Between two of them
/// there is none, since two threads deliver side by side. It also hears how each action ended, if it defines `ended`.
pub trait WatchSink {
    // What taking a notice does to the sink, where its implementer says so.
    ghost takes: { Self → Notice → Self → Type 0 } = { λ _ _ _. Unit {0} };

    // What the end of an action does to the sink: nothing, unless its implementer says otherwise.
    ghost ends: { Self → ℕ → Finished → Self → Type 0 } = { λ before _ _ after. after ≡ before };

    fn told(&mut self, notice: &Notice)
        ensures { takes self.old notice.now self.new };

    /// An action of this agent ended. By default it does nothing. [`Shared::work_once`](crate::Shared::work_once) calls it for each
    /// action that it ends, also for one that failed or was passed over, so it is for what Clojure's `:error-handler` is for.
    ///
    /// It is called with the lock free, after the notices of the action, and before what the action carried is released: nothing
    /// that was carried runs before it returns. It isn't called for an action that is put back. Calls for two actions of one agent
    /// may come side by side, from two threads: the agent's next action may be taken before it is called, unless something was carried.
    fn ended(&mut self, _agent: u32, _finished: &Finished)
        ensures { Ends ends self.old _agent _finished.now self.new }
    {}
}

/// A gate that lets all pass.
#[derive(Clone, Copy, Debug, Drop)]
pub struct Open;

impl Gate for Open {
    fn pass(&mut self, _spot: Spot) {}
}

/// A sink that drops all notices.
#[derive(Clone, Copy, Debug, Drop)]
pub struct Quiet;

impl WatchSink for Quiet {
    ghost takes = { λ before _ after. after ≡ before };

    fn told(&mut self, _notice: &Notice) {}
}

// Delivers the notices of an action that ended, and then how it ended.
pub(crate) fn tell_end<S: WatchSink>(sink: &mut S, agent: u32, finished: &Finished)
    ensures { TakesEnd S.takes S.ends sink.old agent finished.now sink.new }
{
    tell_changed(sink, finished);
    sink.ended(agent, finished);
}

// Delivers the notices of an action that ended.
fn tell_changed<S: WatchSink>(sink: &mut S, finished: &Finished)
    ensures { TakesAll S.takes sink.old (notices_in finished.now) sink.new }
{
    match finished {
        Finished::Changed(notices) => tell(sink, notices.as_slice()),
        Finished::Failed(_) | Finished::Continued(_) => {}
    }
}

/// Gives a sink each of these notices, in order.
pub fn tell<S: WatchSink>(sink: &mut S, notices: &[Notice])
    ensures { TakesAll S.takes sink.old notices.now sink.new }
{
    for notice in notices {
        sink.told(notice);
    }
}
