//! When a shared world releases what an action carried: after its sink got the notices of that action and heard how it ended. That it isn't
//! where the action failed is among the rows of `tests_shared`.
use ref_agents::Finished;
use ref_fun::codes::PLUS;
use ref_fun::{Carries, Core, CoreFunctions};
use ref_log::{Notice, Who};
use ref_shared::{Open, Shared, WatchSink, Worked};
use ref_world::{Books, Share};
use std::alloc::Global;
use std::sync::Wait;
use std::test::Fail;
use tests_shared::jobs::{CLOSED, Work, agents_at, two_agents, work};
use tests_shared::scenarios::{CommitCount, Scenario, run_to_end};
use tests_shared::steps::{send, watch};
use tests_shared::worlds::{Stop, action, carry, done};

// For g `+ 1`, which carries `+ 4` for h, and behind it `+ 2`.
fn send_two<R: Wait, L: Books>(
    rt: &R,
    alloc: Global,
    shared: &Shared<Core, L>,
) -> Result<(), Stop> {
    let mut action = action(alloc, PLUS, "1")?;
    action.carries = Carries::of(alloc, vec![in alloc; carry(alloc, 1, "4")?]?)?;
    done(shared.send(rt, 0, action))?;
    send(rt, alloc, shared, 0, PLUS, "2")
}

// A sink that works and then releases what g carried, and stores what both calls say.
#[derive(Drop)]
struct Releaser<'a, R: Wait, L: Books> {
    rt: &'a R,
    alloc: Global,
    shared: &'a Shared<Core, L>,
    told: Option<(Work, bool)>,
}

impl<'a, R: Wait, L: Books> WatchSink for Releaser<'a, R, L> {
    fn told(&mut self, _notice: &Notice) {
        let worked = work(self.rt, self.alloc, self.shared);
        self.told = Some((worked, self.shared.release_carried(self.rt, 0)));
    }
}

// What came of both: the first action, what the sink saw, whether anything was still to be released, and two more calls.
#[derive(Debug, Drop, PartialEq)]
struct Seen {
    worked: Work,
    at_sink: Option<(Work, bool)>,
    later: bool,
    next: (Work, Work),
    values: (Option<i64>, Option<i64>),
}

#[derive(Drop)]
struct AtSink;

impl<R: Wait> Scenario<R> for AtSink {
    type Outcome = Seen;

    fn run<L: Books>(
        &self,
        rt: &R,
        alloc: Global,
        shared: &Shared<Core, L>,
        share: &mut Share<L>,
    ) -> Result<Seen, Stop> {
        watch(rt, alloc, shared, Who::Agent(0), ":k")?;
        send_two(rt, alloc, shared)?;
        shared.close(rt);
        let mut sink = Releaser {
            rt,
            alloc,
            shared,
            told: None,
        };
        let worked = shared.work_once(rt, alloc, &CoreFunctions, &mut Open, &mut sink);
        let later = shared.release_carried(rt, 0);
        let next = (work(rt, alloc, shared), work(rt, alloc, shared));
        Ok(Seen {
            worked,
            at_sink: sink.told,
            later,
            next,
            values: agents_at(rt, shared, share.front()),
        })
    }
}

#[test]
fn what_was_carried_is_held_while_the_sink_is_told(rt: HostRuntime) -> Result<(), Fail> {
    let alloc = rt.alloc();
    let (seen, _) = run_to_end(&rt, alloc, two_agents(alloc)?, &AtSink, &CommitCount)?;
    let wanted = Seen {
        worked: Ok(Worked::Did(0)),
        at_sink: Some((CLOSED, true)),
        later: false,
        next: (Ok(Worked::Did(1)), Ok(Worked::Did(0))),
        values: (Some(3), Some(4)),
    };
    assert_eq!(rt; seen, wanted);
    Ok(())
}

// A sink that works where an action ended, and stores what that call and a fold say.
#[derive(Drop)]
struct Ender<'a, R: Wait, L: Books> {
    rt: &'a R,
    alloc: Global,
    shared: &'a Shared<Core, L>,
    ended: Option<(Work, Option<bool>)>,
}

impl<'a, R: Wait, L: Books> WatchSink for Ender<'a, R, L> {
    ghost ends = { λ _ _ _ _. Unit {0} };

    fn told(&mut self, _notice: &Notice) {}

    fn ended(&mut self, agent: u32, _finished: &Finished) {
        let worked = work(self.rt, self.alloc, self.shared);
        self.ended = Some((worked, self.shared.fold_agent(self.rt, agent).ok()));
    }
}

// What the sink saw, what a fold says after the release, and two more calls.
#[derive(Debug, Drop, PartialEq)]
struct Heard {
    at_sink: Option<(Work, Option<bool>)>,
    folded: Option<bool>,
    next: (Work, Work),
    values: (Option<i64>, Option<i64>),
}

#[derive(Drop)]
struct AtEnd;

impl<R: Wait> Scenario<R> for AtEnd {
    type Outcome = Heard;

    fn run<L: Books>(
        &self,
        rt: &R,
        alloc: Global,
        shared: &Shared<Core, L>,
        share: &mut Share<L>,
    ) -> Result<Heard, Stop> {
        send_two(rt, alloc, shared)?;
        shared.close(rt);
        let mut sink = Ender {
            rt,
            alloc,
            shared,
            ended: None,
        };
        let _ = done(shared.work_once(rt, alloc, &CoreFunctions, &mut Open, &mut sink))?;
        let folded = shared.fold_agent(rt, 0).ok();
        let next = (work(rt, alloc, shared), work(rt, alloc, shared));
        Ok(Heard {
            at_sink: sink.ended,
            folded,
            next,
            values: agents_at(rt, shared, share.front()),
        })
    }
}

// Nor is the account folded meanwhile: the release looks at the action that carried it.
#[test]
fn what_was_carried_is_held_while_the_sink_hears_of_the_end(rt: HostRuntime) -> Result<(), Fail> {
    let alloc = rt.alloc();
    let (heard, _) = run_to_end(&rt, alloc, two_agents(alloc)?, &AtEnd, &CommitCount)?;
    let wanted = Heard {
        at_sink: Some((CLOSED, Some(false))),
        folded: Some(true),
        next: (Ok(Worked::Did(1)), Ok(Worked::Did(0))),
        values: (Some(3), Some(4)),
    };
    assert_eq!(rt; heard, wanted);
    Ok(())
}
