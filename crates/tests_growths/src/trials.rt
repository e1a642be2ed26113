//! Each call in new worlds, without each of its requests for memory in turn, and the table of all.
use crate::calls::{CASES, Call, Lent, Made, Trial};
use crate::refusing::{EACH, refuse, was_refused};
use crate::worlds::{STATES, Use, opened};
use ref_audit::dump;
use ref_fun::Core;
use ref_play::Sim;
use ref_shared::{GatherFault, Shared};
use ref_value::Value;
use ref_world::{Books, Share, Totals, World};
use std::alloc::Global;
use std::sync::Wait;
use tests_shared::worlds::{Stop, closed, done};

/// What came of a call, and what the world shows then.
#[derive(Drop)]
pub(crate) struct Seen {
    made: Made,
    dump: Value,
    totals: Totals,
}

impl Seen {
    // Whether two worlds show the same.
    fn is_as(&self, other: &Seen) -> bool {
        self.made.later == other.made.later
            && self.dump == other.dump
            && self.totals == other.totals
    }
}

// Ends a shared world. If that was refused, it is done once more.
fn end<R: Input, L: Books>(
    rt: &R,
    alloc: Global,
    shared: Shared<Core, L>,
    share: Share<L>,
    trial: Trial,
    made: &mut Made,
) -> Result<(World<Core>, Totals), Stop> {
    if !share.is_whole() {
        return Err(Stop::Refused);
    }
    if trial.times > 0 && trial.call == Call::Finish {
        refuse(rt, trial.number);
    }
    let ended = shared.finish(alloc, share);
    made.was_hit = was_refused(rt) || made.was_hit;
    match ended {
        Ok(ended) => Ok(ended),
        Err((booked, share, GatherFault::Memory)) => {
            made.was_refused = true;
            closed(alloc, Shared::new(booked), share)
        }
        Err(_) => Err(Stop::Refused),
    }
}

impl<R: AllocGlobal + Input + Wait> Use<R> for Trial {
    type Out = Result<Seen, Stop>;

    fn used<L: Books>(self, rt: &R, sim: Sim<Core, L>) -> Self::Out {
        let alloc = rt.alloc();
        let (booked, mut share) = sim.end();
        let shared = Shared::new(booked);
        let lent = Lent {
            rt,
            alloc,
            shared: &shared,
        };
        let mut made = lent.try_it(&mut share, self)?;
        let (world, totals) = end(rt, alloc, shared, share, self, &mut made)?;
        let dump = done(dump(alloc, &world));
        drop(world);
        Ok(Seen {
            made,
            dump: dump?,
            totals,
        })
    }
}

fn tried<R: AllocGlobal + Input + Wait>(rt: &R, trial: Trial) -> Result<Seen, Stop> {
    opened(rt, trial.state, trial.call, trial)?
}

// What came of all trials of a call.
#[derive(Clone, Copy, Default, Drop)]
struct Counts {
    refused: u32,
    passed: u32,
    wrong: u32,
}

impl Counts {
    // A call without a request was right or not.
    fn judge<R: Print>(&mut self, rt: &R, is_right: bool, trial: Trial) {
        if !is_right {
            self.wrong = self.wrong.saturating_add(1);
            let (state, times, number) = (trial.state, trial.times, trial.number);
            let _ = println!(rt; "state {state}, {times} calls, request {number}: wrong");
        }
    }
}

// Refuses a request of a call, and answers whether the call made it. Made again, it has to answer as one that met no refusal, and to
// show the same; and made once, it has to show the same as where no call was made.
fn try_request<R: AllocGlobal + Input + Print + Wait>(
    rt: &R,
    trial: Trial,
    (never, wanted): (&Seen, &Seen),
    counts: &mut Counts,
) -> Result<bool, Stop> {
    let again = tried(rt, trial)?;
    let (was_hit, was_refused) = (again.made.was_hit, again.made.was_refused);
    let is_right = again.made.answer == wanted.made.answer && again.is_as(wanted);
    counts.judge(rt, is_right && (was_hit || !was_refused), trial);
    if was_refused {
        counts.refused = counts.refused.saturating_add(1);
        let trial = Trial { times: 1, ..trial };
        let once = tried(rt, trial)?;
        counts.judge(rt, once.made.was_refused && once.is_as(never), trial);
    } else if was_hit {
        counts.passed = counts.passed.saturating_add(1);
    }
    Ok(was_hit)
}

// Refuses each request of a call in turn, in each state.
fn try_call<R: AllocGlobal + Input + Print + Wait>(rt: &R, call: Call) -> Result<Counts, Stop> {
    let mut counts = Counts::default();
    for state in 0..STATES {
        let trial = Trial {
            call,
            state,
            times: 2,
            number: 0,
        };
        let wanted = tried(rt, trial)?;
        let never = tried(rt, Trial { times: 0, ..trial })?;
        for number in 1..EACH {
            let trial = Trial { number, ..trial };
            if !try_request(rt, trial, (&never, &wanted), &mut counts)? {
                break;
            }
            if number + 1 == EACH {
                return Err(Stop::Late);
            }
        }
    }
    Ok(counts)
}

/// Prints the table of all calls. It fails if something differed.
pub(crate) fn try_all<R: AllocGlobal + Input + Print + Wait>(rt: &R) -> Result<(), Stop> {
    println!(rt; "call | states | refused | done without | wrong").map_err(|_| Stop::Late)?;
    for (name, call) in CASES {
        let counts = try_call(rt, *call)?;
        let (refused, passed, wrong) = (counts.refused, counts.passed, counts.wrong);
        println!(rt; "{name} | {STATES} | {refused} | {passed} | {wrong}").map_err(|_| Stop::Late)?;
        if wrong > 0 {
            return Err(Stop::Refused);
        }
    }
    Ok(())
}
