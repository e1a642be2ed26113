//! The states of a world in which calls are made. It has three refs, a tally, an atom, and the agents g, h, i and j.
ghost use Rattle.ref_world.specs.Shares.{AreBlanks};

use crate::calls::Call;
use ref_agents::ErrorMode;
use ref_fun::codes::{CONJ, PLUS};
use ref_fun::{Action, Carries, Carry, Core, CoreFunctions, MOST_CARRIES};
use ref_log::{Stamp, Who};
use ref_play::{Act, Event, Sim};
use ref_tx::Tx;
use ref_world::{Blanks, Books, Start};
use std::alloc::Global;
use std::marker::Brand;
use tests_shared::worlds::{Stop, action, add, agent, at_least, done, one_arg, plain_start, value};

const TALLY: u32 = 3;

/// The agents. The state of i is a vector, that of the others an integer. Where a world is full, h is failed, and sends for j are held.
pub(crate) const G: u32 = 0;

pub(crate) const H: u32 = 1;

pub(crate) const I: u32 = 2;

pub(crate) const J: u32 = 3;

/// To whom transactions send, but for the one whose sends are held.
pub(crate) const SENT_TO: &[u32] = &[G, I, G];

/// The references that have a watch, one of each kind.
pub(crate) const WATCHED: &[Who] = &[Who::Ref(0), Who::Atom(0), Who::Agent(G)];

/// How many states there are. The first is that of a world with one entry, without which the end of a shared world makes no request.
/// The others are full, each with one entry, and an action of g and of i, more than the one before, so that each list is full in one.
pub(crate) const STATES: u32 = 10;

fn start(alloc: Global) -> Result<Start, Stop> {
    let mut start = plain_start(alloc, "0 0 0 0", "0")?;
    if let Some(tally) = start.refs.get_mut(TALLY as usize) {
        tally.tally = true;
    }
    for text in ["0", "0", "[]", "0"] {
        start.agents.push(agent(value(alloc, text)?, None))?;
    }
    Ok(start)
}

/// The action that changes an agent: `+ 1`, or `conj 1` of a vector.
pub(crate) fn action_for(alloc: Global, g: u32) -> Result<Action, Stop> {
    let code = if g == I { CONJ } else { PLUS };
    Ok(action(alloc, code, "1")?)
}

// The same, which carries sends to g, h and i.
fn carrying(alloc: Global, to: u32) -> Result<Action, Stop> {
    let mut carries = Vec::new(alloc);
    for g in G..J {
        let Action { code, args, .. } = action_for(alloc, g)?;
        carries.push(Carry { g, code, args })?;
    }
    let mut action = action_for(alloc, to)?;
    if carries.len() <= MOST_CARRIES {
        action.carries = Carries::of(alloc, carries)?;
    }
    Ok(action)
}

/// What is done in a transaction: a ref is altered, the tally commuted, and each of these agents gets an action.
pub(crate) fn body(alloc: Global, tx: &mut Tx<Core>, r: u32, agents: &[u32]) -> Result<(), Stop> {
    add(alloc, tx, r, "5")?;
    let args = one_arg(alloc, "1")?;
    let _ = done(tx.commute(alloc, &CoreFunctions, TALLY, PLUS, args))?;
    for g in agents {
        done(tx.send(alloc, &CoreFunctions, *g, action_for(alloc, *g)?))?;
    }
    Ok(())
}

// ---- Events

fn push(all: &mut Vec<Event>, act: Act) -> Result<(), Stop> {
    Ok(all.push(Event { actor: 0, act })?)
}

// Runs so many actions of agents that are ready.
fn push_actions(all: &mut Vec<Event>, times: u32) -> Result<(), Stop> {
    for _ in 0..times {
        push(all, Act::Take)?;
        push(all, Act::Run)?;
        push(all, Act::Finish)?;
    }
    Ok(())
}

// What `body` does, and a commit.
fn push_commit(alloc: Global, all: &mut Vec<Event>, r: u32, agents: &[u32]) -> Result<(), Stop> {
    push(all, Act::Begin)?;
    push(all, Act::Alter(r, PLUS, one_arg(alloc, "5")?))?;
    push(all, Act::Commute(TALLY, PLUS, one_arg(alloc, "1")?))?;
    for g in agents {
        push(all, Act::SendInTx(*g, action_for(alloc, *g)?))?;
    }
    push(all, Act::Commit(Stamp { worker: 1, step: r }))
}

// Watches and a rule. An action of i is passed over, one of h fails, and another one waits then.
fn push_acting(alloc: Global, all: &mut Vec<Event>) -> Result<(), Stop> {
    for who in WATCHED {
        push(all, Act::AddWatch(*who, value(alloc, ":k")?))?;
    }
    let rule = Some(at_least(alloc, "0")?);
    push(all, Act::SetValidator(Who::Agent(G), rule))?;
    push(all, Act::SetErrorMode(I, ErrorMode::Continue))?;
    for g in [I, H] {
        push(all, Act::Send(g, action(alloc, PLUS, ":k")?))?;
        push(all, Act::Send(g, action_for(alloc, g)?))?;
    }
    push_actions(all, 3)
}

// What makes a state, and what comes before a call. The sends of the commit at point 2 are held, and an action waits behind them. Where
// an action is to be run, its agent alone is ready, and had the last turn.
fn events(alloc: Global, state: u32, call: Call) -> Result<Vec<Event>, Stop> {
    let mut all = Vec::new(alloc);
    let mut changes = 1;
    if state > 0 {
        push_acting(alloc, &mut all)?;
        push_commit(alloc, &mut all, 0, SENT_TO)?;
        push(&mut all, Act::Release(1))?;
        push_actions(&mut all, 3)?;
        push_commit(alloc, &mut all, 1, &[J, H])?;
        push(&mut all, Act::Send(J, action_for(alloc, J)?))?;
        changes = state.saturating_add(24);
    }
    for _ in 0..changes {
        push(&mut all, Act::Reset(0, value(alloc, "5")?))?;
        push(&mut all, Act::Send(G, action_for(alloc, G)?))?;
        push(&mut all, Act::Send(I, action_for(alloc, I)?))?;
        push_actions(&mut all, 2)?;
    }
    if let Call::Work(g, carries) = call {
        push(&mut all, Act::Send(g, action_for(alloc, g)?))?;
        push_actions(&mut all, 1)?;
        let of_g = if carries {
            carrying(alloc, g)
        } else {
            action_for(alloc, g)
        };
        push(&mut all, Act::Send(g, of_g?))?;
    }
    if let Call::End = call {
        push(&mut all, Act::Send(G, action_for(alloc, G)?))?;
        push(&mut all, Act::Begin)?;
        push(&mut all, Act::Take)?;
        push(&mut all, Act::Run)?;
    }
    Ok(all)
}

/// What is done with a world, and by whom it is made.
pub(crate) trait Use<R>: Drop {
    type Out;

    fn used<L: Books>(self, rt: &R, sim: Sim<Core, L>) -> Self::Out;
}

fn open<R: AllocGlobal, W: Use<R>, L: Books>(
    rt: &R,
    start: &Start,
    events: &[Event],
    what: W,
    blanks: Blanks,
) -> Result<W::Out, Stop>
    requires { AreBlanks blanks L.commits L.added L.taken L.story }
{
    let (alloc, funs) = (rt.alloc(), &CoreFunctions);
    let Ok(mut sim) = Sim::<Core, L>::new(alloc, funs, start, blanks) else {
        return Err(Stop::Refused);
    };
    if sim.served_by(funs) && sim.play(alloc, funs, events).is_ok() {
        return Ok(what.used(rt, sim));
    }
    drop(sim.end());
    Err(Stop::Refused)
}

/// Uses a new world in a state, ready for a call.
pub(crate) fn opened<R: AllocGlobal, W: Use<R>>(
    rt: &R,
    state: u32,
    call: Call,
    what: W,
) -> Result<W::Out, Stop> {
    let (start, events) = (start(rt.alloc())?, events(rt.alloc(), state, call)?);
    open::<R, W, Brand>(rt, &start, events.as_slice(), what, Blanks::new())
}
