//! A pool of four threads for 64 agents in chains of eight, whose actions each send on to the next agent of the chain.
use crate::cases::{Case, check};
use crate::pools::two_pools;
use crate::same::same;
use ref_fun::codes::CONJ;
use ref_fun::{Action, Args, Carries, Carry, Core};
use ref_log::Who;
use ref_shared::Shared;
use ref_value::{Node, Value};
use ref_world::{Books, Start, World};
use std::alloc::{AllocError, Global};
use std::process::Abort;
use std::sync::Wait;
use std::test::Fail;
use std::thread;
use std::thread::Threads;
use std::time::Clock;
use tests_shared::worlds::{Stop, agent, done, plain_start, value};

const AGENTS: u32 = 64;

/// How many agents a chain has.
const CHAIN: u32 = 8;

/// How many actions are sent to each agent.
const ROUNDS: u32 = 6;

/// What is carried is greater by so much.
const CARRIED: i64 = 1_000;

// The agents, each of which collects what it gets in a vector.
pub(crate) fn start(alloc: Global) -> Result<Start, AllocError> {
    let mut start = plain_start(alloc, "", "")?;
    for _ in 0..AGENTS {
        start.agents.push(agent(value(alloc, "[]")?, None))?;
    }
    Ok(start)
}

fn number(alloc: Global, n: i64) -> Result<Args, AllocError> {
    let value = Value::of(Node::Int(n)).map_err(|_| AllocError)?;
    Args::of(alloc, vec![in alloc; value]?)
}

// What goes to the next agent of a chain: nothing from the last one.
fn next(alloc: Global, g: u32, n: i64) -> Result<Carries, AllocError> {
    if g % CHAIN == CHAIN - 1 {
        return Ok(Carries::none());
    }
    let carry = Carry {
        g: g.saturating_add(1),
        code: CONJ,
        args: number(alloc, n.saturating_add(CARRIED))?,
    };
    Carries::of(alloc, vec![in alloc; carry]?)
}

fn link(alloc: Global, g: u32, n: i64) -> Result<Action, AllocError> {
    Ok(Action {
        code: CONJ,
        args: number(alloc, n)?,
        carries: next(alloc, g, n)?,
    })
}

fn send_all<R: Wait, L: Books>(
    rt: &R,
    alloc: Global,
    shared: &Shared<Core, L>,
) -> Result<(), Stop> {
    for n in 0..ROUNDS {
        for g in 0..AGENTS {
            done(shared.send(rt, g, link(alloc, g, i64::from(n))?))?;
        }
    }
    Ok(())
}

// Sends all, and then closes the shared world, also if a send was refused.
fn send_and_close<R: Wait, L: Books>(
    rt: &R,
    alloc: Global,
    shared: &Shared<Core, L>,
) -> Result<(), Stop> {
    let sent = send_all(rt, alloc, shared);
    shared.close(rt);
    sent
}

fn four_pools<L: Books + Send + Sync, R: Threads + Wait + Sync>(
    rt: &R,
    alloc: Global,
    shared: &Shared<Core, L>,
) -> Result<u32, Stop> {
    let (one, two) = thread::join(
        rt,
        move || two_pools(rt, alloc, shared),
        move || two_pools(rt, alloc, shared),
    );
    Ok(one?.saturating_add(two?))
}

// Whether these numbers come in a vector in this order, each once, and nothing else that is as great as the first.
fn are_in_order(state: &Value, first: i64, end: i64) -> bool {
    let mut wanted = first;
    if let Node::Vector(items) = state.node() {
        for item in items {
            if let Node::Int(n) = item.node() {
                if *n >= first && *n < first.saturating_add(CARRIED) {
                    if *n != wanted {
                        return false;
                    }
                    wanted = wanted.saturating_add(1);
                }
            }
        }
    }
    wanted == end
}

// Whether an agent got what it was sent, and what the one before it sent on, each in order.
fn is_right(g: u32, state: &Value) -> bool {
    let rounds = i64::from(ROUNDS);
    let carried = if g % CHAIN == 0 { 0 } else { rounds };
    are_in_order(state, 0, rounds) && are_in_order(state, CARRIED, CARRIED.saturating_add(carried))
}

// The first agent that isn't as it should be.
fn first_wrong(world: &World<Core>) -> Option<u32> {
    for g in 0..AGENTS {
        match world.value_of(Who::Agent(g)) {
            Some(state) if is_right(g, state) => {}
            _ => return Some(g),
        }
    }
    None
}

// Four threads run actions, while another one sends them: six to each agent, and six to each but the first of a chain.
pub(crate) fn see<L: Books + Send + Sync, R: AllocGlobal + Threads + Wait + Clock + Abort + Sync>(
    rt: &R,
    shared: &Shared<Core, L>,
) -> Result<(), Stop> {
    let alloc = rt.alloc();
    let (ran, sent) = thread::join(
        rt,
        move || four_pools(rt, alloc, shared),
        move || send_and_close(rt, alloc, shared),
    );
    same(rt, (ran, sent), (Ok(720), Ok(())));
    Ok(())
}

pub(crate) fn look_at<R: AllocGlobal + Abort>(rt: &R, world: &World<Core>) -> Result<(), Stop> {
    same(rt, first_wrong(world), None);
    Ok(())
}

#[test]
fn four_threads_run_chains_of_agents(rt: HostRuntime) -> Result<(), Fail> {
    check(&rt, Case::Chains)
}
