//! Worlds of two agents, what is sent to them, and what runs their actions.
use crate::worlds::{Stop, agent, at_least, done, int_at, one_arg, plain_start, value};
use ref_fun::codes::PLUS;
use ref_fun::{Action, Core, CoreFunctions};
use ref_log::Who;
use ref_shared::{Open, Quiet, Shared, WorkFault, Worked};
use ref_tx::Tx;
use ref_world::{Books, Front, Start};
use std::alloc::{AllocError, Global};
use std::sync::Wait;

/// What a call of `work_once` answers.
pub type Work = Result<Worked, WorkFault>;

pub const CLOSED: Work = Ok(Worked::Closed);

pub fn work<R: Wait, L: Books>(rt: &R, alloc: Global, shared: &Shared<Core, L>) -> Work {
    shared.work_once(rt, alloc, &CoreFunctions, &mut Open, &mut Quiet)
}

/// The agent g of number 0, which is 0 and has the rule that it be at least 0, and the agent h of number 1, which is 0.
pub fn two_agents(alloc: Global) -> Result<Start, AllocError> {
    let mut start = plain_start(alloc, "0", "")?;
    let rule = at_least(alloc, "0")?;
    start.agents.push(agent(value(alloc, "0")?, Some(rule)))?;
    start.agents.push(agent(value(alloc, "0")?, None))?;
    Ok(start)
}

/// `send h + 4` in a transaction.
pub fn send_four(alloc: Global, tx: &mut Tx<Core>) -> Result<(), Stop> {
    let args = one_arg(alloc, "4")?;
    done(tx.send(alloc, &CoreFunctions, 1, Action::new(PLUS, args)))
}

/// The numbers that both agents hold now.
pub fn agents_at<L: Books, R: Wait>(
    rt: &R,
    shared: &Shared<Core, L>,
    front: &Front<L>,
) -> (Option<i64>, Option<i64>) {
    (
        int_at(rt, shared, front, Who::Agent(0)),
        int_at(rt, shared, front, Who::Agent(1)),
    )
}
