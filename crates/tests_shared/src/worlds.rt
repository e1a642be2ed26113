//! Making shared worlds and values, and what is read of them.
ghost use Rattle.ref_world.specs.Shares.{AreBlanks};

use crate::numbers::int_of;
use ref_agents::ErrorMode;
use ref_edn::names::is_same;
use ref_edn::{Value, read_all, read_one};
use ref_fun::codes::{AT_LEAST, PLUS};
use ref_fun::{Action, Args, Carry, Core, CoreFunctions, Rule};
use ref_log::{Entry, Notice, Stamp, Who};
use ref_pvec::PVec;
use ref_shared::Shared;
use ref_tx::Tx;
use ref_world::{
    AgentStart, AtomStart, Blanks, Booked, Books, Front, RefStart, Share, Start, Totals, World,
};
use std::alloc::{AllocError, AllocFailed, Global};
use std::sync::Wait;

/// The stamp of a commit where nothing hangs on it.
pub const STAMP: Stamp = Stamp { worker: 0, step: 0 };

/// Why a test can't go on.
#[derive(Clone, Copy, Debug, Drop, PartialEq)]
pub enum Stop {
    Memory,
    /// A call that is to be Ok was refused.
    Refused,
    /// Somebody wasn't there in time.
    Late,
}

impl From<AllocError> for Stop {
    fn from(_e: AllocError) -> Stop {
        Stop::Memory
    }
}

impl<T: Drop> From<AllocFailed<T>> for Stop {
    fn from(_e: AllocFailed<T>) -> Stop {
        Stop::Memory
    }
}

/// What a call answers that isn't to be refused.
pub fn done<T, E: Drop>(answer: Result<T, E>) -> Result<T, Stop> {
    match answer {
        Ok(answer) => Ok(answer),
        Err(_) => Err(Stop::Refused),
    }
}

/// The value of a text.
pub fn value(alloc: Global, text: &str) -> Result<Value, AllocError> {
    read_one(alloc, text.as_bytes()).map_err(|_| AllocError)
}

/// One argument.
pub fn one_arg(alloc: Global, text: &str) -> Result<Args, AllocError> {
    Args::of(alloc, vec![in alloc; value(alloc, text)?]?)
}

pub fn action(alloc: Global, code: u32, text: &str) -> Result<Action, AllocError> {
    Ok(Action::new(code, one_arg(alloc, text)?))
}

/// `+` with one argument for an agent, as an action carries it.
pub fn carry(alloc: Global, g: u32, text: &str) -> Result<Carry, AllocError> {
    let (code, args) = (PLUS, one_arg(alloc, text)?);
    Ok(Carry { g, code, args })
}

/// `[>= BOUND]`.
pub fn at_least(alloc: Global, bound: &str) -> Result<Rule, AllocError> {
    Ok(Rule {
        code: AT_LEAST,
        args: one_arg(alloc, bound)?,
    })
}

/// The refs and the atoms of two texts, without rules, and no agent.
pub fn plain_start(alloc: Global, refs: &str, atoms: &str) -> Result<Start, AllocError> {
    let mut start = Start {
        refs: Vec::new(alloc),
        atoms: Vec::new(alloc),
        agents: Vec::new(alloc),
    };
    for value in read_all(alloc, refs.as_bytes()).map_err(|_| AllocError)? {
        start.refs.push(RefStart {
            value,
            rule: None,
            tally: false,
        })?;
    }
    for value in read_all(alloc, atoms.as_bytes()).map_err(|_| AllocError)? {
        start.atoms.push(AtomStart { value, rule: None })?;
    }
    Ok(start)
}

/// An agent that fails where an action does.
pub fn agent(value: Value, rule: Option<Rule>) -> AgentStart {
    AgentStart {
        value,
        rule,
        mode: ErrorMode::Fail,
    }
}

/// A world of these references with its books, and its whole share.
pub fn made<L: Books>(
    alloc: Global,
    start: Start,
    blanks: Blanks,
) -> Result<(Booked<Core, L>, Share<L>), Stop>
    requires { AreBlanks blanks L.commits L.added L.taken L.story }
{
    match Booked::new(alloc, &CoreFunctions, &start, blanks) {
        Ok(made) => Ok(made),
        Err(_) => Err(Stop::Refused),
    }
}

/// The world that a shared world ends with, and its totals, where the share is whole and log and receipts fit.
pub fn closed<L: Books>(
    alloc: Global,
    shared: Shared<Core, L>,
    share: Share<L>,
) -> Result<(World<Core>, Totals), Stop> {
    if !share.is_whole() {
        return Err(Stop::Refused);
    }
    done(shared.finish(alloc, share))
}

/// The number that a reference holds now, if it is there and holds one.
pub fn int_at<L: Books, R: Wait>(
    rt: &R,
    shared: &Shared<Core, L>,
    front: &Front<L>,
    who: Who,
) -> Option<i64> {
    int_of(&shared.value_of(rt, &mut front.again(), who).ok()??)
}

/// Whom a notice is of, whether its key is `:k`, and the numbers before and after.
pub type Told = (Who, bool, Option<i64>, Option<i64>);

pub fn told_of(notice: &Notice) -> Told {
    let is_k = match notice.key.node().as_keyword() {
        Some(name) => is_same(name, b"k"),
        None => false,
    };
    (
        notice.who,
        is_k,
        int_of(&notice.before),
        int_of(&notice.after),
    )
}

/// The stamp and the read point of each transaction of a log.
pub fn all_commits(alloc: Global, log: &PVec<Entry>) -> Result<Vec<(Stamp, u64)>, AllocError> {
    let mut all = Vec::new(alloc);
    for entry in log {
        if let Entry::Trans(transaction) = entry {
            all.push((transaction.stamp, transaction.read_point))?;
        }
    }
    Ok(all)
}

/// `alter r + n`.
pub fn add(alloc: Global, tx: &mut Tx<Core>, r: u32, n: &str) -> Result<(), Stop> {
    let args = one_arg(alloc, n)?;
    let _ = done(tx.alter(alloc, &CoreFunctions, r, PLUS, args))?;
    Ok(())
}
