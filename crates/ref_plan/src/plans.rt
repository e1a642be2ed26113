//! Plans: what a workload says must be run.
ghost use Rattle.std.specs.Prelude.{◌≡◌, ◌++◌, ◌∷◌, [], IfOk};

use ref_agents::{ErrorMode, Start};
use ref_forms::Names;
use ref_fun::{Action, Rule};
use ref_log::{Op, Sent, SharedVec, Who};
use ref_value::Value;
use std::alloc::{AllocError, Global};
use std::marker::Model;
use std::slice;

/// An operation of a transaction, as the text of its step names it.
pub enum PlannedOp {
    /// An operation on the ref of this number.
    On(u32, Op),
    /// The transaction is refused where the rule doesn't accept what it sees of the ref of this number.
    Require(u32, Rule),
    /// An action is sent to an agent; it may carry sends.
    Send(Sent),
}

// A function of its own, which each place that drops one calls; a derived one would be written out there.
impl Drop for PlannedOp {
    fn drop(self) {
        match self {
            PlannedOp::On(_, _op) => {}
            PlannedOp::Require(_, _rule) => {}
            PlannedOp::Send(_sent) => {}
        }
    }
}

// Most transactions have one operation.
#[derive(Drop)]
enum Held {
    Nothing,
    One(PlannedOp),
    Listed(Vec<PlannedOp>),
}

/// The operations of a transaction. A single one takes no block of memory, and more take one. Contracts see a list.
#[derive(Drop)]
pub struct PlannedOps {
    held: Held,
}

impl Model for PlannedOps {
    ghost use Rattle.std.specs.Prelude.{List};
    ghost use Rattle.std.specs.Coded.{codes};
    ghost use Rattle.ref_value.specs.Code.{edn_code};
    ghost use Rattle.ref_plan.specs.Stored.{ops_stored};
    ghost use Rattle.ref_plan.specs.declared.plans.PlannedOp.{PlannedOp};

    ghost Value = { List PlannedOp };

    ghost coded = { Prim.hlevel (codes, edn_code) };

    ghost view = { λ a. ops_stored a.held };
}

impl PlannedOps {
    /// No operations. It takes no memory.
    pub(crate) fn none() -> PlannedOps
        ensures { result ≡ [] }
    {
        PlannedOps {
            held: Held::Nothing,
        }
    }

    /// The operations in order.
    pub fn as_slice(&self) -> &[PlannedOp]
        ensures { result.now ≡ self.now }
    {
        match &self.held {
            Held::Nothing => &[],
            Held::One(op) => slice::from_ref(op),
            Held::Listed(ops) => ops.as_slice(),
        }
    }

    /// These and one more behind them.
    pub(crate) fn with(self, alloc: Global, op: PlannedOp) -> Result<PlannedOps, AllocError>
        ensures { IfOk result (λ ops. ops ≡ self ++ op ∷ []) }
    {
        let held = match self.held {
            Held::Nothing => Held::One(op),
            Held::One(first) => Held::Listed(pair(alloc, first, op)?),
            Held::Listed(mut ops) => {
                ops.push(op)?;
                Held::Listed(ops)
            }
        };
        Ok(PlannedOps { held })
    }

    /// Gives back the room that a list has for more.
    pub(crate) fn shrink_to_fit(&mut self)
        ensures { self.new ≡ self.old }
    {
        if let Held::Listed(ops) = &mut self.held {
            ops.shrink_to_fit();
        }
    }
}

// A list with no room for more.
fn pair(alloc: Global, first: PlannedOp, second: PlannedOp) -> Result<Vec<PlannedOp>, AllocError>
    ensures { IfOk result (λ ops. ops.items ≡ first ∷ second ∷ []) }
{
    let mut ops = Vec::with_capacity(alloc, 2)?;
    ops.push(first)?;
    ops.push(second)?;
    Ok(ops)
}

/// A step of a worker.
pub enum Step {
    /// A transaction with these operations.
    Tx(PlannedOps),
    /// `swap!` of the atom of this number.
    Swap(u32, Action),
    /// `reset!` of the atom of this number.
    Reset(u32, Value),
    /// `compare-and-set!` of the atom of this number, from the old value to the new one.
    CompareAndSet(u32, Value, Value),
    /// `send`, outside of a transaction; the action may carry sends.
    Send(Sent),
    /// `restart-agent` of the agent of this number with this state, where the flag says whether what waits is dropped.
    Restart(u32, Value, bool),
    /// `set-error-mode!` of the agent of this number.
    Mode(u32, ErrorMode),
    /// `set-validator!` of this reference, where none takes its rule away.
    Validator(Who, Option<Rule>),
}

impl Drop for Step {
    fn drop(self) {
        match self {
            Step::Tx(_ops) => {}
            Step::Swap(_, _action) => {}
            Step::Reset(_, _value) => {}
            Step::CompareAndSet(_, _old, _new) => {}
            Step::Send(_sent) => {}
            Step::Restart(_, _state, _) => {}
            Step::Mode(_, _) => {}
            Step::Validator(_, _rule) => {}
        }
    }
}

/// What a workload says must be run: the references that it declares, with their names, the steps of each worker, and how many
/// threads run actions of agents. Contracts see lists.
#[derive(Drop)]
pub struct Plan {
    names: Names,
    start: Start,
    workers: Vec<SharedVec<Step>>,
    pool: u32,
}

impl Model for Plan {
    ghost use Rattle.std.specs.Coded.{codes};
    ghost use Rattle.ref_value.specs.Code.{edn_code};
    ghost use Rattle.ref_plan.specs.Plan.{PlanSeen};

    ghost Value = { PlanSeen };

    ghost coded = { Prim.hlevel (codes, edn_code) };

    ghost view = { λ a. record {
      names = a.names;
      refs = a.start.refs.items;
      atoms = a.start.atoms.items;
      agents = a.start.agents.items;
      workers = a.workers.items;
      pool = a.pool;
    } };
}

impl Plan {
    /// A plan from its parts: the names, the references, the steps of each worker, and how many threads run actions.
    pub fn of(names: Names, start: Start, workers: Vec<SharedVec<Step>>, pool: u32) -> Plan
        ensures { result ≡ record {
          names = names;
          refs = start.refs.items;
          atoms = start.atoms.items;
          agents = start.agents.items;
          workers = workers.items;
          pool = pool;
        } }
    {
        Plan {
            names,
            start,
            workers,
            pool,
        }
    }

    /// The names of the references, by number.
    pub fn names(&self) -> &Names
        ensures { result.now ≡ self.now.names }
    {
        &self.names
    }

    /// The references as they are declared.
    pub fn start(&self) -> &Start
        ensures refs { result.now.refs.items ≡ self.now.refs }
        ensures atoms { result.now.atoms.items ≡ self.now.atoms }
        ensures agents { result.now.agents.items ≡ self.now.agents }
    {
        &self.start
    }

    /// The steps of each worker.
    pub fn workers(&self) -> &[SharedVec<Step>]
        ensures { result.now ≡ self.now.workers }
    {
        self.workers.as_slice()
    }

    /// How many threads run the actions of agents.
    pub fn pool(&self) -> u32
        ensures { result ≡ self.now.pool }
    {
        self.pool
    }
}
