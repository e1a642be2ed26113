//! Jobs: actions on their way.
ghost use Rattle.std.specs.Prelude.{◌≡◌, ◌≢◌, true, false, IfOk, IfErr, OnOk};
ghost use Rattle.ref_agents.specs.declared.faults.JobFault.TheVariants as faults;

use crate::faults::JobFault;
use ref_fun::{Action, CallFault, Cause, Functions, Meaning};
use ref_value::Value;
use std::alloc::Global;
use std::marker::{Model, PhantomData};

/// An action of an agent on its way, with the state that it begins with. It has to be spent: it is run and finished, put
/// back, or forsaken.
pub struct Job {
    agent: u32,
    number: u64,
    action: Action,
    state: Value,
}

impl Model for Job {
    ghost use Rattle.std.specs.Coded.{codes};
    ghost use Rattle.ref_value.specs.Code.{edn_code};
    ghost use Rattle.ref_agents.specs.Jobs.{JobSeen};

    ghost Value = { JobSeen };

    ghost coded = { Prim.hlevel (codes, edn_code) };

    ghost view = { λ a. record { agent = a.agent; number = a.number; action = a.action; state = a.state } };
}

impl Job {
    pub(crate) fn new(agent: u32, number: u64, action: Action, state: Value) -> Job
        ensures { result ≡ record { agent = agent; number = number; action = action; state = state } }
    {
        Job {
            agent,
            number,
            action,
            state,
        }
    }

    /// The number of the agent.
    pub fn agent(&self) -> u32
        ensures { result ≡ self.now.agent }
    {
        self.agent
    }

    /// How many actions of the agent ended before this one, since its last restart or its making. A fold leaves it.
    pub fn number(&self) -> u64
        ensures { result ≡ self.now.number }
    {
        self.number
    }

    /// The function and the arguments of the action.
    pub fn action(&self) -> &Action
        ensures { result.now ≡ self.now.action }
    {
        &self.action
    }

    /// The state that the action begins with.
    pub fn state(&self) -> &Value
        ensures { result.now ≡ self.now.state }
    {
        &self.state
    }

    /// Calls the action's function with the state and the arguments. Neither an agent nor a store takes part: the owner of the
    /// job runs it. A refused call returns the job.
    pub fn run<M: Meaning, F: Functions<M>>(
        self,
        alloc: Global,
        funs: &F,
    ) -> Result<Ran<M>, (Job, JobFault)>
        ensures ok { IfOk result (λ ran. ran.job ≡ self) }
        ensures outcome { IfOk result (λ ran. M.means self.action.code self.action.args self.state ≡ ran.outcome) }
        ensures known { OnOk result ((F.knows funs.now).funs self.action.code ≡ true) }
        ensures back { IfErr result (λ e. e.0 ≡ self) }
        ensures fault { IfErr result (λ e. e.1 ≢ faults.Memory → e.1 ≡ faults.NoSuchFun self.action.code) }
        ensures lacks { IfErr result (λ e. e.1 ≢ faults.Memory → (F.knows funs.now).funs self.action.code ≡ false) }
        ensures memory { IfErr result (λ e. e.1 ≡ faults.Memory → (F.knows funs.now).funs self.action.code ≡ true) }
    {
        let code = self.action.code;
        match funs.call(alloc, code, &self.state, self.action.args.as_slice()) {
            Ok(value) => Ok(Ran {
                job: self,
                outcome: Ok(value),
                of: PhantomData,
            }),
            Err(CallFault::Refused(cause)) => Ok(Ran {
                job: self,
                outcome: Err(cause),
                of: PhantomData,
            }),
            Err(CallFault::NoSuchFun(code)) => Err((self, JobFault::NoSuchFun(code))),
            Err(CallFault::Memory) => Err((self, JobFault::Memory)),
        }
    }

    /// Spends a job that no store takes back. Nothing changes anywhere: where the job is on its way it stays so.
    pub fn forsake(self) {
        let Job {
            agent: _agent,
            number: _number,
            action: _action,
            state: _state,
        } = self;
    }
}

/// A job whose action has run: with the value that the function gave, or the cause for which it refused. It has to be spent:
/// it is finished, or made a job again.
pub struct Ran<M: Meaning> {
    job: Job,
    outcome: Result<Value, Cause>,
    of: PhantomData<M>,
}

impl<M: Meaning> Model for Ran<M> {
    ghost use Rattle.std.specs.Prelude.{◌≡◌};
    ghost use Rattle.std.specs.Coded.{codes};
    ghost use Rattle.ref_value.specs.Code.{edn_code};
    ghost use Rattle.ref_agents.specs.Jobs.{RanSeen};

    ghost Value = { RanSeen };

    ghost coded = { Prim.hlevel (codes, edn_code) };

    ghost view = { λ a. record { job = a.job; outcome = a.outcome } };

    ghost invariant = { λ a. M.means a.job.action.code a.job.action.args a.job.state ≡ a.outcome };
}

impl<M: Meaning> Ran<M> {
    /// The job that was run.
    pub fn job(&self) -> &Job
        ensures { result.now ≡ self.now.job }
    {
        &self.job
    }

    /// The value that the function gave, or the cause for which it refused.
    pub fn outcome(&self) -> &Result<Value, Cause>
        ensures value { result.now ≡ self.now.outcome }
        ensures meant { M.means self.now.job.action.code self.now.job.action.args self.now.job.state
            ≡ self.now.outcome }
    {
        &self.outcome
    }

    /// The job, as it was before it ran.
    pub fn into_job(self) -> Job
        ensures { result ≡ self.job }
    {
        let Ran {
            job,
            outcome: _outcome,
            of: _of,
        } = self;
        job
    }
}
