//! How jobs end.
ghost use Rattle.ref_log.specs.Told.{TellsThenMemory};
ghost use Rattle.std.specs.Prelude.{◌≡◌, ◌≢◌, None, Some, IfOk, IfErr, OnOk, OnErr};
ghost use Rattle.ref_fun.specs.Rule.{unknown};
ghost use Rattle.ref_log.specs.Guards.{keys_at, rule_at};
ghost use Rattle.ref_agents.specs.Agents.{change_agent, ended, job_out, with_agents};
ghost use Rattle.ref_agents.specs.Ends.{CanHave, IsAnswer, IsAnswerOf, after_end, ending, goes_out, judged, lacking, with_finish};
ghost use Rattle.ref_agents.specs.declared.faults.FinishFault.TheVariants.{Foreign, Memory};

use crate::accounts::{Mark, SentBy};
use crate::agents::{Agent, AgentStore, ErrorMode};
use crate::faults::{AgentError, FinishFault};
use crate::jobs::Ran;
use ref_fun::{Action, Carry, Cause, Functions, Meaning};
use ref_log::{Guards, Notice, Who};
use ref_value::Value;
use std::alloc::{AllocError, Global};

/// How a job ended.
#[derive(Drop)]
pub enum Finished {
    /// The value became the agent's state. These are the notices of its watches.
    Changed(Vec<Notice>),
    /// The agent failed. It has the state from before.
    Failed(AgentError),
    /// The agent goes on with the state from before, as if neither action nor error had been.
    Continued(AgentError),
}

impl<M: Meaning> AgentStore<M> {
    /// Ends a job that has run, exactly where it is on its way here. Where the function gave a value that the agent's rule
    /// accepts, that is the state from now on, and what the action carries is added to its queues, in order: it is held until
    /// `release_carried`, and until then the agent isn't ready. Else the state stays, the agent is failed or goes on, by its error
    /// mode, and nothing goes out. A failed agent is sent what is carried, too. The action leaves the queue. The time is linear in
    /// the sizes of its arguments and its state, which are compared, and in the number of watches; for each send that is carried it is
    /// logarithmic in the number of such sends that wait for its agent. A refused call changes nothing, and returns the job.
    pub fn finish<F: Functions<M>>(
        &mut self,
        alloc: Global,
        funs: &F,
        ran: Ran<M>,
    ) -> Result<Finished, (Ran<M>, FinishFault)>
        ensures ok { OnOk result (job_out self.old.agents ran.job.agent ≡ Some ran.job) }
        ensures known { OnOk result (lacking (F.knows funs.now).preds self.old ran.job ≡ None) }
        ensures ends { OnOk result (self.new ≡ with_finish M.accepts self.old ran) }
        ensures answer { IfOk result (IsAnswerOf M.accepts self.old ran) }
        ensures foreign { IfErr result (λ e. e.1 ≡ Foreign → job_out self.old.agents ran.job.agent ≢ Some ran.job) }
        ensures here { IfErr result (λ e. e.1 ≢ Foreign → job_out self.old.agents ran.job.agent ≡ Some ran.job) }
        ensures lacks { IfErr result (λ e. e.1 ≢ Foreign → e.1 ≢ Memory
            → lacking (F.knows funs.now).preds self.old ran.job ≡ Some e.1) }
        ensures memory { IfErr result (λ e. e.1 ≡ Memory → lacking (F.knows funs.now).preds self.old ran.job ≡ None) }
        ensures back { IfErr result (λ e. e.0 ≡ ran) }
        ensures err { OnErr result (self.new ≡ self.old) }
    {
        if !self.is_out(ran.job()) {
            return Err((ran, FinishFault::Foreign));
        }
        match self.end(alloc, funs, &ran) {
            Ok(finished) => {
                ran.into_job().forsake();
                Ok(finished)
            }
            Err(fault) => Err((ran, fault)),
        }
    }

    // Ends the job of an agent that is on its way.
    fn end<F: Functions<M>>(
        &mut self,
        alloc: Global,
        funs: &F,
        ran: &Ran<M>,
    ) -> Result<Finished, FinishFault>
        requires out { job_out self.old.agents ran.now.job.agent ≡ Some ran.now.job }
        ensures refused { TellsThenMemory Memory (lacking (F.knows funs.now).preds self.old ran.now.job) result }
        ensures ends { OnOk result (self.new ≡ with_finish M.accepts self.old ran.now) }
        ensures answer { IfOk result (IsAnswerOf M.accepts self.old ran.now) }
        ensures told { IfErr result (λ f. f ≢ Foreign) }
        ensures err { OnErr result (self.new ≡ self.old) }
    {
        let g = ran.job().agent();
        if let Err(code) = self.guards.check_known(funs, g) {
            return Err(FinishFault::NoSuchFun(code));
        }
        let judgement = judge(funs, &self.guards, g, ran.outcome())?;
        let carries = goes_out(&judgement, ran.job().action());
        self.agents.queue_all(SentBy::Carried(g), carries)?;
        let action = ran.job().action();
        match self.agents.end(alloc, &self.guards, g, judgement, action.carries.as_slice()) {
            Ok(finished) => Ok(finished),
            Err(e) => {
                self.agents.take_back(carries);
                Err(e.into())
            }
        }
    }
}

impl Agent {
    // Ends its first action, which carries these, with the state or the error that came of it. A refused call changes nothing.
    pub(crate) fn end(
        &mut self,
        alloc: Global,
        guards: &Guards,
        g: u32,
        judgement: Result<Value, AgentError>,
        carries: &[Carry],
    ) -> Result<Finished, AllocError>
        ensures ends { OnOk result (self.new ≡ after_end self.old.mode judgement carries.now self.old) }
        ensures answer { IfOk result (IsAnswer self.old.mode g (keys_at guards.now g) self.old.value judgement) }
        ensures err { OnErr result (self.new ≡ self.old) }
    {
        match judgement {
            Ok(value) => {
                let mut notices = Vec::new(alloc);
                guards.tell(g, Who::Agent(g), &self.value, &value, &mut notices)?;
                self.close(Mark::Done, None)?;
                self.value = value;
                self.is_carrying = !carries.is_empty();
                Ok(Finished::Changed(notices))
            }
            Err(error) => match self.mode {
                ErrorMode::Fail => {
                    self.close(Mark::Failed, Some(error))?;
                    Ok(Finished::Failed(error))
                }
                ErrorMode::Continue => {
                    self.close(Mark::Passed, None)?;
                    Ok(Finished::Continued(error))
                }
            },
        }
    }

    // Marks its first action, which isn't on its way any more.
    fn close(&mut self, mark: Mark, error: Option<AgentError>) -> Result<(), AllocError>
        ensures ok { OnOk result (self.new ≡ ended mark self.old.value error self.old) }
        ensures err { OnErr result (self.new ≡ self.old) }
    {
        self.account.end(mark)?;
        self.error = error;
        self.is_out = false;
        Ok(())
    }
}

// What goes out with an action: all that it carries, if the state is a new one.
fn goes_out<'a>(judgement: &Result<Value, AgentError>, action: &'a Action) -> &'a [Carry]
    ensures { result.now ≡ goes_out judgement.now action.now.carries }
{
    match judgement {
        Ok(_) => action.carries.as_slice(),
        Err(_) => &[],
    }
}

// What comes of a run: the state, or the error.
fn judge<M: Meaning, F: Functions<M>>(
    funs: &F,
    guards: &Guards,
    g: u32,
    outcome: &Result<Value, Cause>,
) -> Result<Result<Value, AgentError>, AllocError>
    requires { unknown (F.knows funs.now).preds (rule_at guards.now g) ≡ None }
    ensures is { IfOk result (λ judgement. judgement ≡ judged M.accepts (rule_at guards.now g) outcome.now) }
    // With the state the agent's rule accepts, if all rules accepted before.
    ensures accepted { IfOk result (λ judgement. CanHave M.accepts guards.now g judgement) }
{
    match outcome {
        Ok(value) => {
            if guards.accepts(funs, g, value) {
                Ok(Ok(value.share()?))
            } else {
                Ok(Err(AgentError::Invalid))
            }
        }
        Err(cause) => Ok(Err(AgentError::Refused(*cause))),
    }
}
