//! Taking jobs, and taking them back.
ghost use Rattle.std.specs.Prelude.{◌≡◌, ◌≢◌, ◌↔◌, ℕ, true, false, None, Some, IfOk, IfErr, IfSome, IsTrue, OnOk, OnErr, is_some, slice_get};
ghost use Rattle.ref_agents.specs.Agents.{AreAgents, is_ready_at, job_out, next_job, with_out};

use crate::agents::AgentStore;
use crate::jobs::Job;
use ref_fun::Meaning;
use std::alloc::AllocError;

impl<M: Meaning> AgentStore<M> {
    /// Returns the first action of some agent that is ready: one that isn't failed, of which no job is on its way, whose last action
    /// carried nothing that isn't released, and whose first action may be taken. None only where no agent is ready. The action stays
    /// in the queue. Agents take turns: it is the next one that is ready after the last that was taken, or where there is none, the
    /// first. No clause says so. It takes a step for each agent of a block, of which an index has 1,024 each, and one for each block. A
    /// refused call changes nothing.
    pub fn take(&mut self) -> Result<Option<Job>, AllocError>
        ensures ready { IfOk result (λ found. IfSome found (λ job. is_ready_at self.old job.agent ≡ true)) }
        ensures job { IfOk result (λ found.
            IfSome found (λ job. next_job job.agent (slice_get self.old.agents job.agent) ≡ Some job)) }
        ensures takes { IfOk result (λ found. IfSome found (λ job. self.new ≡ with_out self.old job.agent true)) }
        ensures none { IfOk result (λ found. found ≡ None → (g : ℕ) → is_ready_at self.old g ≡ false) }
        ensures same { IfOk result (λ found. found ≡ None → self.new ≡ self.old) }
        ensures memory { OnErr result ((g : ℕ) × (is_ready_at self.old g ≡ true)) }
        ensures err { OnErr result (self.new ≡ self.old) }
    {
        let Some(g) = self.ready_agent() else {
            return Ok(None);
        };
        let job = self.job_of(g)?;
        self.set_out(g, true);
        self.next = g.saturating_add(1);
        Ok(Some(job))
    }

    /// Takes a job back that wasn't finished, exactly where it is on its way here: its action may be taken again. It takes no
    /// memory. The time is linear in the sizes of its arguments and its state, which are compared. Another job comes back.
    pub fn put_back(&mut self, job: Job) -> Result<(), Job>
        ensures ok { OnOk result (job_out self.old.agents job.agent ≡ Some job) }
        ensures puts { OnOk result (self.new ≡ with_out self.old job.agent false) }
        ensures foreign { OnErr result (job_out self.old.agents job.agent ≢ Some job) }
        ensures back { IfErr result (λ j. j ≡ job) }
        ensures err { OnErr result (self.new ≡ self.old) }
    {
        if !self.is_out(&job) {
            return Err(job);
        }
        self.set_out(job.agent(), false);
        job.forsake();
        Ok(())
    }

    // Whether this job is on its way.
    pub(crate) fn is_out(&self, job: &Job) -> bool
        ensures is { IsTrue result ↔ (job_out self.now.agents job.now.agent ≡ Some job.now) }
        // No action of a failed agent is on its way.
        ensures agents { AreAgents M.means self.now.agents }
    {
        let Some(agent) = self.agents.get(job.agent()) else {
            return false;
        };
        if !agent.is_out {
            return false;
        }
        let Some(queued) = agent.account.waiting_at(0) else {
            return false;
        };
        if job.number() != agent.account.number() {
            return false;
        }
        if !job.action().is_same(&queued.action) {
            return false;
        }
        *job.state() == agent.value
    }

    // An agent that is ready, from the next one on, if there is any.
    fn ready_agent(&mut self) -> Option<u32>
        ensures some { IfSome result (λ g. is_ready_at self.old g ≡ true) }
        ensures none { result ≡ None → (g : ℕ) → is_ready_at self.old g ≡ false }
        ensures same { self.new ≡ self.old }
    {
        let g = self.agents.next_ready(self.next as usize)?;
        Some(g as u32)
    }

    // The job that an agent's first action makes.
    fn job_of(&self, g: u32) -> Result<Job, AllocError>
        requires { is_ready_at self.now g ≡ true }
        ensures job { IfOk result (λ job. next_job g (slice_get self.now.agents g) ≡ Some job) }
        ensures agent { IfOk result (λ job. job.agent ≡ g) }
    {
        let agent = &self.agents.as_slice()[g as usize];
        match agent.account.waiting_at(0) {
            Some(queued) => {
                let action = queued.action.share()?;
                let state = agent.value.share()?;
                Ok(Job::new(g, agent.account.number(), action, state))
            }
            None => unreachable!(),
        }
    }

    // An agent's first action is on its way now, or isn't any more.
    fn set_out(&mut self, g: u32, is_out: bool)
        requires fine { (agent : _) → slice_get self.old.agents g ≡ Some agent → is_some agent.error ≡ false }
        requires idle { (agent : _) → slice_get self.old.agents g ≡ Some agent → agent.is_carrying ≡ false }
        ensures { self.new ≡ with_out self.old g is_out }
    {
        self.agents.set_out(g, is_out);
    }
}
