//! How accounts are folded.
ghost use Rattle.std.specs.Prelude.{◌≡◌, ℕ, false, true, IfOk, OnErr, OnOk};
ghost use Rattle.ref_agents.specs.Agents.{can_fold_at, is_ready_at, job_out, values_of, with_fold};
ghost use Rattle.ref_agents.specs.Carried.{may_hold};

use crate::accounts::MOST_FOLDED;
use crate::agents::{Agent, AgentStore};
use ref_fun::Meaning;
use std::alloc::AllocError;

impl<M: Meaning> AgentStore<M> {
    /// Folds the account of an agent: its state is its start from now on, and the actions that ended are dropped, except the one that
    /// failed the agent, if it is failed. State, queue and error stay, and so does the number of the next job: a job that is on its way
    /// may come back. Returns whether it did so. Where it returns false nothing changed: there is no such agent, or what its last
    /// action carried isn't released, or 2^62 actions ended since its last restart.
    ///
    /// It takes no memory, but std can refuse one more owner of the state. Then nothing changed. The time is linear in the number of
    /// actions that ended since the last fold or restart.
    pub fn fold(&mut self, g: u32) -> Result<bool, AllocError>
        ensures when { IfOk result (λ done. done ≡ can_fold_at self.old.agents g) }
        ensures folds { OnOk result (self.new ≡ with_fold self.old g) }
        // The state of each agent, the job of it that is on its way, and whether it is ready stay.
        ensures values { values_of self.new.agents ≡ values_of self.old.agents }
        ensures out { (h : ℕ) → job_out self.new.agents h ≡ job_out self.old.agents h }
        ensures ready { (h : ℕ) → is_ready_at self.new h ≡ is_ready_at self.old h }
        // What an agent's last action carried, as long as it isn't released, stays, so that a release frees it.
        ensures carried { (h to : ℕ) → may_hold self.new.agents h to ≡ may_hold self.old.agents h to }
        ensures memory { OnErr result (can_fold_at self.old.agents g ≡ true) }
        ensures err { OnErr result (self.new ≡ self.old) }
    {
        if !can_fold(self.agents.as_slice(), g) {
            return Ok(false);
        }
        match self.fold_account(g) {
            Ok(()) => Ok(true),
            Err(e) => Err(e),
        }
    }

    // Folds the account of an agent that can be folded.
    fn fold_account(&mut self, g: u32) -> Result<(), AllocError>
        requires { can_fold_at self.old.agents g ≡ true }
        ensures folds { OnOk result (self.new ≡ with_fold self.old g) }
        ensures values { values_of self.new.agents ≡ values_of self.old.agents }
        ensures out { (h : ℕ) → job_out self.new.agents h ≡ job_out self.old.agents h }
        ensures ready { (h : ℕ) → is_ready_at self.new h ≡ is_ready_at self.old h }
        ensures carried { (h to : ℕ) → may_hold self.new.agents h to ≡ may_hold self.old.agents h to }
        ensures err { OnErr result (self.new ≡ self.old) }
    {
        self.agents.fold(g)
    }
}

// Whether the account of an agent can be folded.
fn can_fold(agents: &[Agent], g: u32) -> bool
    ensures { result ≡ can_fold_at agents.now g }
{
    match agents.get(g as usize) {
        Some(agent) => !agent.is_carrying && agent.account.number() < MOST_FOLDED,
        None => false,
    }
}
