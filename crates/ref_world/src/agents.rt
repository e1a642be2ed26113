//! The calls on agents. Each is the one of the store of agents, and adds no entry.
ghost use Rattle.ref_log.specs.Told.{TellsThenMemory};
ghost use Rattle.std.specs.Prelude.{◌≡◌, ◌≢◌, ℕ, true, false, None, Some, IfOk, IfErr, IfSome, OnErr, OnOk, length, option_copied, slice_get};
ghost use Rattle.ref_agents.specs.Account.{has_point};
ghost use Rattle.ref_agents.specs.Agents as agents;
ghost use Rattle.ref_agents.specs.Agents.{AreAgents, account_at, can_fold_at, error_at, is_carrying_at, is_ready_at, job_out, next_job, outside, send_refusal};
ghost use Rattle.ref_agents.specs.Ends.{IsAnswerOf, lacking, restart_refusal, with_finish};
ghost use Rattle.ref_agents.specs.Make as makes;
ghost use Rattle.ref_agents.specs.declared.faults.FinishFault.TheVariants as finishes;
ghost use Rattle.ref_agents.specs.declared.faults.RestartFault.TheVariants as restarts;
ghost use Rattle.ref_agents.specs.declared.faults.SendFault.TheVariants as sends;
ghost use Rattle.ref_log.specs.declared.faults.MakeFault.TheVariants as faults;
ghost use Rattle.ref_world.specs.World.{with_agents};

use crate::worlds::World;
use ref_agents::{
    Account, AgentError, ErrorMode, FinishFault, Finished, Job, ModeFault, Ran, RestartFault,
    SendFault,
};
use ref_fun::{Action, Functions, Meaning, Rule};
use ref_log::MakeFault;
use ref_value::Value;
use std::alloc::{AllocError, Global};

impl<M: Meaning> World<M> {
    /// Makes an agent with this state, this rule, if any, and this error mode, and answers its number. A transaction that was
    /// begun before knows no such agent. A refused call changes nothing.
    pub fn make_agent<F: Functions<M>>(
        &mut self,
        alloc: Global,
        funs: &F,
        value: Value,
        rule: Option<Rule>,
        mode: ErrorMode,
    ) -> Result<u32, MakeFault>
        ensures refused { TellsThenMemory faults.Memory
            (makes.agent_refusal M.accepts (F.knows funs.now).preds self.old.agents value rule) result }
        ensures number { IfOk result (λ g. g ≡ length self.old.agents.agents) }
        ensures adds { OnOk result (self.new
            ≡ with_agents self.old (makes.with_agent self.old.agents value rule mode)) }
        // An agent is no tally, and has no point.
        ensures kind { IfErr result (λ f. (f ≢ faults.BadTally) × (f ≢ faults.PointLimit)) }
        ensures err { OnErr result (self.new ≡ self.old) }
    {
        self.agents.make(alloc, funs, value, rule, mode)
    }

    /// Sends an action to an agent, as Clojure's `send` outside of a transaction: it waits behind the others, and may be taken at
    /// once. A failed agent takes none. The agents that it carries sends to have to be here. Whether a table has a function is asked
    /// where it is run. A refused call changes nothing.
    pub fn send(&mut self, g: u32, action: Action) -> Result<(), SendFault>
        ensures refused { TellsThenMemory sends.Memory (send_refusal self.old.agents.agents g action) result }
        ensures sends { OnOk result (self.new
            ≡ with_agents self.old
            (agents.with_agents self.old.agents (agents.with_send self.old.agents.agents g (outside action)))) }
        ensures err { OnErr result (self.new ≡ self.old) }
    {
        self.agents.send(g, action)
    }

    /// Lets the sends of the commit at this point be taken, which is for when its notices were delivered, and answers whether
    /// that commit had sends and wasn't released before. It takes no memory. The time is logarithmic in the number of commits
    /// that are held.
    pub fn release(&mut self, point: u64) -> bool
        ensures was { result ≡ has_point self.old.agents.unreleased point }
        ensures releases { self.new ≡ with_agents self.old (agents.with_release self.old.agents point) }
    {
        self.agents.release(point)
    }

    /// Releases what the last handled action of an agent carried, which is for when its notices were delivered, and returns whether
    /// it carried anything that wasn't released, even if all of it was dropped meanwhile. It takes no memory. For each send that was
    /// carried it walks back over what that agent was sent since.
    pub fn release_carried(&mut self, g: u32) -> bool
        ensures was { result ≡ is_carrying_at self.old.agents.agents g }
        ensures releases { self.new ≡ with_agents self.old (agents.with_carried_released self.old.agents g) }
    {
        self.agents.release_carried(g)
    }

    /// Returns the first action of some agent that is ready: one that isn't failed, of which no job is on its way, whose last action
    /// carried nothing that isn't released, and whose first action is released. None only where no agent is ready. The action stays
    /// in the queue. The time is linear in the number of agents with actions that wait which have to be looked at. A refused call
    /// changes nothing.
    pub fn take(&mut self) -> Result<Option<Job>, AllocError>
        ensures ready { IfOk result (λ found. IfSome found (λ job. is_ready_at self.old.agents job.agent ≡ true)) }
        ensures job { IfOk result (λ found.
            IfSome found (λ job. next_job job.agent (slice_get self.old.agents.agents job.agent) ≡ Some job)) }
        ensures takes { IfOk result (λ found.
            IfSome found (λ job. self.new ≡ with_agents self.old (agents.with_out self.old.agents job.agent true))) }
        ensures none { IfOk result (λ found. found ≡ None → (g : ℕ) → is_ready_at self.old.agents g ≡ false) }
        ensures same { IfOk result (λ found. found ≡ None → self.new ≡ self.old) }
        ensures memory { OnErr result ((g : ℕ) × (is_ready_at self.old.agents g ≡ true)) }
        ensures err { OnErr result (self.new ≡ self.old) }
    {
        self.agents.take()
    }

    /// Takes a job back that wasn't finished, exactly where it is on its way here: its action may be taken again. It takes no
    /// memory. The time is linear in the sizes of its arguments and its state, which are compared. Another job comes back.
    pub fn put_back(&mut self, job: Job) -> Result<(), Job>
        ensures ok { OnOk result (job_out self.old.agents.agents job.agent ≡ Some job) }
        ensures puts { OnOk result (self.new ≡ with_agents self.old (agents.with_out self.old.agents job.agent false)) }
        ensures foreign { OnErr result (job_out self.old.agents.agents job.agent ≢ Some job) }
        ensures back { IfErr result (λ j. j ≡ job) }
        ensures err { OnErr result (self.new ≡ self.old) }
    {
        self.agents.put_back(job)
    }

    /// Ends a job that has run, exactly where it is on its way here. Where the function gave a value that the agent's rule
    /// accepts, that is the state from now on, and what the action carries is added to its queues, in order: it is held until
    /// `release_carried`, and until then the agent isn't ready. Else the state stays, the agent is failed or goes on, by its error
    /// mode, and nothing goes out. A failed agent is sent what is carried, too. The action leaves the queue. The time is linear in
    /// the sizes of its arguments and its state, which are compared, in the number of watches, and for each send that is carried
    /// logarithmic in the number of agents with an action that waits. A refused call changes nothing, and returns the job.
    pub fn finish<F: Functions<M>>(
        &mut self,
        alloc: Global,
        funs: &F,
        ran: Ran<M>,
    ) -> Result<Finished, (Ran<M>, FinishFault)>
        ensures ok { OnOk result (job_out self.old.agents.agents ran.job.agent ≡ Some ran.job) }
        ensures known { OnOk result (lacking (F.knows funs.now).preds self.old.agents ran.job ≡ None) }
        ensures ends { OnOk result (self.new ≡ with_agents self.old (with_finish M.accepts self.old.agents ran)) }
        ensures answer { IfOk result (IsAnswerOf M.accepts self.old.agents ran) }
        ensures foreign { IfErr result (λ e. e.1 ≡ finishes.Foreign
            → job_out self.old.agents.agents ran.job.agent ≢ Some ran.job) }
        ensures here { IfErr result (λ e. e.1 ≢ finishes.Foreign
            → job_out self.old.agents.agents ran.job.agent ≡ Some ran.job) }
        ensures lacks { IfErr result (λ e. e.1 ≢ finishes.Foreign → e.1 ≢ finishes.Memory
            → lacking (F.knows funs.now).preds self.old.agents ran.job ≡ Some e.1) }
        ensures memory { IfErr result (λ e. e.1 ≡ finishes.Memory
            → lacking (F.knows funs.now).preds self.old.agents ran.job ≡ None) }
        ensures back { IfErr result (λ e. e.0 ≡ ran) }
        ensures err { OnErr result (self.new ≡ self.old) }
    {
        self.agents.finish(alloc, funs, ran)
    }

    /// Restarts a failed agent with this state, which its rule has to accept, as Clojure's `restart-agent`: it takes sends
    /// again. The actions that wait proceed, or are dropped where `clear` says so. Watches aren't called. A refused call
    /// changes nothing.
    pub fn restart<F: Functions<M>>(
        &mut self,
        funs: &F,
        g: u32,
        state: Value,
        clear: bool,
    ) -> Result<(), RestartFault>
        ensures refused { TellsThenMemory restarts.Memory
            (restart_refusal M.accepts (F.knows funs.now).preds self.old.agents g state) result }
        ensures restarts { OnOk result (self.new
            ≡ with_agents self.old (agents.with_restart self.old.agents g state clear)) }
        ensures err { OnErr result (self.new ≡ self.old) }
    {
        self.agents.restart(funs, g, state, clear)
    }

    /// Sets what happens where an action of an agent fails. A failed agent stays failed. It takes no memory.
    pub fn set_error_mode(&mut self, g: u32, mode: ErrorMode) -> Result<(), ModeFault>
        ensures here { OnOk result (slice_get self.old.agents.agents g ≢ None) }
        ensures sets { OnOk result (self.new ≡ with_agents self.old (agents.with_mode self.old.agents g mode)) }
        ensures none { OnErr result (slice_get self.old.agents.agents g ≡ None) }
        ensures err { OnErr result (self.new ≡ self.old) }
    {
        self.agents.set_error_mode(g, mode)
    }

    /// Folds the account of an agent: its state is its start from now on, and the actions that ended are dropped, except the one that
    /// failed the agent, if it is failed. State, queue and error stay, and so does the number of the next job: a job that is on its way
    /// may come back. Returns whether it did so. Where it returns false nothing changed: there is no such agent, or what its last
    /// action carried isn't released, or 2^62 actions ended since its last restart.
    ///
    /// It takes no memory, but std can refuse one more owner of the state. Then nothing changed. The time is linear in the number of
    /// actions that ended since the last fold or restart.
    pub fn fold_agent(&mut self, g: u32) -> Result<bool, AllocError>
        ensures when { IfOk result (λ done. done ≡ can_fold_at self.old.agents.agents g) }
        ensures folds { OnOk result (self.new ≡ with_agents self.old (agents.with_fold self.old.agents g)) }
        // The state of each agent, the job of it that is on its way, and whether it is ready stay.
        ensures values { agents.values_of self.new.agents.agents ≡ agents.values_of self.old.agents.agents }
        ensures out { (h : ℕ) → job_out self.new.agents.agents h ≡ job_out self.old.agents.agents h }
        ensures ready { (h : ℕ) → is_ready_at self.new.agents h ≡ is_ready_at self.old.agents h }
        ensures memory { OnErr result (can_fold_at self.old.agents.agents g ≡ true) }
        ensures err { OnErr result (self.new ≡ self.old) }
    {
        self.agents.fold(g)
    }

    /// The error of a failed agent. It takes no memory.
    pub fn error_of(&self, g: u32) -> Option<AgentError>
        ensures { result ≡ error_at self.now.agents.agents g }
    {
        self.agents.error_of(g)
    }

    /// What an agent was given to do, if it is there: its start, the actions that ended since then, and those that wait. It takes
    /// no memory.
    pub fn account(&self, g: u32) -> Option<&Account>
        ensures account { option_copied result ≡ account_at self.now.agents.agents g }
        // Each agent's state is its start folded over its done actions, and it is failed exactly where the last is marked failed.
        ensures agents { AreAgents M.means self.now.agents.agents }
    {
        self.agents.account(g)
    }
}
