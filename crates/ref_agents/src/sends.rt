//! Sending actions to agents.
ghost use Rattle.ref_log.specs.Told.{TellsThenMemory};
ghost use Rattle.std.specs.Prelude.{◌≡◌, ◌≢◌, ◌==◌, ℕ, [], false, if◌then◌else◌, IfOk, OnOk, OnErr};
ghost use Rattle.ref_fun.specs.declared.actions.Action.{Action};
ghost use Rattle.ref_agents.specs.Account.{has_point};
ghost use Rattle.ref_agents.specs.Agents.{outside, send_refusal, with_agents, with_commit, with_each, with_release, with_send, without_each};
ghost use Rattle.ref_agents.specs.Indexed.{with_items};
ghost use Rattle.ref_agents.specs.declared.faults.SendFault.TheVariants as faults;

use crate::accounts::{Queued, SentBy};
use crate::agents::AgentStore;
use crate::faults::SendFault;
use crate::indexed::IndexedAgents;
use ref_fun::{Action, Carry, Meaning, absent_agent};
use ref_log::Sent;
use std::alloc::AllocError;

impl<M: Meaning> AgentStore<M> {
    /// Sends an action to an agent, outside of a transaction: it waits behind the others, and may be taken at once. A failed
    /// agent takes none. The agents that it carries sends to have to be here. A refused call changes nothing.
    pub fn send(&mut self, g: u32, action: Action) -> Result<(), SendFault>
        ensures refused { TellsThenMemory faults.Memory (send_refusal self.old.agents g action) result }
        ensures sends { OnOk result (self.new ≡ with_agents self.old (with_send self.old.agents g (outside action))) }
        ensures err { OnErr result (self.new ≡ self.old) }
    {
        if absent_agent(self.agents.len(), g, &action).is_some() {
            return Err(SendFault::NoSuchAgent);
        }
        let Some(agent) = self.agents.get(g) else {
            return Err(SendFault::NoSuchAgent);
        };
        if agent.error.is_some() {
            return Err(SendFault::Failed);
        }
        let by = SentBy::Outside;
        Ok(self.agents.queue(g, Queued { action, by })?)
    }

    /// Adds the sends of the commit at a new point to their agents' queues, in order. They are held until the commit is
    /// released. A failed agent takes them too. One to an agent that isn't here is left out. A refused call changes nothing.
    pub fn send_held(&mut self, at: u64, sends: &[Sent]) -> Result<(), AllocError>
        ensures ok { OnOk result (self.new ≡ with_commit self.old at sends.now) }
        ensures memory { OnErr result (sends.now ≢ []) }
        ensures err { OnErr result (self.new ≡ self.old) }
    {
        if sends.is_empty() {
            return Ok(());
        }
        self.agents.queue_all(SentBy::Commit(at), sends)?;
        if self.agents.hold(at).is_err() {
            self.agents.take_back(sends);
            return Err(AllocError);
        }
        Ok(())
    }

    /// Lets the sends of the commit at this point be taken, and answers whether there were any and they were held. It takes no
    /// memory. The time is logarithmic in the number of commits that are held, and for each agent whose first action that commit sent in
    /// the number of agents.
    pub fn release(&mut self, point: u64) -> bool
        ensures was { result ≡ has_point self.old.unreleased point }
        ensures releases { self.new ≡ with_release self.old point }
        // That commit isn't held any more, and each other is as it was.
        ensures held { (at : ℕ) → has_point self.new.unreleased at
            ≡ (if point == at then false else has_point self.old.unreleased at) }
    {
        self.agents.release(point)
    }
}

impl IndexedAgents {
    // Adds one action for each of these to the queues, in order, or none of them.
    pub(crate) fn queue_all<T: ToAgent>(
        &mut self,
        by: SentBy,
        sends: &[T],
    ) -> Result<(), AllocError>
        ensures ok { OnOk result (self.new
            ≡ with_items self.old (with_each T.to T.of by sends.now self.old.items)) }
        ensures err { OnErr result (self.new ≡ self.old) }
    {
        for (i, sent) in sends.iter().enumerate() {
            if self.queue_one(by, sent).is_err() {
                self.take_back(&sends[..i]);
                return Err(AllocError);
            }
        }
        Ok(())
    }

    fn queue_one<T: ToAgent>(&mut self, by: SentBy, sent: &T) -> Result<(), AllocError>
        ensures ok { OnOk result (self.new ≡ with_items self.old
            (with_send self.old.items (T.to sent.now) (record { action = T.of sent.now; by = by }))) }
        ensures err { OnErr result (self.new ≡ self.old) }
    {
        let action = sent.action()?;
        self.queue(sent.agent(), Queued { action, by })
    }

    // Takes away what these added to the queues, the last first.
    pub(crate) fn take_back<T: ToAgent>(&mut self, sends: &[T])
        ensures { self.new ≡ with_items self.old (without_each T.to sends.now self.old.items) }
    {
        let mut left = sends.len();
        while left > 0 {
            left -= 1;
            self.take_last(sends[left].agent());
        }
    }
}

// What sends an action to an agent.
pub(crate) trait ToAgent {
    // the number of the agent, and the action
    ghost to: { Self → ℕ };

    ghost of: { Self → Action };

    fn agent(&self) -> u32
        ensures { result ≡ to self.now };

    // The action, which has one more owner.
    fn action(&self) -> Result<Action, AllocError>
        ensures { IfOk result (λ a. a ≡ of self.now) };
}

impl ToAgent for Sent {
    ghost to = { λ s. s.agent };

    ghost of = { λ s. s.action };

    fn agent(&self) -> u32 {
        self.agent
    }

    fn action(&self) -> Result<Action, AllocError> {
        self.action.share()
    }
}

impl ToAgent for Carry {
    ghost use Rattle.ref_agents.specs.Agents.{carried};

    ghost to = { λ c. c.g };

    ghost of = { carried };

    fn agent(&self) -> u32 {
        self.g
    }

    fn action(&self) -> Result<Action, AllocError> {
        Ok(Action::new(self.code, self.args.share()?))
    }
}
