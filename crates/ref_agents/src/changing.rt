//! Changes of one agent, which the index follows.
ghost use Rattle.std.specs.Prelude.{◌≡◌, ◌<◌, false, true, IfOk, OnOk, OnErr, length, slice_get};
ghost use Rattle.ref_log.specs.Guards.{keys_at};
ghost use Rattle.ref_agents.specs.Agents.{can_fold_at, carrying, change_agent, folding, moded, outed, queuing, releasing, revived, unqueuing};
ghost use Rattle.ref_agents.specs.Ends.{ending};
ghost use Rattle.ref_agents.specs.Indexed.{IsEnd, with_items};

use crate::accounts::Queued;
use crate::agents::ErrorMode;
use crate::ends::Finished;
use crate::faults::AgentError;
use crate::indexed::{IndexedAgents, add_head, forget_head, index, sent_by_at};
use ref_fun::Carry;
use ref_log::Guards;
use ref_value::Value;
use std::alloc::{AllocError, Global};

impl IndexedAgents {
    /// The agent has this error mode from now on.
    pub(crate) fn set_mode(&mut self, g: u32, mode: ErrorMode)
        ensures { self.new ≡ with_items self.old (change_agent self.old.items g (moded mode)) }
    {
        let Some(agent) = self.agents.get_mut(g as usize) else {
            return;
        };
        agent.mode = mode;
    }

    /// Its first action is on its way now, or isn't any more.
    pub(crate) fn set_out(&mut self, g: u32, is_out: bool)
        ensures { self.new ≡ with_items self.old (change_agent self.old.items g (outed is_out)) }
    {
        let Some(agent) = self.agents.get_mut(g as usize) else {
            return;
        };
        agent.is_out = is_out;
        index(
            &self.agents,
            &self.unreleased,
            &mut self.heads,
            &mut self.ready,
            g,
            None,
        );
    }

    /// One more action waits, if the agent is here. A refused call changes nothing.
    pub(crate) fn queue(&mut self, g: u32, queued: Queued) -> Result<(), AllocError>
        ensures ok { OnOk result (self.new ≡ with_items self.old (change_agent self.old.items g (queuing queued))) }
        ensures err { OnErr result (self.new ≡ self.old) }
    {
        let Some(agent) = self.agents.get_mut(g as usize) else {
            return Ok(());
        };
        let by = Some(queued.by);
        if agent.account.waiting() == 0 {
            add_head(&mut self.heads, g, by)?;
        }
        let pushed = agent.account.push(queued);
        index(
            &self.agents,
            &self.unreleased,
            &mut self.heads,
            &mut self.ready,
            g,
            by,
        );
        pushed
    }

    /// The last action that waits is taken away again.
    pub(crate) fn take_last(&mut self, g: u32)
        ensures { self.new ≡ with_items self.old (change_agent self.old.items g unqueuing) }
    {
        let first = sent_by_at(&self.agents, g, 0);
        let Some(agent) = self.agents.get_mut(g as usize) else {
            return;
        };
        agent.account.pop();
        index(
            &self.agents,
            &self.unreleased,
            &mut self.heads,
            &mut self.ready,
            g,
            first,
        );
    }

    /// Ends its first action, which carries these. A refused call changes nothing.
    pub(crate) fn end(
        &mut self,
        alloc: Global,
        guards: &Guards,
        g: u32,
        judgement: Result<Value, AgentError>,
        carries: &[Carry],
    ) -> Result<Finished, AllocError>
        requires { g < length self.old.items }
        ensures ends { OnOk result (self.new
            ≡ with_items self.old (change_agent self.old.items g (ending judgement carries.now))) }
        ensures answer { IfOk result (λ finished. IsEnd g (keys_at guards.now g) judgement finished (slice_get self.old.items g)) }
        ensures err { OnErr result (self.new ≡ self.old) }
    {
        let first = sent_by_at(&self.agents, g, 0);
        let second = sent_by_at(&self.agents, g, 1);
        add_head(&mut self.heads, g, second)?;
        let agent = &mut self.agents[g as usize];
        let ended = agent.end(alloc, guards, g, judgement, carries);
        index(
            &self.agents,
            &self.unreleased,
            &mut self.heads,
            &mut self.ready,
            g,
            first,
        );
        forget_head(&self.agents, &mut self.heads, g, second);
        ended
    }

    /// Begins anew with this state, with an empty queue or with the same. A refused call changes nothing.
    pub(crate) fn restart(&mut self, g: u32, state: Value, clear: bool) -> Result<(), AllocError>
        ensures ok { OnOk result (self.new
            ≡ with_items self.old (change_agent self.old.items g (revived state clear))) }
        ensures err { OnErr result (self.new ≡ self.old) }
    {
        let first = sent_by_at(&self.agents, g, 0);
        let Some(agent) = self.agents.get_mut(g as usize) else {
            return Ok(());
        };
        let start = state.share()?;
        agent.account.restart(start, clear);
        agent.value = state;
        agent.error = None;
        index(
            &self.agents,
            &self.unreleased,
            &mut self.heads,
            &mut self.ready,
            g,
            first,
        );
        Ok(())
    }

    /// Folds its account, which can be folded. A refused call changes nothing.
    pub(crate) fn fold(&mut self, g: u32) -> Result<(), AllocError>
        requires { can_fold_at self.old.items g ≡ true }
        ensures ok { OnOk result (self.new ≡ with_items self.old (change_agent self.old.items g folding)) }
        ensures err { OnErr result (self.new ≡ self.old) }
    {
        let Some(agent) = self.agents.get_mut(g as usize) else {
            return Ok(());
        };
        let start = agent.value.share()?;
        agent.account.fold(start);
        Ok(())
    }

    /// What an action of g carried to the agent h is released.
    pub(crate) fn release_to(&mut self, h: u32, g: u32)
        ensures { self.new ≡ with_items self.old (change_agent self.old.items h (releasing g)) }
    {
        let Some(agent) = self.agents.get_mut(h as usize) else {
            return;
        };
        agent.account.release(g);
        index(
            &self.agents,
            &self.unreleased,
            &mut self.heads,
            &mut self.ready,
            h,
            None,
        );
    }

    /// Nothing of what the agent carried is held any more.
    pub(crate) fn put_down(&mut self, g: u32)
        ensures { self.new ≡ with_items self.old (change_agent self.old.items g (carrying false)) }
    {
        let Some(agent) = self.agents.get_mut(g as usize) else {
            return;
        };
        agent.is_carrying = false;
        index(
            &self.agents,
            &self.unreleased,
            &mut self.heads,
            &mut self.ready,
            g,
            None,
        );
    }
}
