//! How what an action carried is released.
ghost use Rattle.std.specs.Prelude.{◌≡◌, ℕ, false};
ghost use Rattle.ref_agents.specs.Agents.{carries_at, carrying, change_agent, is_carrying_at, releasing, with_agents, with_carried_released};
ghost use Rattle.ref_agents.specs.Carried.{held_by, queue_at};

use crate::agents::{Agent, AgentStore};
use ref_fun::{Carry, Meaning};

impl<M: Meaning> AgentStore<M> {
    /// Releases what the last handled action of an agent carried, and returns whether it carried anything that wasn't released,
    /// even if all of it was dropped meanwhile. From now on it waits as if it was sent from outside, and the agent may be ready
    /// again. It takes no memory. For each send that was carried the time is logarithmic in the number of such sends that wait for its
    /// agent.
    pub fn release_carried(&mut self, g: u32) -> bool
        ensures was { result ≡ is_carrying_at self.old.agents g }
        ensures releases { self.new ≡ with_carried_released self.old g }
        // Nothing that waits is held in its name any more.
        ensures free { (h : ℕ) → held_by g (queue_at self.new.agents h) ≡ 0 }
    {
        if !is_carrying(self.agents.as_slice(), g) {
            return false;
        }
        for i in 0..carries(self.agents.as_slice(), g).len() {
            let h = carries(self.agents.as_slice(), g)[i].g;
            self.release_to(h, g);
        }
        self.put_down(g);
        true
    }

    // What an action of g carried to the agent h is released.
    fn release_to(&mut self, h: u32, g: u32)
        ensures { self.new ≡ with_agents self.old (change_agent self.old.agents h (releasing g)) }
    {
        self.agents.release_to(h, g);
    }

    // Nothing of what an agent carried is held any more.
    fn put_down(&mut self, g: u32)
        requires { (h : ℕ) → held_by g (queue_at self.old.agents h) ≡ 0 }
        ensures { self.new ≡ with_agents self.old (change_agent self.old.agents g (carrying false)) }
    {
        self.agents.put_down(g);
    }
}

// Whether what the last action of an agent carried isn't released.
fn is_carrying(agents: &[Agent], g: u32) -> bool
    ensures { result ≡ is_carrying_at agents.now g }
{
    match agents.get(g as usize) {
        Some(agent) => agent.is_carrying,
        None => false,
    }
}

// What it carried.
fn carries(agents: &[Agent], g: u32) -> &[Carry]
    ensures { result.now ≡ carries_at agents.now g }
{
    match agents.get(g as usize) {
        Some(agent) => agent.account.carries(),
        None => &[],
    }
}
