//! How failed agents are restarted.
ghost use Rattle.ref_log.specs.Told.{Tells, TellsThenMemory};
ghost use Rattle.std.specs.Prelude.{◌≡◌, ◌≢◌, true, IfErr, OnOk, OnErr, is_some, slice_set};
ghost use Rattle.ref_log.specs.Guards.{AreAccepted};
ghost use Rattle.ref_agents.specs.Agents.{error_at, values_of, with_restart};
ghost use Rattle.ref_agents.specs.Ends.{restart_refusal};
ghost use Rattle.ref_agents.specs.declared.faults.RestartFault.TheVariants.{Memory};

use crate::agents::AgentStore;
use crate::faults::RestartFault;
use ref_fun::{Functions, Meaning};
use ref_value::Value;
use std::alloc::AllocError;

impl<M: Meaning> AgentStore<M> {
    /// Restarts a failed agent with this state, which its rule has to accept, as Clojure's `restart-agent`: it takes sends
    /// again. The actions that wait proceed, or are dropped where `clear` says so. Watches aren't called. A refused call
    /// changes nothing.
    pub fn restart<F: Functions<M>>(
        &mut self,
        funs: &F,
        g: u32,
        state: Value,
        clear: bool,
    ) -> Result<(), RestartFault>
        ensures refused { TellsThenMemory Memory
            (restart_refusal M.accepts (F.knows funs.now).preds self.old g state) result }
        ensures restarts { OnOk result (self.new ≡ with_restart self.old g state clear) }
        ensures err { OnErr result (self.new ≡ self.old) }
    {
        self.check_restart(funs, g, &state)?;
        self.revive(g, state, clear)?;
        Ok(())
    }

    // Checks whether an agent can be restarted with this state.
    fn check_restart<F: Functions<M>>(
        &self,
        funs: &F,
        g: u32,
        state: &Value,
    ) -> Result<(), RestartFault>
        ensures refused { Tells (restart_refusal M.accepts (F.knows funs.now).preds self.now g state.now) result }
        ensures accepted { OnOk result (AreAccepted M.accepts self.now.guards
            (slice_set (values_of self.now.agents) g state.now)) }
        ensures failed { OnOk result (is_some (error_at self.now.agents g) ≡ true) }
        ensures told { IfErr result (λ f. f ≢ Memory) }
    {
        let Some(agent) = self.agents.get(g) else {
            return Err(RestartFault::NoSuchAgent);
        };
        if let Err(code) = self.guards.check_known(funs, g) {
            return Err(RestartFault::NoSuchFun(code));
        }
        if agent.error.is_none() {
            return Err(RestartFault::NotFailed);
        }
        if !self.guards.accepts(funs, g, state) {
            return Err(RestartFault::Invalid);
        }
        Ok(())
    }

    // Restarts a failed agent with a state that its rule accepts.
    fn revive(&mut self, g: u32, state: Value, clear: bool) -> Result<(), AllocError>
        requires failed { is_some (error_at self.old.agents g) ≡ true }
        requires accepted { AreAccepted M.accepts self.old.guards (slice_set (values_of self.old.agents) g state) }
        ensures ok { OnOk result (self.new ≡ with_restart self.old g state clear) }
        ensures err { OnErr result (self.new ≡ self.old) }
    {
        self.agents.restart(g, state, clear)
    }
}
