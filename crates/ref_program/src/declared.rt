//! What a world is to begin with.
use crate::faults::Fault;
use crate::values::edn;
use ref_agents::{AgentStart, AtomStart, ErrorMode, RefStart, Start};
use ref_fun::{IntoArgs, IntoValue, Keyword, Rule};
use ref_log::Who;
use ref_value::Value;
use std::alloc::Global;

/// What a world is to begin with. References are numbered from 0 by kind, in the order in which they are declared; each call returns the
/// number. A value is given by its EDN text.
#[derive(Drop)]
pub struct Declared {
    pub(crate) alloc: Global,
    pub(crate) start: Start,
    pub(crate) watches: Vec<Watch>,
}

// A watch of a reference, by its key.
#[derive(Drop)]
pub(crate) struct Watch {
    pub(crate) who: Who,
    pub(crate) key: Value,
}

impl Declared {
    pub(crate) fn nothing(alloc: Global) -> Declared {
        let start = Start {
            refs: Vec::new(alloc),
            atoms: Vec::new(alloc),
            agents: Vec::new(alloc),
        };
        Declared {
            alloc,
            start,
            watches: Vec::new(alloc),
        }
    }

    /// A ref: Clojure's `(ref value)`.
    pub fn make_ref(&mut self, value: &str) -> Result<u32, Fault> {
        self.push_ref(value, None, false)
    }

    /// A ref whose rule, Clojure's `:validator`, is a predicate with these arguments.
    pub fn make_ref_with<A: IntoArgs>(
        &mut self,
        value: &str,
        code: u32,
        args: A,
    ) -> Result<u32, Fault> {
        let rule = self.rule(code, args)?;
        self.push_ref(value, Some(rule), false)
    }

    /// The tally: a ref from 0 on that is only added to and taken from, by `commute`. The totals of a run say how much.
    pub fn make_tally(&mut self, value: &str) -> Result<u32, Fault> {
        self.push_ref(value, None, true)
    }

    /// An atom: Clojure's `(atom value)`.
    pub fn make_atom(&mut self, value: &str) -> Result<u32, Fault> {
        self.push_atom(value, None)
    }

    /// An atom whose rule is a predicate with these arguments.
    pub fn make_atom_with<A: IntoArgs>(
        &mut self,
        value: &str,
        code: u32,
        args: A,
    ) -> Result<u32, Fault> {
        let rule = self.rule(code, args)?;
        self.push_atom(value, Some(rule))
    }

    /// An agent: Clojure's `(agent state :error-mode mode)`.
    pub fn make_agent(&mut self, state: &str, mode: ErrorMode) -> Result<u32, Fault> {
        self.push_agent(state, None, mode)
    }

    /// An agent whose rule is a predicate with these arguments.
    pub fn make_agent_with<A: IntoArgs>(
        &mut self,
        state: &str,
        mode: ErrorMode,
        code: u32,
        args: A,
    ) -> Result<u32, Fault> {
        let rule = self.rule(code, args)?;
        self.push_agent(state, Some(rule), mode)
    }

    /// A watch of a reference that is declared, by its key: Clojure's `add-watch`. The sinks of a
    /// [`CustomProgram`](crate::CustomProgram) get its notices.
    pub fn watch(&mut self, who: Who, key: Keyword) -> Result<(), Fault> {
        let key = key.into_value(self.alloc)?;
        self.watches.push(Watch { who, key })?;
        Ok(())
    }

    fn rule<A: IntoArgs>(&self, code: u32, args: A) -> Result<Rule, Fault> {
        let args = args.into_args(self.alloc)?;
        Ok(Rule { code, args })
    }

    fn push_ref(&mut self, value: &str, rule: Option<Rule>, tally: bool) -> Result<u32, Fault> {
        let value = edn(self.alloc, value)?;
        let number = number_of(self.start.refs.len())?;
        self.start.refs.push(RefStart { value, rule, tally })?;
        Ok(number)
    }

    fn push_atom(&mut self, value: &str, rule: Option<Rule>) -> Result<u32, Fault> {
        let value = edn(self.alloc, value)?;
        let number = number_of(self.start.atoms.len())?;
        self.start.atoms.push(AtomStart { value, rule })?;
        Ok(number)
    }

    fn push_agent(
        &mut self,
        state: &str,
        rule: Option<Rule>,
        mode: ErrorMode,
    ) -> Result<u32, Fault> {
        let value = edn(self.alloc, state)?;
        let number = number_of(self.start.agents.len())?;
        self.start.agents.push(AgentStart { value, rule, mode })?;
        Ok(number)
    }
}

// The number of the reference that is declared behind so many: no memory holds 2^32 of them.
fn number_of(count: usize) -> Result<u32, Fault> {
    u32::try_from(count).ok().ok_or(Fault::Memory)
}
