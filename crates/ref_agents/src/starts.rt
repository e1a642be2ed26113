//! What a world begins with.
use crate::agents::ErrorMode;
use ref_fun::Rule;
use ref_value::Value;

/// A ref that is declared: its value, its rule, if it has one, and whether it is the tally.
#[derive(Drop)]
pub struct RefStart {
    pub value: Value,
    pub rule: Option<Rule>,
    pub tally: bool,
}

/// An atom that is declared: its value, and its rule, if it has one.
#[derive(Drop)]
pub struct AtomStart {
    pub value: Value,
    pub rule: Option<Rule>,
}

/// An agent that is declared: its state, its rule, if it has one, and its error mode.
#[derive(Drop)]
pub struct AgentStart {
    pub value: Value,
    pub rule: Option<Rule>,
    pub mode: ErrorMode,
}

/// The references that a world begins with. Each gets the next number of its kind.
#[derive(Drop)]
pub struct Start {
    pub refs: Vec<RefStart>,
    pub atoms: Vec<AtomStart>,
    pub agents: Vec<AgentStart>,
}
