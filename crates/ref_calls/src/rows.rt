//! What the table says of a word.
use crate::slots::Slot;
use crate::words::{ActWord, OperationWord, StepWord, Version};

/// What a word is the word of.
#[derive(Clone, Copy, Debug, Drop, PartialEq, Eq)]
pub enum Stands {
    Step(StepWord),
    Operation(OperationWord),
    Act(ActWord),
    StepAndAct(StepWord, ActWord),
    OperationAndAct(OperationWord, ActWord),
    Anywhere(StepWord, OperationWord, ActWord),
}

/// A word with what stands behind it.
#[derive(Clone, Copy, Debug, Drop)]
pub struct Word {
    /// The keyword, without its colon.
    pub word: &'static str,
    pub stands: Stands,
    /// The first version of workloads that has it as the word of a step or operation.
    pub since: Version,
    pub slots: &'static [Slot],
    /// Both as they are written, in one or two ways; without what `slots` lets be left out behind a value.
    pub forms: &'static [&'static str],
    /// Clojure's name for it, empty where it has none.
    pub clojure: &'static str,
}
