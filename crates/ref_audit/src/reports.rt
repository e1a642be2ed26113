//! What a report says.
pub use ref_forms::Names;
use ref_fun::Cause;
use ref_log::Stamp;
pub use ref_verdict::reports::Verdict;

/// Why a step was refused.
#[derive(Clone, Copy, Debug, Drop, PartialEq, Eq)]
pub enum Reason {
    /// A ref was set or altered after it was commuted in the same transaction.
    SetAfterCommute,
    /// The tally was changed in another way than by adding to it and taking from it.
    TallyOnly,
    /// A function refused.
    Refused(Cause),
    /// A transaction's requirement wasn't met.
    NotMet,
    /// A rule doesn't accept the new value.
    Invalid,
    /// Each try of a transaction was in conflict.
    GaveUp,
    /// There are no more points.
    PointLimit,
    /// What is added to the tally in all, or taken from it, would pass 9223372036854775807.
    BookFull,
    /// The agent is failed, and takes no send.
    AgentFailed,
    /// The agent isn't failed, and isn't restarted.
    NotFailed,
}

/// A step that was refused, and why.
#[derive(Clone, Copy, Debug, Drop, PartialEq, Eq)]
pub struct Refusal {
    pub stamp: Stamp,
    pub reason: Reason,
}
