//! The log of a world of references, and its replay.
//!
//! An [`Entry`] is one committed change, of refs by a transaction or of one atom, or the making of a reference. It has a
//! point: the entries after a [`Base`] have the points after the base's, one by one. [`replay_plain`] applies the entries
//! to the base's values, slowly and plainly, and returns the values at the end of a log, or the first entry whose
//! kept answers can't be right. [`fold`] makes a base of a base and the entries that are the first after it, so that the others
//! stand on that one.
//!
//! It also has what all kinds of references have in common, as Clojure's refs, atoms and agents have: a validator,
//! called a rule here, and watches. [`Guards`] holds them for the references of a kind; [`check_make`] asks what a making has to
//! meet.
//!
//! | Type | Is |
//! |---|---|
//! | [`Op`], [`Done`] | an operation; one on a ref, with its answer |
//! | [`Entry`], [`Transaction`], [`Stamp`] | one committed change; that of a transaction; who made it |
//! | [`Base`], [`PlainState`] | what a log begins with, and what its replay ends with |
//! | [`Side`] | which way an operation moves the tally; [`counting`] has how far |
//! | [`Guard`], [`Guards`], [`Watches`] | the rule and the watches of one reference, and of all of a kind |
//! | [`Who`], [`Notice`], [`Sent`] | a reference, the notice for a watch, what a transaction sends |
//! | [`MakeFault`], [`RuleFault`], [`WatchFault`], [`AuditFault`] | why a call that all kinds have is refused, and why entries have no replay |
//! | [`SharedVec`], [`Shareable`], [`Same`] | of `ref_fun`: a list with several owners, what can have one more, and what can be compared whole, as two entries |
//!
//! A replay costs time and memory linear in the references and operations. It promises nothing about how fast: it is what
//! faster code is held against.
#![tactic(auto)]

pub mod calling;
pub mod counting;
pub mod entries;
pub mod faults;
pub mod folding;
pub mod guards;
mod lasts;
pub mod lists;
pub mod making;
pub mod notices;
pub mod operations;
pub mod replay;
mod same;
pub mod sends;
pub mod states;
pub mod watches;

pub use calling::lacking_fun;
pub use counting::Side;
pub use entries::{Entry, Stamp, Transaction};
pub use faults::{AuditFault, MakeFault, RuleFault, WatchFault};
pub use folding::fold;
pub use guards::{Guard, Guards};
pub use lists::vector_of;
pub use making::{LAST_POINT, MOST_REFERENCES, check_make};
pub use notices::{Notice, Who};
pub use operations::{Done, Op, protected_refs};
pub use ref_fun::{Args, Same, Shareable, SharedVec, share_all};
pub use replay::replay_plain;
pub use sends::Sent;
pub use states::{Base, PlainState};
pub use watches::Watches;
