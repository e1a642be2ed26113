//! Functions and predicates named by codes, and what they mean.
//!
//! A [`Meaning`] says, for each code, which value the function gives or why it refuses, and what the predicate accepts.
//! [`Core`] is the meaning of those that come with this project: [`core_fun`] calls a function, [`core_test`] a
//! predicate, and [`code_of`] and [`name_of`] are from names to codes and back; [`codes`] has the codes as constants. Functions and
//! predicates take a state and at most 8 arguments, all of them EDN values. A [`Rule`] is a predicate with its arguments, and an
//! [`Action`] a function with its arguments and at most 8 sends that it carries ([`Carries`]). [`missing_fun`] and [`absent_agent`]
//! say what an action lacks in a table, and among the agents. A [`SharedVec`] is a list with several owners, as the arguments and
//! the sends are; [`Same`] compares what is made of them.
//!
//! A program that has no functions of its own takes [`CoreFunctions`], the table of Core. Another runs closures: a [`StoredFun`] or
//! [`StoredPred`] is a closure under a code, which is made only with a proof that it answers what Core means by the code, and a
//! [`FunTable`] holds at most 64 of each kind. Generic code asks a table through the trait [`Functions`], for any meaning.
//!
//! A look-up is logarithmic in the table. A function of integers takes constant time for each argument and no memory; one of
//! collections takes log n steps for each argument, in time and in memory, and what it answers shares the rest with the state. A
//! closure may take what time it likes; no contract speaks of that.
#![tactic(auto)]

pub mod actions;
pub mod arguments;
pub mod carries;
pub mod codes;
mod collections;
pub mod conversions;
pub mod core_functions;
pub mod faults;
pub mod functions;
mod integers;
mod kinds;
pub mod lists;
pub mod meanings;
pub mod names;
pub mod predicates;
pub mod rules;
pub mod same;
pub mod stored;
pub mod tables;

pub use actions::{Action, absent_agent, missing_fun};
pub use arguments::{Args, MOST_ARGUMENTS};
pub use carries::{Carries, Carry, MOST_CARRIES};
pub use collections::MOST_NESTED_RESULT;
pub use conversions::{IntoArgs, IntoValue, Keyword};
pub use core_functions::CoreFunctions;
pub use faults::{AddFault, CallFault, Cause, FunFault};
pub use functions::core_fun;
pub use lists::{Shareable, SharedVec, share_all};
pub use meanings::{Core, Meaning};
pub use names::{code_of, is_function, is_predicate, name_of};
pub use predicates::core_test;
pub use rules::{Rule, check_known, passes, share_rule};
pub use same::Same;
pub use stored::{Fun, Pred, StoredFun, StoredPred};
pub use tables::{FunTable, Functions, MOST_FUNCTIONS, has_core};
