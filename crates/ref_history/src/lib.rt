//! What a dump says of a run, for people: its history, its values at a point, and a page with a picture of it.
//!
//! `ref_verdict` reads a dump and judges it; this crate prints what it says. It depends on no world, and runs nothing but the replay of
//! `ref_log`.
//!
//! | Call | |
//! |---|---|
//! | [`write_history`] | writes a line for each entry that a [`Choice`] chooses: who made it, when it began, what it did, what it sent |
//! | [`write_changes`] | writes the same lines, with the values before and after of what an entry touched |
//! | [`values_at`] | returns the values of refs and atoms at a point, by the replay up to there |
//! | [`write_values`] | writes their lines, as a report has them |
//! | [`write_page`] | writes a page in HTML: a picture of the entries of a [`Part`], and a table of the refs |
//! | [`write_look`] | writes each of these but a page, by a [`Look`] |
//! | [`visible_text`], [`visible_char`] | a text, and a character, as people are shown it: a terminal and a page do nothing else with it |
//!
//! What is written is written in pieces while it is made (`ref_output`), so a long text needs little memory.
//! References are printed by the [`Names`](ref_forms::Names) that a caller has, or as `ref 3`. All are linear in the dump and in what is
//! printed, but for the functions that a replay calls.
#![tactic(auto)]

mod befores;
pub mod change_lines;
pub mod drawing;
pub mod entry_lines;
pub mod faults;
pub mod looks;
pub mod places;
mod shown;
mod steps;
pub mod values;
pub mod visible;

pub use change_lines::write_changes;
pub use drawing::escaping::escaped_is_plain;
pub use drawing::frames::{MOST_DRAWN, MOST_WIDE_DRAWN, Part};
pub use drawing::{MOST_ROWS, write_page};
pub use entry_lines::write_history;
pub use faults::LookFault;
pub use looks::{Look, looked_is_visible, write_look};
pub use places::{Choice, Place};
pub use shown::MOST_OF_NAME;
pub use values::{has_point, values_at, write_values};
pub use visible::{visible_char, visible_text};
