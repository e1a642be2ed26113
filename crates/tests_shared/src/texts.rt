//! The words of a call, and what calls say as text.
ghost use Rattle.std.specs.Prelude.{◌<◌};

use crate::tables::Poor;
use crate::worlds::{action, at_least, one_arg, told_of};
use ref_agents::Finished;
use ref_fun::codes::{MINUS, PLUS};
use ref_fun::{Action, Carries, Carry, Rule};
use ref_log::{Notice, Who};
use ref_shared::WatchSink;
use std::alloc::{AllocError, Global};
use std::fmt::Display;

pub(crate) type Said = Result<String, AllocError>;

// What is said of words that mean no call.
pub(crate) const NO_CALL: &str = "no such call";

// ---- Words

pub(crate) fn words<'t>(alloc: Global, text: &'t str) -> Result<Vec<&'t str>, AllocError> {
    let mut words = Vec::new(alloc);
    for word in text.split_whitespace() {
        words.push(word)?;
    }
    Ok(words)
}

// The word of this place, or an empty one.
pub(crate) fn at<'t>(call: &[&'t str], i: usize) -> &'t str {
    match call.get(i) {
        Some(word) => word,
        None => "",
    }
}

// The number of this place, or 0.
pub(crate) fn number_at(call: &[&str], i: usize) -> u32 {
    at(call, i).parse::<u32>().unwrap_or(0)
}

// The number of this place, which is to be at least 1.
pub(crate) fn count_at(call: &[&str], i: usize) -> u32
    ensures { 0 < result }
{
    let count = number_at(call, i);
    if count > 0 { count } else { 1 }
}

// The number of the reference of this place, or one of which there is none.
pub(crate) fn index_at(call: &[&str], i: usize) -> u32 {
    let digits = at(call, i).get(1..).unwrap_or("");
    digits.parse::<u32>().unwrap_or(u32::MAX)
}

// The reference of this place.
pub(crate) fn who_at(call: &[&str], i: usize) -> Who {
    let (word, n) = (at(call, i), index_at(call, i));
    if word.starts_with("r") {
        Who::Ref(n)
    } else if word.starts_with("a") {
        Who::Atom(n)
    } else {
        Who::Agent(n)
    }
}

// The code of the function of this place, or one that the table lacks.
pub(crate) fn code_at(call: &[&str], i: usize) -> u32 {
    match at(call, i) {
        "+" => PLUS,
        "-" => MINUS,
        _ => 999,
    }
}

// The table of this place.
pub(crate) fn table_at(call: &[&str], i: usize) -> Poor {
    let word = at(call, i);
    Poor {
        has_memory: word != "no-memory",
        has_predicates: word != "no-predicates",
    }
}

// The rule of this place, if there is one.
pub(crate) fn rule_at(alloc: Global, call: &[&str], i: usize) -> Result<Option<Rule>, AllocError> {
    match at(call, i) {
        "" => Ok(None),
        bound => Ok(Some(at_least(alloc, bound)?)),
    }
}

// The action of a call to an agent. What is carried goes to the next agent: `+ 1`, or with another argument.
pub(crate) fn action_of(alloc: Global, call: &[&str]) -> Result<Action, AllocError> {
    let mut action = action(alloc, code_at(call, 2), at(call, 3))?;
    if at(call, 0) == "carry" {
        let g = index_at(call, 1).saturating_add(1);
        let argument = if call.len() > 4 { at(call, 4) } else { "1" };
        let (code, args) = (PLUS, one_arg(alloc, argument)?);
        action.carries = Carries::of(alloc, vec![in alloc; Carry { g, code, args }]?)?;
    }
    Ok(action)
}

// ---- What is said

pub(crate) fn text(alloc: Global, words: &str) -> Said {
    String::from_str(alloc, words)
}

pub(crate) fn said<T: Display + Drop, E: Display + Drop>(
    alloc: Global,
    answer: Result<T, E>,
) -> Said {
    match answer {
        Ok(answer) => format!(in alloc; "{answer}"),
        Err(fault) => format!(in alloc; "{fault}"),
    }
}

// `ok`, or the fault.
pub(crate) fn fault<E: Display + Drop>(alloc: Global, answer: Result<(), E>) -> Said {
    said(alloc, answer.map(|()| "ok"))
}

// `ok` where it did so and `no` where it didn't, or the fault.
pub(crate) fn truth<E: Display + Drop>(alloc: Global, answer: Result<bool, E>) -> Said {
    said(alloc, answer.map(|done| if done { "ok" } else { "no" }))
}

pub(crate) fn number(alloc: Global, n: Option<i64>) -> Said {
    match n {
        Some(n) => format!(in alloc; "{n}"),
        None => text(alloc, "none"),
    }
}

// Adds a text to others, behind a comma if there are any, and nothing for an empty one.
pub(crate) fn add_item(list: &mut String, item: &str) -> Result<(), AllocError> {
    if !list.is_empty() && !item.is_empty() {
        list.push_str(", ")?;
    }
    list.push_str(item)
}

// Adds a reply to those of the calls before it in a row, without their `ok` if the last of them said that.
pub(crate) fn add_reply(list: &mut String, reply: Said) -> Result<(), AllocError> {
    let reply = reply?;
    if list.as_str() == "ok" || list.ends_with("; ok") {
        let _ = (list.pop(), list.pop());
    } else if !list.is_empty() {
        list.push_str("; ")?;
    }
    list.push_str(&reply)
}

// As `r0 :k 1 -> 2`.
fn notice_text(alloc: Global, notice: &Notice) -> Said {
    let (who, is_k, before, after) = told_of(notice);
    let (kind, n) = match who {
        Who::Ref(n) => ("r", n),
        Who::Atom(n) => ("a", n),
        Who::Agent(n) => ("g", n),
    };
    let (before, after) = (number(alloc, before)?, number(alloc, after)?);
    let key = if is_k { ":k" } else { "another" };
    format!(in alloc; "{kind}{n} {key} {before} -> {after}")
}

// A text, and the notices behind it.
pub(crate) fn with_notices(first: Said, alloc: Global, notices: &[Notice]) -> Said {
    let mut list = first?;
    for notice in notices {
        add_item(&mut list, &notice_text(alloc, notice)?)?;
    }
    Ok(list)
}

// A sink that stores what it hears as text, up to where there is no memory: notices, and ends as `g0 changed`.
#[derive(Drop)]
pub(crate) struct Ear {
    pub(crate) alloc: Global,
    pub(crate) heard: String,
}

impl WatchSink for Ear {
    ghost ends = { λ _ _ _ _. Unit {0} };

    fn told(&mut self, notice: &Notice) {
        if let Ok(item) = notice_text(self.alloc, notice) {
            let _ = add_item(&mut self.heard, &item);
        }
    }

    fn ended(&mut self, agent: u32, finished: &Finished) {
        let end = match finished {
            Finished::Changed(_) => format!(in self.alloc; "g{agent} changed"),
            Finished::Failed(error) => format!(in self.alloc; "g{agent} failed: {error}"),
            Finished::Continued(error) => format!(in self.alloc; "g{agent} went on: {error}"),
        };
        if let Ok(item) = end {
            let _ = add_item(&mut self.heard, &item);
        }
    }
}

// What is said first, and what a sink heard.
pub(crate) fn with_heard(first: Said, ear: &Ear) -> Said {
    let mut list = first?;
    add_item(&mut list, &ear.heard)?;
    Ok(list)
}
