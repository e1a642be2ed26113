//! The word of a text.
ghost use Rattle.std.specs.Option.{option_copied};
ghost use Rattle.std.specs.Prelude.{◌≡◌, map, option_map};
ghost use Rattle.ref_calls.specs.Words.{act_at, act_named, has_word, operation_at, operation_named, row_named, step_at, step_named, words};

use crate::rows::{Stands, Word};
use crate::words::{ActWord, OperationWord, StepWord, Version, WORDS};
use ref_forms::plain::is_same;

fn row_named(rows: &'static [Word], name: &[u8]) -> Option<&'static Word>
    ensures { option_map (λ w. (w.stands, w.since)) (option_copied result)
        ≡ row_named (map (λ w. (w.word.now, w.stands, w.since)) rows.now) name.now }
{
    for row in rows {
        if is_same(row.word.as_bytes(), name) {
            return Some(row);
        }
    }
    None
}

/// The row of a word.
#[tactic(auto, unfolding(crate::specs::Words::words))]
pub fn word_named(name: &[u8]) -> Option<&'static Word>
    ensures { option_map (λ w. (w.stands, w.since)) (option_copied result) ≡ row_named words name.now }
{
    row_named(WORDS, name)
}

impl Stands {
    /// The step that it is the word of.
    pub fn step(self) -> Option<StepWord>
        ensures { result ≡ step_at self }
    {
        match self {
            Stands::Step(word) | Stands::StepAndAct(word, _) | Stands::Anywhere(word, _, _) => {
                Some(word)
            }
            _ => None,
        }
    }

    /// The operation that it is the word of.
    pub fn operation(self) -> Option<OperationWord>
        ensures { result ≡ operation_at self }
    {
        match self {
            Stands::Operation(word)
            | Stands::OperationAndAct(word, _)
            | Stands::Anywhere(_, word, _) => Some(word),
            _ => None,
        }
    }

    /// The act that it is the word of.
    pub fn act(self) -> Option<ActWord>
        ensures { result ≡ act_at self }
    {
        match self {
            Stands::Act(word)
            | Stands::StepAndAct(_, word)
            | Stands::OperationAndAct(_, word)
            | Stands::Anywhere(_, _, word) => Some(word),
            _ => None,
        }
    }
}

impl Version {
    /// Whether workloads of this version have the words that came with another one.
    pub fn has(self, since: Version) -> bool
        ensures { result ≡ has_word self since }
    {
        match (self, since) {
            (Version::One, Version::Two) => false,
            _ => true,
        }
    }
}

/// The step of a workload of this version that begins with this word.
pub fn step_named(version: Version, name: &[u8]) -> Option<StepWord>
    ensures { result ≡ step_named version name.now }
{
    let row = word_named(name)?;
    if version.has(row.since) {
        row.stands.step()
    } else {
        None
    }
}

/// The operation in a workload of this version that begins with this word.
pub fn operation_named(version: Version, name: &[u8]) -> Option<OperationWord>
    ensures { result ≡ operation_named version name.now }
{
    let row = word_named(name)?;
    if version.has(row.since) {
        row.stands.operation()
    } else {
        None
    }
}

/// The act of this word.
pub fn act_named(name: &[u8]) -> Option<ActWord>
    ensures { result ≡ act_named name.now }
{
    word_named(name)?.stands.act()
}
