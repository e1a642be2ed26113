//! The words of dumps: keys, tags, marks and statuses, all of them keywords.
ghost use Rattle.std.specs.Prelude.{◌≡◌, true, IfOk};
ghost use Rattle.ref_value.specs.Edn.{keyword};
ghost use Rattle.ref_value.specs.Names.{is_keyword};
ghost use Rattle.ref_audit.specs.Made.{word_text};

use ref_value::{Node, Value};
use std::alloc::{AllocError, Global};

/// A word of dumps.
#[derive(Clone, Copy, Debug, Drop, PartialEq, Eq)]
pub enum Word {
    Added,
    Agents,
    Alter,
    Atoms,
    BaseAtoms,
    BaseRefs,
    Commits,
    Commute,
    Done,
    Dump,
    Ensure,
    Entries,
    Failed,
    Folded,
    MadeAtom,
    MadeRef,
    Passed,
    Point,
    Ready,
    Refs,
    Reset,
    Set,
    Swap,
    Taken,
    Tally,
    Tx,
}

impl Word {
    /// How the word is written, without the colon.
    pub fn name(self) -> &'static str
        ensures { result.now ≡ word_text self }
    {
        match self {
            Word::Added => "added",
            Word::Agents => "agents",
            Word::Alter => "alter",
            Word::Atoms => "atoms",
            Word::BaseAtoms => "base-atoms",
            Word::BaseRefs => "base-refs",
            Word::Commits => "commits",
            Word::Commute => "commute",
            Word::Done => "done",
            Word::Dump => "dump",
            Word::Ensure => "ensure",
            Word::Entries => "entries",
            Word::Failed => "failed",
            Word::Folded => "folded",
            Word::MadeAtom => "made-atom",
            Word::MadeRef => "made-ref",
            Word::Passed => "passed",
            Word::Point => "point",
            Word::Ready => "ready",
            Word::Refs => "refs",
            Word::Reset => "reset",
            Word::Set => "set",
            Word::Swap => "swap",
            Word::Taken => "taken",
            Word::Tally => "tally",
            Word::Tx => "tx",
        }
    }

    /// The word as a keyword.
    #[tactic(auto, using(crate::proofs::WordNames::is_keyword_word))]
    pub fn keyword(self, alloc: Global) -> Result<Value, AllocError>
        ensures { IfOk result (λ v. v ≡ keyword (word_text self)) }
    {
        keyword_of(alloc, self.name())
    }
}

// A keyword of this name.
fn keyword_of(alloc: Global, name: &str) -> Result<Value, AllocError>
    requires { is_keyword name.now ≡ true }
    ensures { IfOk result (λ v. v ≡ keyword name.now) }
{
    match Value::of(Node::keyword(alloc, name)?) {
        Ok(value) => Ok(value),
        Err(_) => unreachable!(),
    }
}
