//! Words, forms and names as they are written.
use crate::finding::word_named;
use crate::rows::Word;
use crate::slots::Slot;
use crate::words::{Sentence, Version, WORDS};
use ref_fun::codes::{AT_LEAST, DISJ, IS_SOME, PLUS};
use ref_fun::name_of;
use std::alloc::{AllocError, Global};

impl Sentence {
    /// What it is called.
    pub fn called(self) -> &'static str {
        match self {
            Sentence::Step => "step",
            Sentence::Operation => "operation",
            Sentence::Act => "act",
        }
    }

    /// The word of this name, if such a sentence begins with it, in whatever version.
    pub fn find(self, name: &[u8]) -> Option<&'static Word> {
        let word = word_named(name)?;
        if word.begins(self) { Some(word) } else { None }
    }

    /// The words that such sentences begin with, each behind its colon, with a blank between two. Those that only workloads of version 2
    /// have come last, and it is said so.
    pub fn words(self, alloc: Global) -> Result<String, AllocError> {
        let mut text = String::new(alloc);
        for word in WORDS {
            if word.begins(self) && !self.is_later(word) {
                if !text.is_empty() {
                    text.push_str(" ")?;
                }
                text.push_str(":")?;
                text.push_str(word.word)?;
            }
        }
        self.push_later(&mut text)?;
        Ok(text)
    }

    // Whether version 1 lacks the word.
    fn is_later(self, word: &Word) -> bool {
        self != Sentence::Act && word.since == Version::Two
    }

    fn push_later(self, text: &mut String) -> Result<(), AllocError> {
        let mut is_first = true;
        for word in WORDS {
            if word.begins(self) && self.is_later(word) {
                text.push_str(if is_first {
                    ", and in version 2 :"
                } else {
                    " :"
                })?;
                text.push_str(word.word)?;
                is_first = false;
            }
        }
        Ok(())
    }
}

// What may stand behind a form, and needn't.
fn tail(slot: Slot) -> &'static str {
    match slot {
        Slot::MaybeRule => ", then a rule or nil",
        Slot::MaybeMode => ", then :fail or :continue",
        Slot::MaybeTally => ", then :tally",
        _ => "",
    }
}

impl Word {
    /// Whether such a sentence begins with it, in whatever version.
    pub fn begins(&self, sentence: Sentence) -> bool {
        match sentence {
            Sentence::Step => self.stands.step().is_some(),
            Sentence::Operation => self.stands.operation().is_some(),
            Sentence::Act => self.stands.act().is_some(),
        }
    }

    /// How such a sentence is written, as in `[:restart G V] or [:restart G V :clear]`.
    pub fn written(&self, alloc: Global, sentence: Sentence) -> Result<String, AllocError> {
        let mut text = String::new(alloc);
        for form in self.forms {
            if !text.is_empty() {
                text.push_str(" or ")?;
            }
            text.push_str(match sentence {
                Sentence::Act => "[ACTOR ",
                _ => "[",
            })?;
            text.push_str(form)?;
            text.push_str("]")?;
        }
        for slot in self.slots {
            text.push_str(tail(*slot))?;
        }
        Ok(text)
    }
}

fn names(alloc: Global, first: u32, last: u32) -> Result<String, AllocError> {
    let mut text = String::new(alloc);
    for code in first..=last {
        if let Some(name) = name_of(code) {
            if !text.is_empty() {
                text.push_str(" ")?;
            }
            text.push_str(name)?;
        }
    }
    Ok(text)
}

/// The names of the functions of Core, with a blank between two.
pub fn functions(alloc: Global) -> Result<String, AllocError> {
    names(alloc, PLUS, DISJ)
}

/// The names of the predicates of Core, with a blank between two.
pub fn predicates(alloc: Global) -> Result<String, AllocError> {
    names(alloc, AT_LEAST, IS_SOME)
}
