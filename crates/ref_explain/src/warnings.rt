//! What of a workload can never work.
use crate::calls::{Call, carried_call, carries_of, own_call};
use crate::documents::{Named, names_of, part_of};
use crate::forms::{Form, Members};
use crate::refusals::{MOST_SHOWN, bad_count};
use crate::sentences::{Said, said_in};
use crate::writing::Writing;
use ref_calls::{Sentence, Slot};
use std::alloc::{AllocError, Global};

// The names that are declared, in order.
fn sorted<'a>(alloc: Global, names: &[Named<'a>]) -> Result<Vec<&'a [u8]>, AllocError> {
    let mut sorted = Vec::new(alloc);
    for named in names {
        sorted.push(named.name)?;
    }
    sorted.sort()?;
    Ok(sorted)
}

/// Warnings, as far as they are shown.
#[derive(Drop)]
struct Warnings<'a> {
    writing: Writing<'a>,
    names: Vec<&'a [u8]>,
    all: usize,
}

impl<'a> Warnings<'a> {
    // Counts one more warning. Whether it is shown.
    fn is_next_shown(&mut self) -> bool {
        self.all = self.all.saturating_add(1);
        self.all <= MOST_SHOWN
    }

    fn argument(&mut self, form: &Form<'_>) -> Result<(), AllocError> {
        let Some(name) = form.symbol() else {
            return Ok(());
        };
        if self.names.binary_search(&name).is_err() || !self.is_next_shown() {
            return Ok(());
        }
        self.writing
            .line("refrun: warning: an argument is the name of a reference")?;
        self.writing.mark(
            form,
            "arguments are constants; no operation reads another reference",
        )
    }

    // The arguments of a call, or the value that is set.
    fn arguments(&mut self, said: &Said<'_>) -> Result<(), AllocError> {
        let mut parts = said.rest;
        for slot in said.word.slots {
            match slot {
                Slot::Arguments => return self.all_arguments(parts),
                Slot::Call => return self.carried_arguments(said),
                Slot::Value => {
                    if let Some(part) = parts.next() {
                        self.argument(&part)?;
                    }
                }
                _ => {
                    let _other = parts.next();
                }
            }
        }
        Ok(())
    }

    // Those of a call in a vector, and of the sends that it carries.
    fn carried_arguments(&mut self, said: &Said<'_>) -> Result<(), AllocError> {
        if let Some(call) = own_call(said) {
            self.all_arguments(call.args)?;
        }
        if let Some(carries) = carries_of(said) {
            for carry in carries {
                if let Some(call) = carried_call(&carry) {
                    self.all_arguments(call.args)?;
                }
            }
        }
        Ok(())
    }

    fn all_arguments(&mut self, parts: Members<'_>) -> Result<(), AllocError> {
        for part in parts {
            self.argument(&part)?;
        }
        Ok(())
    }

    fn count(&mut self, call: Call<'_>) -> Result<(), AllocError> {
        let Some((function, message)) = bad_count(call) else {
            return Ok(());
        };
        if !self.is_next_shown() {
            return Ok(());
        }
        self.writing
            .line("refrun: warning: this is refused each time")?;
        self.writing.mark(&function, message)
    }

    fn counts(&mut self, said: &Said<'_>) -> Result<(), AllocError> {
        if let Some(call) = own_call(said) {
            self.count(call)?;
        }
        if let Some(carries) = carries_of(said) {
            for carry in carries {
                if let Some(call) = carried_call(&carry) {
                    self.count(call)?;
                }
            }
        }
        Ok(())
    }

    fn sentence(&mut self, sentence: Sentence, form: &Form<'_>) -> Result<(), AllocError> {
        match said_in(sentence, form) {
            Some(said) => {
                self.counts(&said)?;
                self.arguments(&said)
            }
            None => Ok(()),
        }
    }

    fn step(&mut self, form: &Form<'_>) -> Result<(), AllocError> {
        match said_in(Sentence::Step, form) {
            Some(said) if said.is_transaction() => {
                for operation in said.rest {
                    self.sentence(Sentence::Operation, &operation)?;
                }
                Ok(())
            }
            _ => self.sentence(Sentence::Step, form),
        }
    }

    fn workers(&mut self) -> Result<(), AllocError> {
        let Some(workers) = part_of(self.writing.text, "workers") else {
            return Ok(());
        };
        for worker in workers.members() {
            for step in worker.members() {
                self.step(&step)?;
            }
        }
        Ok(())
    }
}

/// What of a workload can never work: calls with a number of arguments that the function never takes, and arguments that are the
/// name of a reference. At most ten are shown. The text is a workload.
pub fn warnings_of(alloc: Global, text: &[u8]) -> Result<String, AllocError> {
    let names = names_of(alloc, text)?;
    let mut warnings = Warnings {
        writing: Writing::new(alloc, text),
        names: sorted(alloc, &names)?,
        all: 0,
    };
    warnings.workers()?;
    let left = warnings.all.saturating_sub(MOST_SHOWN);
    if left > 0 {
        let line = format!(in alloc; "and {left} more")?;
        warnings.writing.line(line.as_str())?;
    }
    let Warnings {
        writing,
        names: _,
        all: _,
    } = warnings;
    Ok(writing.into_output())
}
