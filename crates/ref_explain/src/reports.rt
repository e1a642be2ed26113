//! A writer that looks for the refused steps of a report.
ghost use Rattle.std.specs.Prelude.{◌≡◌};

use crate::refusals::{MOST_SHOWN, Refused, WrongCall};
use ref_edn::{Failed, Sink};
use std::alloc::Global;
use std::str::from_utf8;

// The line of a refused step is no longer.
const MOST_LINE: usize = 64;

/// The refused steps of a report, by its lines.
#[derive(Drop)]
pub struct RefusedSteps {
    line: Vec<u8>,
    all: u64,
    shown: Vec<Refused>,
    showable: u64,
}

impl RefusedSteps {
    fn new(alloc: Global) -> RefusedSteps {
        RefusedSteps {
            line: Vec::new(alloc),
            all: 0,
            shown: Vec::new(alloc),
            showable: 0,
        }
    }

    /// How many steps were refused.
    pub fn count(&self) -> u64 {
        self.all
    }

    /// The first ones whose text can show the reason, at most ten.
    pub fn shown(&self) -> &[Refused] {
        self.shown.as_slice()
    }

    /// How many of them there are in all.
    pub fn count_showable(&self) -> u64 {
        self.showable
    }

    fn take(&mut self, bytes: &[u8]) {
        for b in bytes {
            if *b == b'\n' {
                self.end_line();
            } else if self.line.len() < MOST_LINE {
                let _pushed = self.line.push(*b);
            }
        }
    }

    fn end_line(&mut self) {
        if is_refusal(&self.line) {
            self.all = self.all.saturating_add(1);
        }
        if let Some(refused) = refused_in(&self.line) {
            self.showable = self.showable.saturating_add(1);
            if self.shown.len() < MOST_SHOWN {
                let _pushed = self.shown.push(refused);
            }
        }
        self.line.clear();
    }
}

const REFUSED: &str = "refused ";

fn is_refusal(line: &[u8]) -> bool {
    match from_utf8(line) {
        Ok(line) => line.starts_with(REFUSED),
        Err(_) => false,
    }
}

// `refused W S REASON`.
fn refused_in(line: &[u8]) -> Option<Refused> {
    let line = from_utf8(line).ok()?;
    let (worker, rest) = line.strip_prefix(REFUSED)?.split_once(' ')?;
    let (step, reason) = rest.split_once(' ')?;
    let wrong = match reason {
        "wrong-arity" => WrongCall::Arity,
        "wrong-kind" => WrongCall::Kind,
        _ => return None,
    };
    Some(Refused {
        worker: worker.parse::<u32>().ok()?,
        step: step.parse::<u32>().ok()?,
        wrong,
    })
}

/// A writer around another one, which looks for the lines of refused steps in what is written.
#[derive(Drop)]
pub struct Watching<W> {
    inner: W,
    steps: RefusedSteps,
    is_asked: bool,
}

impl<W> Watching<W> {
    /// A writer around another one, which looks for them if it is asked to.
    pub fn new(alloc: Global, inner: W, is_asked: bool) -> Watching<W>
        ensures { result.inner ≡ inner }
    {
        Watching {
            inner,
            steps: RefusedSteps::new(alloc),
            is_asked,
        }
    }

    /// The refused steps of the lines that were written as a whole. A step that there was no memory for is left out.
    pub fn steps(&self) -> &RefusedSteps {
        &self.steps
    }

    fn look(&mut self, bytes: &[u8])
        ensures { self.new.inner ≡ self.old.inner }
    {
        if self.is_asked {
            self.steps.take(bytes);
        }
    }
}

impl<W: Sink> Sink for Watching<W> {
    ghost written = { λ s. W.written s.inner };

    ghost failures = { λ s. W.failures s.inner };

    fn write(&mut self, buf: &[u8]) -> Result<usize, Failed> {
        match self.inner.write(buf) {
            Ok(n) => {
                self.look(&buf[..n]);
                Ok(n)
            }
            Err(failed) => Err(failed),
        }
    }
}
