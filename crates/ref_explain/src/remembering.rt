//! A reader that remembers what was read from it.
ghost use Rattle.std.specs.Prelude.{◌≡◌};

use ref_edn::{Failed, Source};
use std::alloc::Global;

/// A reader around another one, which remembers what was read, or as good as nothing where there is no memory for that.
#[derive(Drop)]
pub struct Remembering<S> {
    inner: S,
    bytes: Vec<u8>,
    is_whole: bool,
}

impl<S> Remembering<S> {
    /// A reader around another one, which remembers from here on if it is asked to.
    pub fn new(alloc: Global, inner: S, remembers: bool) -> Remembering<S>
        ensures { result.inner ≡ inner }
    {
        Remembering {
            inner,
            bytes: Vec::new(alloc),
            is_whole: remembers,
        }
    }

    /// What was read so far; nothing, if it isn't remembered as a whole.
    pub fn bytes(&self) -> Option<&[u8]> {
        if self.is_whole {
            Some(self.bytes.as_slice())
        } else {
            None
        }
    }

    fn remember(&mut self, bytes: &[u8])
        ensures { self.new.inner ≡ self.old.inner }
    {
        if self.is_whole && self.bytes.extend_from_slice(bytes).is_err() {
            self.is_whole = false;
            self.bytes.clear();
            self.bytes.shrink_to_fit();
        }
    }
}

impl<S: Source> Source for Remembering<S> {
    ghost left = { λ s. S.left s.inner };

    ghost failures = { λ s. S.failures s.inner };

    fn read(&mut self, buf: &mut [u8]) -> Result<usize, Failed> {
        match self.inner.read(buf) {
            Ok(n) => {
                self.remember(&buf[..n]);
                Ok(n)
            }
            Err(failed) => Err(failed),
        }
    }
}
