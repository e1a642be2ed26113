//! A writer that counts its bytes.
ghost use Rattle.std.specs.Prelude.{◌≡◌};

use ref_edn::{Failed, Sink};

/// A writer around another one, which counts the bytes that are written, up to `u64::MAX`.
#[derive(Drop)]
pub(crate) struct Measuring<W> {
    inner: W,
    bytes: u64,
}

impl<W> Measuring<W> {
    /// A writer around another one, by which nothing was written so far.
    pub(crate) fn new(inner: W) -> Measuring<W>
        ensures { result.inner ≡ inner }
    {
        Measuring { inner, bytes: 0 }
    }

    /// The writer inside.
    pub(crate) fn inner(&self) -> &W {
        &self.inner
    }

    /// How many bytes were written.
    pub(crate) fn bytes(&self) -> u64 {
        self.bytes
    }
}

impl<W: Sink> Sink for Measuring<W> {
    ghost written = { λ s. W.written s.inner };

    ghost failures = { λ s. W.failures s.inner };

    fn write(&mut self, buf: &[u8]) -> Result<usize, Failed> {
        match self.inner.write(buf) {
            Ok(n) => {
                self.bytes = self.bytes.saturating_add(n as u64);
                Ok(n)
            }
            Err(failed) => Err(failed),
        }
    }
}
