//! Readers and writers whose contracts name their bytes and count their failures.
ghost use Rattle.std.specs.Prelude.{◌≡◌, ◌≤◌, ◌<◌, ◌+◌, ◌-◌, ℕ, List, length, Option, IfOk, IfErr, IfSome, OnOk, OnErr, min, vec_len};
ghost use Rattle.std.specs.Io.{ReadsAtMost, WritesAtMost};
ghost use Rattle.std.specs.Io.KnownBytes.{Appends, IsAtEnd, ReadConsumes, WriteAppends};
ghost use Rattle.ref_edn.specs.declared.streams.InputFault.TheVariants as faults;
ghost use Rattle.ref_edn.specs.Streams.{AppendsPart, ConsumesUpTo, Counts, CountsRead, counted};

use crate::bytes::after;
use std::alloc::{AllocError, AllocFailed, Global};
use std::io::{Read, Write};
use thiserror::Error;

/// A read or a write failed. Which of them, and why, is not said.
#[derive(Clone, Copy, Debug, PartialEq, Eq, Error)]
#[error("a read or a write failed")]
pub struct Failed;

/// Why [`read_to_end`] gave no bytes.
#[derive(Clone, Copy, Debug, PartialEq, Eq, Error)]
pub enum InputFault {
    #[error("the input could not be read")]
    Read,
    #[error("the input is too long")]
    TooLong,
    #[error("out of memory")]
    Memory,
}

impl From<Failed> for InputFault {
    ghost from_gives = { λ _ e. e ≡ faults.Read };

    fn from(_e: Failed) -> InputFault {
        InputFault::Read
    }
}

impl From<AllocError> for InputFault {
    ghost from_gives = { λ _ e. e ≡ faults.Memory };

    fn from(_e: AllocError) -> InputFault {
        InputFault::Memory
    }
}

impl<T: Drop> From<AllocFailed<T>> for InputFault {
    ghost from_gives = { λ _ e. e ≡ faults.Memory };

    fn from(_e: AllocFailed<T>) -> InputFault {
        InputFault::Memory
    }
}

/// What bytes are read from.
pub trait Source {
    // The bytes that reads will give from here on, where they are known.
    ghost left: { Self → Option (List ℕ) };

    // How many reads have failed.
    ghost failures: { Self → ℕ };

    /// Reads some bytes to the front of the buffer and answers how many: 0 only at the end, or where there is no room.
    /// A read that fails takes no byte.
    fn read(&mut self, buf: &mut [u8]) -> Result<usize, Failed>
        ensures bound { ReadsAtMost result buf.new }
        ensures bytes { ReadConsumes (left self.old) (left self.new) result buf.new }
        ensures failures { Counts (failures self.old) (failures self.new) result };
}

/// What bytes are written to.
pub trait Sink {
    // The bytes that were written, where they are known.
    ghost written: { Self → Option (List ℕ) };

    // How many writes have failed.
    ghost failures: { Self → ℕ };

    /// Writes some bytes from the front of the buffer and answers how many. A write that takes no byte has failed.
    fn write(&mut self, buf: &[u8]) -> Result<usize, Failed>
        requires { 0 < length buf.now }
        ensures some { IfOk result (λ n. 0 < n) }
        ensures bound { WritesAtMost result buf.now }
        ensures bytes { WriteAppends (written self.old) (written self.new) result buf.now }
        ensures failures { Counts (failures self.old) (failures self.new) result };
}

/// A reader or a writer of `std`, with a count of its failures.
///
/// Each error of the reader or writer counts, also one that says that a signal interrupted it. The count stops at
/// `u64::MAX`.
#[derive(Drop)]
pub struct Counted<T> {
    pub inner: T,
    pub failures: u64,
}

impl<T> Counted<T> {
    /// A reader or writer around another one, with no failure so far.
    pub fn new(inner: T) -> Counted<T>
        ensures inner { result.inner ≡ inner }
        ensures none { result.failures ≡ 0 }
    {
        Counted { inner, failures: 0 }
    }

    // Counts one failure more.
    fn fail(&mut self) -> Failed
        ensures inner { self.new.inner ≡ self.old.inner }
        ensures failures { self.new.failures ≡ counted self.old.failures }
    {
        self.failures = self.failures.saturating_add(1);
        Failed
    }
}

impl<R: Read> Source for Counted<R> {
    ghost left = { λ s. R.remaining s.inner };

    ghost failures = { λ s. s.failures };

    fn read(&mut self, buf: &mut [u8]) -> Result<usize, Failed> {
        match self.inner.read(buf) {
            Ok(n) => Ok(n),
            Err(_) => Err(self.fail()),
        }
    }
}

impl<W: Write> Sink for Counted<W> {
    ghost written = { λ s. W.contents s.inner };

    ghost failures = { λ s. s.failures };

    fn write(&mut self, buf: &[u8]) -> Result<usize, Failed> {
        match self.inner.write(buf) {
            Ok(n) if n > 0 => Ok(n),
            _ => Err(self.fail()),
        }
    }
}

// How many bytes one read may give.
const BLOCK: usize = 64 * 1024;

fn zeros(alloc: Global, len: usize) -> Result<Vec<u8>, AllocError>
    ensures { IfOk result (λ v. vec_len v ≡ len) }
{
    Ok(vec![in alloc; 0; len]?)
}

// How many bytes to ask for while `left` more are allowed: one more than these, so that a longer source is noticed.
fn room_in_block(left: usize) -> usize
    ensures { result ≡ min left (BLOCK - 1) + 1 }
{
    left.min(BLOCK - 1) + 1
}

/// Reads to the end, and answers all the bytes; for a source of more than `limit` bytes the answer is TooLong.
///
/// It takes at most `limit` + 1 bytes, 64 KiB at a time, and stops at the first read that fails. It holds at most
/// three times the bytes read and one block.
pub fn read_to_end<S: Source>(
    alloc: Global,
    source: &mut S,
    limit: usize,
) -> Result<Vec<u8>, InputFault>
    ensures all { IfOk result (λ v. IfSome (S.left source.old) (λ all. v.items ≡ all)) }
    ensures end { OnOk result (IsAtEnd (S.left source.new)) }
    ensures limit { IfOk result (λ v. vec_len v ≤ limit) }
    ensures too_long { IfErr result (λ e. e ≡ InputFault.TooLong
        → IfSome (S.left source.old) (λ all. limit < length all)) }
    // No more is taken, and what was taken before a fault is lost.
    ensures taken { ConsumesUpTo (S.left source.old) (S.left source.new) (limit + 1) }
    // Read alone reports a read that failed.
    ensures failures { CountsRead (S.failures source.old) (S.failures source.new) result }
{
    let mut block = zeros(alloc, BLOCK)?;
    let mut bytes = Vec::new(alloc);
    while bytes.len() <= limit {
        let most = room_in_block(limit - bytes.len());
        let room = &mut block[..most];
        let n = source.read(room)?;
        if n == 0 {
            return Ok(bytes);
        }
        bytes.extend_from_slice(&room[..n])?;
    }
    Err(InputFault::TooLong)
}

/// Writes all of it, in as many writes as it takes, and stops at the first that fails.
pub fn write_all<W: Sink>(sink: &mut W, bytes: &[u8]) -> Result<(), Failed>
    ensures ok { OnOk result (Appends (W.written sink.old) (W.written sink.new) bytes.now) }
    ensures err { OnErr result (AppendsPart (W.written sink.old) (W.written sink.new) bytes.now) }
    ensures failures { Counts (W.failures sink.old) (W.failures sink.new) result }
{
    let mut rest = bytes;
    while !rest.is_empty() {
        let n = sink.write(rest)?;
        rest = after(rest, n);
    }
    Ok(())
}
