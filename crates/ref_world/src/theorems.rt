//! Laws of every legal history. The contract of each function is a law, and its body is empty. To use a law, call its function.
ghost use Rattle.ref_world.specs.Theorems.{BeginningsAreLegal, EntriesFollow, PartsAddUp, UnchangedStays};

use ref_fun::Meaning;

/// What begins a legal history is legal.
pub fn beginnings_are_legal<M: Meaning>()
    ensures { BeginningsAreLegal M.means }
{}

/// Each entry was a legal step on the values that the entries before it left: the answers that it has are right at its place.
pub fn entries_follow<M: Meaning>()
    ensures { EntriesFollow M.means }
{}

/// A ref that hasn't changed since a point has the value that it had there.
pub fn unchanged_refs_stay<M: Meaning>()
    ensures { UnchangedStays M.means }
{}

/// The values after base and log are those after the history, and their commits are all of its commits.
pub fn parts_add_up<M: Meaning>()
    ensures { PartsAddUp M.means }
{}
