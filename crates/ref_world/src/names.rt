//! The names of a world's books and of its history, and its blanks: one type parameter stands for all of them.
ghost use Rattle.std.specs.Prelude.{◌≡◌, ℕ, []};
ghost use Rattle.ref_world.specs.Parts.{all_parts};

use crate::histories::Act;
use crate::shares::ALL_PARTS;
use ref_story::Story;
use std::marker::{Brand, PhantomData};
use std::sync::ledger::{Blank, Ledger};

/// Which world it is: the names of its books and of its history. A type that implements it has no value and no function; it only distinguishes
/// the shares of one world from those of another.
pub trait Books {
    ghost commits: { ℕ };

    ghost added: { ℕ };

    ghost taken: { ℕ };

    ghost story: { ℕ };
}

impl Books for Brand {
    ghost commits = { 0 };

    ghost added = { 0 };

    ghost taken = { 0 };

    ghost story = { 0 };
}

/// The ledger of a world's commits.
pub struct Commits<L: Books> {
    of: PhantomData<L>,
}

impl<L: Books> Ledger for Commits<L> {
    ghost name = { L.commits };

    ghost parts = { all_parts };
}

/// The ledger of what was added to a world's tally.
pub struct Added<L: Books> {
    of: PhantomData<L>,
}

impl<L: Books> Ledger for Added<L> {
    ghost name = { L.added };

    ghost parts = { all_parts };
}

/// The ledger of what was taken from a world's tally.
pub struct Taken<L: Books> {
    of: PhantomData<L>,
}

impl<L: Books> Ledger for Taken<L> {
    ghost name = { L.taken };

    ghost parts = { all_parts };
}

/// The blanks of all three books of a world, and a history in which nothing stands yet. Each is named as it is made.
#[derive(Drop)]
pub struct Blanks {
    pub commits: Blank,
    pub added: Blank,
    pub taken: Blank,
    pub story: Story<Act>,
    ghost commits_parts: { commits.parts ≡ all_parts },
    ghost added_parts: { added.parts ≡ all_parts },
    ghost taken_parts: { taken.parts ≡ all_parts },
    ghost untold: { story.log ≡ [] },
}

impl Blanks {
    pub fn new() -> Blanks {
        Blanks {
            commits: Blank::new(ALL_PARTS),
            added: Blank::new(ALL_PARTS),
            taken: Blank::new(ALL_PARTS),
            story: Story::new(),
        }
    }
}
