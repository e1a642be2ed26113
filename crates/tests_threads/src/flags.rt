//! How far threads have come, and where one waits.
ghost use Rattle.std.specs.Prelude.{◌≡◌, ◌↔◌, IsTrue};
ghost use Rattle.tests_threads.specs.declared.flags.Place.TheVariants.{At};

use ref_shared::Spot;
use std::sync::atomic::AtomicBool;

/// How far threads have come, each of which sets some of these for the others.
#[derive(Drop)]
pub struct Flags {
    pub first: AtomicBool,
    pub second: AtomicBool,
    pub third: AtomicBool,
    pub fourth: AtomicBool,
}

impl Flags {
    pub fn new() -> Flags {
        Flags {
            first: AtomicBool::new(false),
            second: AtomicBool::new(false),
            third: AtomicBool::new(false),
            fourth: AtomicBool::new(false),
        }
    }
}

/// Where one thread waits until the other has looked.
#[derive(Clone, Copy, Debug, Drop, PartialEq)]
pub enum Place {
    At(Spot),
    Body,
    Action,
    Told,
}

impl Place {
    /// Whether it is this spot between the steps of a transaction or of an action.
    pub fn is_at(&self, spot: Spot) -> bool
        ensures { IsTrue result ↔ (self.now ≡ At spot) }
    {
        *self == Place::At(spot)
    }
}
