//! Why a form isn't read.
ghost use Rattle.std.specs.Prelude.{◌≡◌, ◌≢◌, Some};
ghost use Rattle.ref_forms.specs.declared.wrong.Wrong.TheVariants.{Memory};

use std::alloc::{AllocError, AllocFailed};

/// It has a wrong form, names a reference or a function that isn't there, or memory was refused.
#[derive(Clone, Copy, Debug, Drop, PartialEq, Eq)]
pub enum Wrong {
    Form,
    Name,
    Function,
    Memory,
}

impl Wrong {
    /// The worse of two, where there is another one: that memory was refused comes first, then a wrong form, then a wrong name.
    pub fn worse(self, other: Option<Wrong>) -> Wrong
        ensures one { result ≢ Memory → self ≢ Memory }
        ensures other { result ≢ Memory → other ≢ Some Memory }
    {
        match (self, other) {
            (Wrong::Memory, _) | (_, Some(Wrong::Memory)) => Wrong::Memory,
            (Wrong::Form, _) | (_, Some(Wrong::Form)) => Wrong::Form,
            (Wrong::Name, _) | (_, Some(Wrong::Name)) => Wrong::Name,
            _ => Wrong::Function,
        }
    }
}

impl From<AllocError> for Wrong {
    ghost from_gives = { λ _ w. w ≡ Memory };

    fn from(_e: AllocError) -> Wrong {
        Wrong::Memory
    }
}

impl<T: Drop> From<AllocFailed<T>> for Wrong {
    ghost from_gives = { λ _ w. w ≡ Memory };

    fn from(_e: AllocFailed<T>) -> Wrong {
        Wrong::Memory
    }
}
