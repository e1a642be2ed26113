//! Equality of what actions are made of.
ghost use Rattle.std.specs.Bool.{OnFalse, OnTrue};
ghost use Rattle.std.specs.Prelude.{◌≡◌, ◌≢◌};

use crate::actions::Action;
use crate::arguments::Args;
use crate::carries::{Carries, Carry};
use crate::lists::SharedVec;
use ref_value::Value;
use ref_value::order::equal_values_are_the_same;

/// What can be compared whole.
pub trait Same {
    /// Whether the two are the same in all parts. Linear in the size of both; it allocates nothing.
    fn is_same(&self, other: &Self) -> bool
        ensures yes { OnTrue result (self.now ≡ other.now) }
        ensures no { OnFalse result (self.now ≢ other.now) };
}

// Whether two lists have the same items.
fn are_same<T: Same>(xs: &[T], ys: &[T]) -> bool
    ensures yes { OnTrue result (xs.now ≡ ys.now) }
    ensures no { OnFalse result (xs.now ≢ ys.now) }
{
    if xs.len() != ys.len() {
        return false;
    }
    for i in 0..xs.len() {
        if !xs[i].is_same(&ys[i]) {
            return false;
        }
    }
    true
}

impl<T: Same + Drop> Same for SharedVec<T> {
    fn is_same(&self, other: &SharedVec<T>) -> bool {
        if self.len() != other.len() {
            return false;
        }
        for i in 0..self.len() {
            if !self.at(i).is_same(other.at(i)) {
                return false;
            }
        }
        true
    }
}

impl Same for Value {
    fn is_same(&self, other: &Value) -> bool {
        equal_values_are_the_same();
        self == other
    }
}

impl Same for Args {
    fn is_same(&self, other: &Args) -> bool {
        are_same(self.as_slice(), other.as_slice())
    }
}

impl Same for Carry {
    fn is_same(&self, other: &Carry) -> bool {
        self.g == other.g && self.code == other.code && self.args.is_same(&other.args)
    }
}

impl Same for Carries {
    fn is_same(&self, other: &Carries) -> bool {
        are_same(self.as_slice(), other.as_slice())
    }
}

impl Same for Action {
    fn is_same(&self, other: &Action) -> bool {
        self.code == other.code
            && self.args.is_same(&other.args)
            && self.carries.is_same(&other.carries)
    }
}
