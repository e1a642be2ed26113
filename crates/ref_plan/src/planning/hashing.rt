//! How names are hashed, so that nobody can choose them by their hashes.

use ref_forms::plain::{elements_in, symbol_in};
use ref_value::{Items, Value};
use std::hash::{BuildHasher, DefaultHasher, Hash};

/// What each hasher of a name begins with: one that took in all names that a workload declares, by SipHash. Where one name is another,
/// all hashes are others, so names can't be chosen that have one hash.
#[derive(Clone, Copy)]
pub struct NameHashing {
    begun: DefaultHasher,
}

impl BuildHasher for NameHashing {
    type Hasher = DefaultHasher;

    ghost build_hasher = { λ s. s.begun };

    fn build_hasher(&self) -> DefaultHasher {
        self.begun
    }
}

impl NameHashing {
    /// For the names that these references declare.
    pub fn of(refs: &Items, atoms: &Items, agents: &Items) -> NameHashing {
        let mut begun = DefaultHasher::new();
        take_in(&mut begun, refs);
        take_in(&mut begun, atoms);
        take_in(&mut begun, agents);
        NameHashing { begun }
    }
}

fn take_in(begun: &mut DefaultHasher, forms: &Items) {
    for i in 0..forms.len() {
        if let Some(name) = name_in(forms.at(i)) {
            name.hash(begun);
        }
    }
}

fn name_in(form: &Value) -> Option<&[u8]> {
    symbol_in(elements_in(form)?.iter().next()?)
}
