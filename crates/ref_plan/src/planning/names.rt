//! The names of references.
ghost use Rattle.std.specs.Prelude.{◌≡◌, ℕ, [], List, None, Some, IfOk, IfSome, cond, false, is_none, nat_eq};
ghost use Rattle.std.specs.Bool.{OnFalse, OnTrue};
ghost use Rattle.std.specs.Cmp.Lexicographic.{pointwise};
ghost use Rattle.ref_log.specs.declared.notices.Who.{Who as Reference};
ghost use Rattle.ref_forms.specs.Reading.{Reads};
ghost use Rattle.ref_plan.specs.Limits.{is_shallow};
ghost use Rattle.ref_plan.specs.Named.{AreApart, IsNamed, who_named, who_of};
ghost use Rattle.ref_plan.specs.Tables.{Knows, found};

use crate::planning::hashing::NameHashing;
use indexmap::{Equivalent, IndexMap};
use ref_forms::plain::{is_same, symbol_in};
use ref_forms::{Names, Naming, Values, Wrong};
use ref_fun::MOST_NESTED_RESULT;
use ref_log::Who;
use ref_value::Value;
use ref_value::texts::{ShortText, Text};
use std::alloc::{AllocError, Global};
use std::hash::{Hash, Hasher};
use std::marker::Model;

// How long a name may be that lies in the table.
const MOST_SHORT: usize = 14;

/// The name of a reference. Contracts see its bytes. One of up to 14 bytes takes no block of memory, so that a table finds it in place.
#[derive(Drop)]
pub struct Name {
    text: NameText,
}

#[derive(Drop)]
enum NameText {
    Short(ShortText),
    Long(Text),
}

impl Model for Name {
    ghost use Rattle.std.specs.Prelude.{List, ℕ};
    ghost use Rattle.ref_plan.specs.Tables.{bytes_of};

    ghost Value = { List ℕ };

    ghost view = { λ a. bytes_of a.text };
}

impl Name {
    // The name that a text is, with one more owner if it is long.
    fn of(text: &Text) -> Result<Name, AllocError>
        ensures { IfOk result (λ n. n ≡ text.now) }
    {
        let bytes = text.as_bytes();
        let text = if bytes.len() <= MOST_SHORT {
            NameText::Short(ShortText::of_bytes(bytes))
        } else {
            NameText::Long(text.share()?)
        };
        Ok(Name { text })
    }

    fn as_bytes(&self) -> &[u8]
        ensures { result.now ≡ self.now }
    {
        match &self.text {
            NameText::Short(text) => text.as_bytes(),
            NameText::Long(text) => text.as_bytes(),
        }
    }
}

impl PartialEq for Name {
    ghost use Rattle.std.specs.Prelude.{nat_eq};
    ghost use Rattle.std.specs.Cmp.{partial_equiv_from_equiv};
    ghost use Rattle.std.specs.Cmp.Lexicographic.{pointwise};
    ghost use Rattle.std.proofs.lemmas.Cmp.{nat_list_eq_equiv};

    ghost eq = { pointwise nat_eq };

    ghost laws = { partial_equiv_from_equiv nat_list_eq_equiv };

    fn eq(&self, other: &Name) -> bool {
        self.as_bytes() == other.as_bytes()
    }
}

impl Eq for Name {
    ghost use Rattle.std.proofs.lemmas.Cmp.{nat_list_eq_equiv};

    ghost laws = { nat_list_eq_equiv };
}

impl Hash for Name {
    ghost use Rattle.std.specs.Hash as fed;
    ghost use Rattle.std.specs.Cmp.Rules.{hashing};
    ghost use Rattle.std.proofs.Common.{rules};

    ghost hash_input = { λ a. fed.str a };

    ghost respects_eq = { Prim.search (hashing, rules) };

    fn hash<H: Hasher>(&self, state: &mut H) {
        state.write(self.as_bytes());
        state.write_u8(0xff);
    }
}

// The bytes of a name that is looked up. No owner is made for it.
#[derive(Clone, Copy, PartialEq, Eq)]
struct Wanted<'a> {
    bytes: &'a [u8],
}

impl<'a> Hash for Wanted<'a> {
    ghost use Rattle.std.specs.Hash as fed;
    ghost use Rattle.std.specs.Cmp.Rules.{hashing};
    ghost use Rattle.std.proofs.Common.{rules};

    ghost hash_input = { λ a. fed.str a.bytes.now };

    ghost respects_eq = { Prim.search (hashing, rules) };

    fn hash<H: Hasher>(&self, state: &mut H) {
        state.write(self.bytes);
        state.write_u8(0xff);
    }
}

impl<'a> Equivalent<Name> for Wanted<'a> {
    ghost use Rattle.std.specs.Prelude.{nat_eq};
    ghost use Rattle.std.specs.Hash as fed;
    ghost use Rattle.std.specs.Cmp.Rules.{hashing};
    ghost use Rattle.std.specs.Cmp.Lexicographic.{pointwise};
    ghost use Rattle.std.proofs.Common.{rules};
    ghost use Rattle.std.proofs.lemmas.Cmp.{nat_list_eq_equiv};

    ghost equivalent = { λ q k. pointwise nat_eq q.bytes.now k };

    ghost respects_hash = { Prim.search (hashing, rules) };

    ghost respects_eq = { λ q x y. nat_list_eq_equiv.congr q.bytes.now x y };

    #[tactic(auto, using(crate::proofs::Tables::same_bytes))]
    fn equivalent(&self, key: &Name) -> bool {
        is_same(self.bytes, key.as_bytes())
    }
}

/// References by their names. Contracts see a list of names, each with its reference.
#[derive(Drop)]
pub struct NameTable {
    references: IndexMap<Name, Who, NameHashing>,
}

impl Model for NameTable {
    ghost use Rattle.ref_plan.specs.Tables.{Table};

    ghost Value = { Table };

    ghost view = { λ a. a.references.entries };
}

impl NameTable {
    /// A table without names. `hashing` says how names are hashed.
    pub fn empty(alloc: Global, hashing: NameHashing) -> NameTable
        ensures { result ≡ [] }
    {
        NameTable {
            references: IndexMap::with_hasher(alloc, hashing),
        }
    }

    /// Adds the name of a reference and answers true; where the name is there already, it answers false.
    pub fn add(&mut self, name: &Text, who: Who) -> Result<bool, AllocError>
        ensures new { IfOk result (λ added. OnTrue added ((q : List ℕ)
            → found self.new q ≡ cond (pointwise nat_eq name.now q) (Some who) (found self.old q))) }
        ensures absent { IfOk result (λ added. OnTrue added (found self.old name.now ≡ None)) }
        ensures there { IfOk result (λ added. OnFalse added (is_none (found self.old name.now) ≡ false)) }
    {
        let name = Name::of(name)?;
        if self.references.get(&name).is_some() {
            return Ok(false);
        }
        self.references.insert(name, who)?;
        Ok(true)
    }

    /// The reference of a name, and None for a name that isn't there.
    pub fn find(&self, name: &[u8]) -> Option<Who>
        ensures { result ≡ found self.now name.now }
    {
        self.references.get(Wanted { bytes: name }).copied()
    }
}

/// The names of all references that a workload declares, no two of them equal. Contracts see them by number.
#[derive(Drop)]
pub struct Declared {
    names: Names,
    table: NameTable,
}

impl Model for Declared {
    ghost use Rattle.ref_forms.specs.Names.{NamesSeen};
    ghost use Rattle.ref_plan.specs.Tables.{Knows};

    ghost Value = { NamesSeen };

    ghost view = { λ a. a.names };

    ghost invariant = { λ a. Knows a.table a.names };
}

impl Declared {
    /// Names in two forms: by number, and a table from names to references.
    pub fn of(names: Names, table: NameTable) -> Declared
        requires { Knows table names }
        ensures { result ≡ names }
    {
        Declared { names, table }
    }

    // The reference of a name, and None for a name that isn't there.
    fn find(&self, name: &[u8]) -> Option<Who>
        ensures named { IfSome result (λ who. IsNamed self.now who name.now) }
        ensures only { (who : Reference) → IsNamed self.now who name.now → result ≡ Some who }
    {
        self.table.find(name)
    }

    // The reference of a name.
    #[tactic(auto, using(crate::proofs::Named::found_is_named))]
    fn named(&self, name: &[u8]) -> Result<Who, Wrong>
        ensures { Reads (who_named self.now name.now) result }
    {
        match self.find(name) {
            Some(who) => Ok(who),
            None => Err(Wrong::Name),
        }
    }

    /// The names by number. The table is dropped.
    pub fn into_names(self) -> Names
        ensures names { result ≡ self }
        ensures apart { AreApart self }
    {
        let Declared { names, table: _ } = self;
        names
    }
}

// A workload names references by their names alone.
impl Naming for Declared {
    ghost named = { who_of };

    fn who_in(&self, form: &Value) -> Result<Who, Wrong> {
        match symbol_in(form) {
            Some(name) => self.named(name),
            None => Err(Wrong::Form),
        }
    }
}

impl Values for Declared {
    ghost is_value = { is_shallow };

    fn takes(form: &Value) -> bool {
        form.depth() <= MOST_NESTED_RESULT
    }
}
