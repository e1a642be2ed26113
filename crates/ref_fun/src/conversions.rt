//! Values and arguments, from what Rust has.
ghost use Rattle.std.specs.Prelude.{◌≡◌, ◌↔◌, [], ◌∷◌, List, IfOk, IfSome, IsSome, true};
ghost use Rattle.ref_value.specs.Edn.{Edn, boolean, int, keyword, string};
ghost use Rattle.ref_value.specs.Names.{is_keyword};

use crate::arguments::Args;
use ref_value::names::is_keyword;
use ref_value::{Node, Value};
use std::alloc::{AllocError, Global};

/// What a value can be made of: integers, booleans, strings, keywords, and values.
pub trait IntoValue {
    /// It may make this value.
    ghost is: { Self → Edn → Type 0 };

    /// The value. It takes memory for a string and for a keyword of more than 14 bytes.
    fn into_value(self, alloc: Global) -> Result<Value, AllocError>
        ensures { IfOk result (λ v. is self v) };
}

/// What can be passed as the arguments of a function: nothing, `()`; one argument; two or three as a tuple; or all in [`Args`].
pub trait IntoArgs {
    /// It may make these arguments.
    ghost are: { Self → List Edn → Type 0 };

    /// The arguments. Two and three take a block of memory.
    fn into_args(self, alloc: Global) -> Result<Args, AllocError>
        ensures { IfOk result (λ args. are self args) };
}

/// A keyword by its name, without the colon.
#[derive(Clone, Copy, Debug, Drop)]
pub struct Keyword<'a> {
    name: &'a str,
    ghost lawful: { is_keyword name.now ≡ true },
}

impl<'a> Keyword<'a> {
    /// The keyword of this name; None where it is no name of a keyword, as `1st` and the empty text aren't.
    pub fn new(name: &'a str) -> Option<Keyword<'a>>
        ensures some { IsSome result ↔ (is_keyword name.now ≡ true) }
        ensures name { IfSome result (λ k. k.name.now ≡ name.now) }
    {
        if is_keyword(name.as_bytes()) {
            Some(Keyword { name })
        } else {
            None
        }
    }
}

impl IntoValue for i64 {
    ghost is = { λ n v. v ≡ int n };

    fn into_value(self, _alloc: Global) -> Result<Value, AllocError> {
        Ok(Value::of_lawful(Node::Int(self)))
    }
}

impl IntoValue for bool {
    ghost is = { λ b v. v ≡ boolean b };

    fn into_value(self, _alloc: Global) -> Result<Value, AllocError> {
        Ok(Value::of_lawful(Node::Bool(self)))
    }
}

impl IntoValue for Value {
    ghost is = { λ value v. v ≡ value };

    fn into_value(self, _alloc: Global) -> Result<Value, AllocError> {
        Ok(self)
    }
}

/// A string.
impl<'a> IntoValue for &'a str {
    ghost is = { λ s v. v ≡ string s.now };

    fn into_value(self, alloc: Global) -> Result<Value, AllocError> {
        Ok(Value::of_lawful(Node::string(alloc, self)?))
    }
}

impl<'a> IntoValue for Keyword<'a> {
    ghost is = { λ k v. v ≡ keyword k.name.now };

    fn into_value(self, alloc: Global) -> Result<Value, AllocError> {
        Ok(Value::of_lawful(Node::keyword(alloc, self.name)?))
    }
}

impl IntoArgs for () {
    ghost are = { λ _ args. args ≡ [] };

    fn into_args(self, alloc: Global) -> Result<Args, AllocError> {
        Args::of(alloc, Vec::new(alloc))
    }
}

impl IntoArgs for Args {
    ghost are = { λ all args. args ≡ all };

    fn into_args(self, _alloc: Global) -> Result<Args, AllocError> {
        Ok(self)
    }
}

impl IntoArgs for i64 {
    ghost are = { λ n args. args ≡ int n ∷ [] };

    fn into_args(self, alloc: Global) -> Result<Args, AllocError> {
        Ok(Args::one(self.into_value(alloc)?))
    }
}

impl IntoArgs for bool {
    ghost are = { λ b args. args ≡ boolean b ∷ [] };

    fn into_args(self, alloc: Global) -> Result<Args, AllocError> {
        Ok(Args::one(self.into_value(alloc)?))
    }
}

impl IntoArgs for Value {
    ghost are = { λ value args. args ≡ value ∷ [] };

    fn into_args(self, _alloc: Global) -> Result<Args, AllocError> {
        Ok(Args::one(self))
    }
}

impl<'a> IntoArgs for &'a str {
    ghost are = { λ s args. args ≡ string s.now ∷ [] };

    fn into_args(self, alloc: Global) -> Result<Args, AllocError> {
        Ok(Args::one(self.into_value(alloc)?))
    }
}

impl<'a> IntoArgs for Keyword<'a> {
    ghost are = { λ k args. args ≡ keyword k.name.now ∷ [] };

    fn into_args(self, alloc: Global) -> Result<Args, AllocError> {
        Ok(Args::one(self.into_value(alloc)?))
    }
}

/// Two, as `assoc` takes.
impl<A: IntoValue + Drop, B: IntoValue + Drop> IntoArgs for (A, B) {
    ghost are = { λ both args. (a : Edn) × (b : Edn) × A.is both.0 a × B.is both.1 b × (args ≡ a ∷ b ∷ []) };

    fn into_args(self, alloc: Global) -> Result<Args, AllocError>
        ensures { IfOk result (λ args. (a : Edn) × (b : Edn) × A.is self.0 a × B.is self.1 b × (args ≡ a ∷ b ∷ [])) }
    {
        let (a, b) = self;
        let a = a.into_value(alloc)?;
        let b = b.into_value(alloc)?;
        Args::of(alloc, vec![in alloc; a, b]?)
    }
}

impl<A: IntoValue + Drop, B: IntoValue + Drop, C: IntoValue + Drop> IntoArgs for (A, B, C) {
    ghost are = { λ all args. (a : Edn) × (b : Edn) × (c : Edn) × A.is all.0 a × B.is all.1 b × C.is all.2 c
        × (args ≡ a ∷ b ∷ c ∷ []) };

    fn into_args(self, alloc: Global) -> Result<Args, AllocError>
        ensures { IfOk result (λ args. (a : Edn) × (b : Edn) × (c : Edn) × A.is self.0 a × B.is self.1 b × C.is self.2 c
            × (args ≡ a ∷ b ∷ c ∷ [])) }
    {
        let (a, b, c) = self;
        let a = a.into_value(alloc)?;
        let b = b.into_value(alloc)?;
        let c = c.into_value(alloc)?;
        Args::of(alloc, vec![in alloc; a, b, c]?)
    }
}
