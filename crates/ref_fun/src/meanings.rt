//! What codes mean.
ghost use Rattle.std.specs.Prelude.{◌≡◌, ℕ, ℤ, ◌∷◌, [], List, Bool, Result};
ghost use Rattle.ref_value.specs.Edn.{Edn, int};
ghost use Rattle.ref_fun.specs.Core.{core_means, core_accepts, core_adds, core_takes};
ghost use Rattle.ref_fun.specs.declared.faults.Cause.{Cause};
ghost use Rattle.ref_fun.specs.Integers.{plus, minus};

/// What each code means, as a function and as a predicate.
pub trait Meaning {
    /// The value that the function of a code gives for arguments and a state, or the cause for which it refuses.
    ghost means: { ℕ → List Edn → Edn → Result Edn Cause };

    /// Whether the predicate of a code accepts, for arguments and a state.
    ghost accepts: { ℕ → List Edn → Edn → Bool };

    /// Nothing at run time. It stands here for the laws below it.
    fn lawful() {}

    /// Code 1 adds one integer to an integer, as the `+` of [`Core`] does.
    ghost adds: { (a b : ℤ) → means 1 (int b ∷ []) (int a) ≡ plus (int b ∷ []) (int a) };

    /// Code 2 takes one integer from an integer, as the `-` of [`Core`] does.
    ghost takes: { (a b : ℤ) → means 2 (int b ∷ []) (int a) ≡ minus (int b ∷ []) (int a) };
}

/// The functions and predicates that come with this project.
pub struct Core;

impl Meaning for Core {
    ghost means = { core_means };

    ghost accepts = { core_accepts };

    ghost adds = { core_adds };

    ghost takes = { core_takes };
}
