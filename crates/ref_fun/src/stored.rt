//! The closures by which a program runs functions and predicates, each with what is known of it: that it answers what Core
//! means by its code. A program chooses how a code is run, and not what it means.
ghost use Rattle.std.specs.Prelude.{◌≡◌, ◌≤◌, length};
ghost use Rattle.std.specs.Coded.{Π_prop, →_prop};
ghost use Rattle.ref_fun.specs.Calls.{Answers-prop};
ghost use Rattle.ref_fun.specs.Core.{core_means, core_accepts};
ghost use Rattle.ref_fun.specs.Meaning.{Answers};
ghost use Rattle.ref_fun.specs.Limits.{most_arguments};

use crate::faults::FunFault;
use ref_value::Value;
use std::alloc::Global;

/// What runs as a function: it takes the allocator for the value that it gives, the state and the arguments.
pub type Fun = Box<dyn Fn(Global, &Value, &[Value]) -> Result<Value, FunFault> + Send + Sync>;

/// What runs as a predicate: it takes the state and the arguments, and needs no memory.
pub type Pred = Box<dyn Fn(&Value, &[Value]) -> bool + Send + Sync>;

/// A function under its code. It may be called on every state with at most 8 arguments, and gives what [`crate::Core`]
/// means by the code.
#[derive(Drop)]
pub struct StoredFun {
    code: u32,
    run: Fun,
    ghost callable: { (alloc : _) (state : _) (args : _) → length args.now ≤ most_arguments →
        Fun.pre run alloc state args },
    ghost answers: { (alloc : _) (state : _) (args : _) (result : _) → Fun.post run alloc state args result
        → Answers (core_means code args.now state.now) result } by { Π_prop (λ _. Π_prop (λ _. Π_prop (λ _. Π_prop (λ _. →_prop (Answers-prop _ _))))) },
}

/// A predicate under its code. It may be called on every state with at most 8 arguments, and accepts what
/// [`crate::Core`] accepts under the code.
#[derive(Drop)]
pub struct StoredPred {
    code: u32,
    run: Pred,
    ghost callable: { (state : _) (args : _) → length args.now ≤ most_arguments → Pred.pre run state args },
    ghost answers: { (state : _) (args : _) (result : _) → Pred.post run state args result
        → result ≡ core_accepts code args.now state.now },
}

impl StoredFun {
    ghost use Rattle.ref_fun.specs.Table.{fun_code};

    /// The closure under this code. Who makes the closure proves what the type guarantees of it.
    pub fn new(code: u32, run: Fun) -> StoredFun
        requires callable { (alloc : _) (state : _) (args : _) → length args.now ≤ most_arguments →
            Fun.pre run alloc state args }
        requires answers { (alloc : _) (state : _) (args : _) (r : _) → Fun.post run alloc state args r
            → Answers (core_means code args.now state.now) r }
        ensures { fun_code result ≡ code }
    {
        StoredFun { code, run }
    }

    /// The function's code.
    pub fn code(&self) -> u32
        ensures { result ≡ fun_code self.now }
    {
        self.code
    }

    pub(crate) fn call(
        &self,
        alloc: Global,
        state: &Value,
        args: &[Value],
    ) -> Result<Value, FunFault>
        requires { length args.now ≤ most_arguments }
        ensures { Answers (core_means (fun_code self.now) args.now state.now) result }
    {
        (self.run)(alloc, state, args)
    }
}

impl StoredPred {
    ghost use Rattle.ref_fun.specs.Table.{pred_code};

    /// The closure under this code. Who makes the closure proves what the type guarantees of it.
    pub fn new(code: u32, run: Pred) -> StoredPred
        requires callable { (state : _) (args : _) → length args.now ≤ most_arguments → Pred.pre run state args }
        requires answers { (state : _) (args : _) (r : _) → Pred.post run state args r
            → r ≡ core_accepts code args.now state.now }
        ensures { pred_code result ≡ code }
    {
        StoredPred { code, run }
    }

    /// The predicate's code.
    pub fn code(&self) -> u32
        ensures { result ≡ pred_code self.now }
    {
        self.code
    }

    pub(crate) fn call(&self, state: &Value, args: &[Value]) -> bool
        requires { length args.now ≤ most_arguments }
        ensures { result ≡ core_accepts (pred_code self.now) args.now state.now }
    {
        (self.run)(state, args)
    }
}
