//! The table of functions and predicates, and what generic code asks of one.
ghost use Rattle.std.specs.Prelude.{◌≡◌, ◌≤◌, length, is_some, map, IfErr, IfSome, OnErr, OnOk};
ghost use Rattle.std.specs.BTreeMap.{keys, btree_map_len};
ghost use Rattle.std.specs.Bool.{OnFalse, OnTrue};
ghost use Rattle.ref_fun.specs.Calls.{AddFaultComes, CallAnswers, HasCore, HasRoom, Known, tested};
ghost use Rattle.ref_fun.specs.Limits.{most_arguments, most_functions};

use crate::faults::{AddFault, CallFault};
use crate::meanings::{Core, Meaning};
use crate::stored::{StoredFun, StoredPred};
use ref_value::Value;
use std::alloc::Global;
use std::collections::BTreeMap;

/// How many functions a table may have, and how many predicates.
pub const MOST_FUNCTIONS: usize = 64;

/// A table that serves a meaning: what it has under a code answers as the meaning says.
pub trait Functions<M: Meaning> {
    /// The functions and the predicates that the table has, by their codes.
    ghost knows: { Self → Known };

    fn has_fun(&self, code: u32) -> bool
        ensures { result ≡ (knows self.now).funs code };

    fn has_pred(&self, code: u32) -> bool
        ensures { result ≡ (knows self.now).preds code };

    /// Calls the function of a code. It costs a look-up and what the function costs.
    fn call(
        &self,
        alloc: Global,
        code: u32,
        state: &Value,
        args: &[Value],
    ) -> Result<Value, CallFault>
        requires { length args.now ≤ most_arguments }
        ensures { CallAnswers ((knows self.now).funs code) code (M.means code args.now state.now) result };

    /// Asks the predicate of a code, if there is one. It takes no memory.
    fn test(&self, code: u32, state: &Value, args: &[Value]) -> Option<bool>
        requires { length args.now ≤ most_arguments }
        ensures { result ≡ tested ((knows self.now).preds code) (M.accepts code args.now state.now) };
}

/// Whether a table has all functions and predicates of [`Core`]. It costs as many look-ups.
pub fn has_core<F: Functions<Core>>(funs: &F) -> bool
    ensures has { OnTrue result (HasCore (F.knows funs.now)) }
    ensures lacks { OnFalse result (HasCore (F.knows funs.now) → ⊥) }
{
    for code in 1..11u32 {
        if !funs.has_fun(code) {
            return false;
        }
    }
    for code in 101..110u32 {
        if !funs.has_pred(code) {
            return false;
        }
    }
    true
}

/// Functions and predicates under their codes, at most 64 of each kind. A look-up is logarithmic in their number.
#[derive(Drop)]
pub struct FunTable {
    funs: BTreeMap<u32, StoredFun>,
    preds: BTreeMap<u32, StoredPred>,
    ghost funs_paired: { map (λ e. e.1.code) funs.entries ≡ keys funs },
    ghost preds_paired: { map (λ e. e.1.code) preds.entries ≡ keys preds },
    ghost funs_limited: { btree_map_len funs ≤ most_functions },
    ghost preds_limited: { btree_map_len preds ≤ most_functions },
}

impl FunTable {
    ghost use Rattle.ref_fun.specs.Table.{AddsFun, AddsPred, HasNothing, SameFuns, SamePreds, fun_code, fun_count, knows_fun_of, knows_pred_of, pred_code, pred_count};

    /// A table without functions and predicates. It takes no memory.
    pub fn empty(alloc: Global) -> FunTable
        ensures { HasNothing result }
    {
        FunTable {
            funs: BTreeMap::new(alloc),
            preds: BTreeMap::new(alloc),
        }
    }

    /// Puts a function under its code. A code that is taken is reported before a full table.
    pub fn add_fun(&mut self, fun: StoredFun) -> Result<(), (StoredFun, AddFault)>
        ensures ok { OnOk result (AddsFun self.old fun self.new) }
        ensures room { OnOk result (HasRoom (knows_fun_of self.old (fun_code fun)) (fun_count self.old)) }
        ensures fault { IfErr result (λ e. AddFaultComes (knows_fun_of self.old (fun_code fun))
            (fun_count self.old) e.1) }
        ensures back { IfErr result (λ e. e.0 ≡ fun) }
        ensures err { OnErr result (SameFuns self.old self.new) }
        ensures preds { SamePreds self.old self.new }
    {
        let code = fun.code();
        if self.fun_at(code).is_some() {
            return Err((fun, AddFault::Taken));
        }
        if self.funs.len() >= MOST_FUNCTIONS {
            return Err((fun, AddFault::Full));
        }
        match self.funs.insert(code, fun) {
            Ok(_) => Ok(()),
            Err(e) => Err((e.value.1, AddFault::Memory)),
        }
    }

    /// Puts a predicate under its code. A code that is taken is reported before a full table.
    pub fn add_pred(&mut self, pred: StoredPred) -> Result<(), (StoredPred, AddFault)>
        ensures ok { OnOk result (AddsPred self.old pred self.new) }
        ensures room { OnOk result (HasRoom (knows_pred_of self.old (pred_code pred)) (pred_count self.old)) }
        ensures fault { IfErr result (λ e. AddFaultComes (knows_pred_of self.old (pred_code pred))
            (pred_count self.old) e.1) }
        ensures back { IfErr result (λ e. e.0 ≡ pred) }
        ensures err { OnErr result (SamePreds self.old self.new) }
        ensures funs { SameFuns self.old self.new }
    {
        let code = pred.code();
        if self.pred_at(code).is_some() {
            return Err((pred, AddFault::Taken));
        }
        if self.preds.len() >= MOST_FUNCTIONS {
            return Err((pred, AddFault::Full));
        }
        match self.preds.insert(code, pred) {
            Ok(_) => Ok(()),
            Err(e) => Err((e.value.1, AddFault::Memory)),
        }
    }

    fn fun_at(&self, code: u32) -> Option<&StoredFun>
        ensures known { is_some result ≡ knows_fun_of self.now code }
        ensures code { IfSome result (λ f. fun_code f.now ≡ code) }
    {
        self.funs.get(&code)
    }

    fn pred_at(&self, code: u32) -> Option<&StoredPred>
        ensures known { is_some result ≡ knows_pred_of self.now code }
        ensures code { IfSome result (λ p. pred_code p.now ≡ code) }
    {
        self.preds.get(&code)
    }
}

impl Functions<Core> for FunTable {
    ghost use Rattle.ref_fun.specs.Table.{knows_fun_of, knows_pred_of};

    ghost knows = { λ table. record { funs = knows_fun_of table; preds = knows_pred_of table } };

    fn has_fun(&self, code: u32) -> bool {
        self.fun_at(code).is_some()
    }

    fn has_pred(&self, code: u32) -> bool {
        self.pred_at(code).is_some()
    }

    fn call(
        &self,
        alloc: Global,
        code: u32,
        state: &Value,
        args: &[Value],
    ) -> Result<Value, CallFault> {
        let Some(fun) = self.fun_at(code) else {
            return Err(CallFault::NoSuchFun(code));
        };
        Ok(fun.call(alloc, state, args)?)
    }

    fn test(&self, code: u32, state: &Value, args: &[Value]) -> Option<bool> {
        let pred = self.pred_at(code)?;
        Some(pred.call(state, args))
    }
}
