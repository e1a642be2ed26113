//! The table of closures: what it has, calls, and refuses.
ghost use Rattle.std.specs.Prelude.{◌≡◌, ◌≤◌, length};
ghost use Rattle.ref_fun.specs.Core.{core_accepts, core_means};
ghost use Rattle.ref_fun.specs.Meaning.{Answers};
ghost use Rattle.ref_fun.specs.Limits.{most_arguments};

use crate::calls::{Call, answered, is_test};
use crate::same::same;
use ref_edn::Value;
use ref_fun::{
    AddFault, Fun, FunFault, FunTable, Functions, Pred, StoredFun, StoredPred, core_fun, core_test,
    has_core,
};
use std::alloc::{AllocError, Global};
use std::process::Abort;
use std::test::Fail;

// Why a function with its code isn't added, and which code that is.
fn add_fun(
    alloc: Global,
    table: &mut FunTable,
    code: u32,
) -> Result<Option<(u32, AddFault)>, AllocError> {
    let run: Fun = Box::new(
        alloc,
        move |a: Global, state: &Value, args: &[Value]| -> Result<Value, FunFault>
            requires { length args.now ≤ most_arguments }
            ensures { Answers (core_means code args.now state.now) result }
        { core_fun(a, code, state, args) },
    )?;
    match table.add_fun(StoredFun::new(code, run)) {
        Ok(()) => Ok(None),
        Err((fun, fault)) => Ok(Some((fun.code(), fault))),
    }
}

fn add_pred(
    alloc: Global,
    table: &mut FunTable,
    code: u32,
) -> Result<Option<(u32, AddFault)>, AllocError> {
    let run: Pred = Box::new(
        alloc,
        move |state: &Value, args: &[Value]| -> bool
            requires { length args.now ≤ most_arguments }
            ensures { result ≡ core_accepts code args.now state.now }
        { core_test(code, state, args) },
    )?;
    match table.add_pred(StoredPred::new(code, run)) {
        Ok(()) => Ok(None),
        Err((pred, fault)) => Ok(Some((pred.code(), fault))),
    }
}

// A table that has Core without these codes.
fn core_without(alloc: Global, without: &[u32]) -> Result<Option<FunTable>, AllocError> {
    let mut table = FunTable::empty(alloc);
    for code in (1..11u32).rev() {
        if !without.contains(&code) && add_fun(alloc, &mut table, code)?.is_some() {
            return Ok(None);
        }
    }
    for code in (101..110u32).rev() {
        if !without.contains(&code) && add_pred(alloc, &mut table, code)?.is_some() {
            return Ok(None);
        }
    }
    Ok(Some(table))
}

const CODES: &[u32] = &[0, 1, 2, 4, 7, 10, 11, 100, 101, 102, 109, 110, u32::MAX];

fn check_codes(rt: &(impl Abort + AllocGlobal), table: &FunTable, without: &[u32]) {
    same(rt, has_core(table), without.is_empty());
    for code in CODES {
        let is_in = !without.contains(code);
        let (is_fun, is_pred) = ((1..=10).contains(code), (101..=109).contains(code));
        let has = (*code, table.has_fun(*code), table.has_pred(*code));
        same(rt, has, (*code, is_in && is_fun, is_in && is_pred));
    }
}

// A predicate is no function, and a function no predicate.
const CALLS: &[Call] = &[
    (1, "2", "[3 4]", "9"),
    (2, "2", "[3 4]", "-5"),
    (3, "2", "[]", "3"),
    (4, "2", "[]", "1"),
    (1, "9223372036854775807", "[1]", "Refused(Overflow)"),
    (3, "2", "[3]", "Refused(WrongArity)"),
    (9, "2", "[3]", "Refused(WrongKind)"),
    (101, "2", "[3]", "NoSuchFun(101)"),
    (101, "0", "[1]", "Some(false)"),
    (101, "0", "[]", "Some(false)"),
    (109, "nil", "[]", "Some(false)"),
    (101, "1", "[1]", "Some(true)"),
    (102, "0", "[0]", "Some(true)"),
    (109, "0", "[]", "Some(true)"),
    (1, "0", "[1]", "None"),
    (3, "0", "[]", "None"),
];

fn check_table(
    rt: &(impl Abort + AllocGlobal),
    table: &FunTable,
    without: &[u32],
) -> Result<(), Fail> {
    check_codes(rt, table, without);
    for call in CALLS {
        let missing = format!(in rt.alloc(); "NoSuchFun({})", call.0)?;
        let missing = if is_test(call) {
            "None"
        } else {
            missing.as_str()
        };
        let is_out = without.contains(&call.0);
        let wanted = if is_out { missing } else { call.3 };
        same(rt, answered(rt.alloc(), table, call)?.as_str(), wanted);
    }
    Ok(())
}

const LEFT_OUT: &[&[u32]] = &[&[], &[1], &[7], &[10], &[101], &[109], &[4, 102]];

#[test]
fn a_table_answers_as_the_codes_mean(rt: HostRuntime) -> Result<(), Fail> {
    for without in LEFT_OUT {
        let table = core_without(rt.alloc(), without)?.ok_or("a code wasn't added")?;
        check_table(&rt, &table, without)?;
    }
    Ok(())
}

// A function and a predicate with this code are added, or have this fault.
fn check_added(
    rt: &(impl Abort + AllocGlobal),
    table: &mut FunTable,
    code: u32,
    fault: Option<AddFault>,
) -> Result<(), Fail> {
    let wanted = fault.map(|fault| (code, fault));
    same(rt, add_fun(rt.alloc(), table, code)?, wanted);
    same(rt, add_pred(rt.alloc(), table, code)?, wanted);
    let has = (table.has_fun(code), table.has_pred(code));
    let is_in = fault != Some(AddFault::Full);
    same(rt, has, (is_in, is_in));
    Ok(())
}

#[test]
fn a_table_takes_64_of_each_kind(rt: HostRuntime) -> Result<(), Fail> {
    let mut table = FunTable::empty(rt.alloc());
    for code in 1000..1064u32 {
        check_added(&rt, &mut table, code, None)?;
    }
    check_added(&rt, &mut table, 1064, Some(AddFault::Full))?;
    check_added(&rt, &mut table, 1000, Some(AddFault::Taken))?;
    check_added(&rt, &mut table, 1063, Some(AddFault::Taken))
}
