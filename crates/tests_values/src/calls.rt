//! Calls of Core that no workload makes: of values nested deeper than 48, and by codes that have no meaning.
use crate::same::same;
use ref_edn::{Node, Value, print, read_one};
use ref_fun::{
    Args, Cause, Core, CoreFunctions, FunFault, Functions, MOST_ARGUMENTS, core_fun, core_test,
};
use std::alloc::{AllocError, Global};
use std::process::Abort;
use std::test::Fail;

/// The code of a function or a predicate, the state, its arguments as a vector, and what comes of it: the value, a fault, or an answer.
pub(crate) type Call = (u32, &'static str, &'static str, &'static str);

// So deep are the vectors that are written as `@48`.
const DEPTHS: &[usize] = &[48, 49, 62, 63];

// The text with a vector nested 48 deep, and nothing in it, instead of `@48`.
fn written_out(alloc: Global, text: &str) -> Result<String, AllocError> {
    let mut text = String::from_str(alloc, text)?;
    for depth in DEPTHS {
        let (fronts, backs) = ("[".repeat(alloc, *depth)?, "]".repeat(alloc, *depth)?);
        let nested = format!(in alloc; "{fronts}{backs}")?;
        text = text.replace(alloc, &format!(in alloc; "@{depth}")?, &nested)?;
    }
    Ok(text)
}

fn args_of(alloc: Global, text: &str) -> Result<Args, Fail> {
    let value = read_one(alloc, written_out(alloc, text)?.as_bytes())?;
    let Node::Vector(items) = value.node() else {
        return Err(Fail::new("arguments are a vector"));
    };
    let mut args = Vec::new(alloc);
    for arg in items {
        args.push(arg.share()?)?;
    }
    if args.len() > MOST_ARGUMENTS {
        return Err(Fail::new("at most 8 arguments"));
    }
    Ok(Args::of(alloc, args)?)
}

/// The state and the arguments of a call.
pub(crate) fn inputs_of(alloc: Global, call: &Call) -> Result<(Value, Args), Fail> {
    let state = read_one(alloc, written_out(alloc, call.1)?.as_bytes())?;
    Ok((state, args_of(alloc, call.2)?))
}

/// Whether a row is a call of a predicate.
pub(crate) fn is_test(call: &Call) -> bool {
    call.3.starts_with("Some(") || call.3 == "None"
}

/// What a function of a table gives, or why it doesn't, or what a predicate of it answers.
pub(crate) fn answered<F: Functions<Core>>(
    alloc: Global,
    funs: &F,
    call: &Call,
) -> Result<String, Fail> {
    let (state, args) = inputs_of(alloc, call)?;
    if is_test(call) {
        let answer = funs.test(call.0, &state, args.as_slice());
        return Ok(format!(in alloc; "{answer:?}")?);
    }
    match funs.call(alloc, call.0, &state, args.as_slice()) {
        Ok(value) => {
            let mut out = Vec::new(alloc);
            print(alloc, &value, &mut out)?;
            Ok(String::from_utf8_lossy(alloc, out.as_slice())?)
        }
        Err(fault) => Ok(format!(in alloc; "{fault:?}")?),
    }
}

const DEEP: &[Call] = &[
    (7, "[]", "[@49]", "Refused(TooDeep)"),
    (7, "@49", "[]", "Refused(TooDeep)"),
    (7, "@49", "[1]", "Refused(TooDeep)"),
    (7, "@63", "[]", "Refused(TooDeep)"),
    (7, "#{@48}", "[]", "Refused(TooDeep)"),
    (7, "#{@48}", "[1]", "Refused(TooDeep)"),
    (7, "#{@48}", "[@48]", "Refused(TooDeep)"),
    (7, "{1 @48}", "[@49]", "Refused(WrongKind)"),
    (8, "{}", "[1 @49]", "Refused(TooDeep)"),
    (8, "{1 @48}", "[1 2]", "{1 2}"),
    (8, "{1 @62}", "[1 nil]", "{1 nil}"),
    (8, "{1 @48}", "[2 2]", "Refused(TooDeep)"),
    (8, "{@48 1}", "[2 2]", "Refused(TooDeep)"),
    (8, "{@48 1}", "[@48 2]", "Refused(TooDeep)"),
    (8, "@49", "[1 2 3]", "Refused(WrongArity)"),
    (8, "[]", "[1 @49]", "Refused(WrongKind)"),
    (9, "{1 @48}", "[]", "{1 @48}"),
    (9, "{1 @62 2 3}", "[2]", "{1 @62}"),
    (10, "#{@48}", "[]", "#{@48}"),
    (10, "#{1 @62}", "[1]", "#{@62}"),
    (103, "@49", "[@49]", "Some(true)"),
    (103, "@48", "[@49]", "Some(false)"),
];

#[test]
fn calls_that_no_workload_makes(rt: HostRuntime) -> Result<(), Fail> {
    let alloc = rt.alloc();
    for call in DEEP {
        let got = answered(alloc, &CoreFunctions, call)?;
        same(&rt, got, written_out(alloc, call.3)?);
    }
    Ok(())
}

// Codes of no function, and of no predicate.
fn check_nothing(rt: &(impl Abort + AllocGlobal), state: &Value, args: &Args) {
    let refused = Some(FunFault::Refused(Cause::WrongArity));
    for code in [0, 11, 12, 100, 101, 109, u32::MAX] {
        let fault = core_fun(rt.alloc(), code, state, args.as_slice()).err();
        same(rt, (code, fault), (code, refused));
    }
    for code in [0, 1, 10, 100, 110, 111, u32::MAX] {
        let accepts = core_test(code, state, args.as_slice());
        same(rt, (code, accepts), (code, false));
    }
}

#[test]
fn codes_of_nothing_refuse_or_accept_nothing(rt: HostRuntime) -> Result<(), Fail> {
    for call in [(0, "1", "[1]", ""), (0, "nil", "[]", "")] {
        let (state, args) = inputs_of(rt.alloc(), &call)?;
        check_nothing(&rt, &state, &args);
    }
    Ok(())
}
