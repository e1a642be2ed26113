//! A shop that stays open: what a program that stays up does, so that it needs no more memory as time goes on.
//!
//! Four threads sell, each at a counter of its own, and now and then at one that they share. A sale is a transaction: it counts the
//! piece at the counter, adds the price to the takings, and sends a line to one of two logs, which are agents. One line in sixteen is
//! damaged: the log refuses it and goes on, and the helper who ran it counts an error. Now and then a thread that sells forgets the
//! receipts that are folded, and waits until its log has taken what was sent. Two helpers run what was sent. One more thread folds: it
//! waits until so much was taken, and then folds the entries up to there, and what the logs have handled. A sale waits while it is too
//! far behind.
//!
//! `service SALES` has each thread make so many sales, and 2,000 without an argument. What is printed is the same in whatever order
//! the threads get on.
#![tactic(auto)]

mod errors;
mod folding;
mod selling;
mod shop;

use errors::Errors;
use ref_program::prelude::*;
use shop::{COUNTERS, GONE, LOGS, SHARED_COUNTER, Shop, TAKINGS};
use std::env;
use std::rt::Env;

// How many sales a thread makes, where the command line doesn't say.
const SALES: u64 = 2_000;

fn main(rt: HostRuntime) -> Result<(), Fault> {
    let shop = Shop {
        sales: sales_asked_for(&rt)?,
    };
    // Four sell, one folds, and two help.
    let crew = Crew::of(COUNTERS + 1, 2).with_tries(u32::MAX);
    let end = run_custom(&rt, &shop, crew)?;
    say_all(&rt, &end)
}

// How many sales each thread is to make, by the first argument.
fn sales_asked_for<R: Env + Alloc>(rt: &R) -> Result<u64, Fault> {
    let mut words = env::args(rt).ok().ok_or(Fault::Memory)?;
    match words.nth(1) {
        None => Ok(SALES),
        Some(word) => word
            .parse::<u64>()
            .ok()
            .ok_or(Fault::Own("the number of sales is no number")),
    }
}

// What is in the world, and what the sinks counted.
fn say_all<R: Print>(rt: &R, end: &Ended<Core, Errors>) -> Result<(), Fault> {
    say_world(rt, end)?;
    let errors = Errors::sum(end.sinks.as_slice());
    println!(rt; "errors {}", errors.count)?;
    Ok(())
}

fn say_world<R: Print>(rt: &R, end: &Ended<Core, Errors>) -> Result<(), Fault> {
    let own = sum(end, COUNTERS, Who::Ref)?;
    let shared = held(end, Who::Ref(SHARED_COUNTER))?;
    println!(rt; "sold at counters of one thread {own}, at the shared one {shared}")?;
    println!(rt; "lines in the logs {}", sum(end, LOGS, Who::Agent)?)?;
    let totals = end.totals;
    println!(rt;
        "takings {}, added {}",
        held(end, Who::Ref(TAKINGS))?,
        totals.added
    )?;
    println!(rt;
        "threads that sold {}, commits {}",
        held(end, Who::Ref(GONE))?,
        totals.commits
    )?;
    let folded = end.world.base().point > 0;
    println!(rt; "folded: {}", if folded { "yes" } else { "no" })?;
    Ok(())
}

// The integer that a reference has.
fn held(end: &Ended<Core, Errors>, who: Who) -> Result<i64, Fault> {
    int_of(end.value_of(who)?).ok_or(Fault::Own("no integer"))
}

// What the first references of a kind have together.
fn sum(end: &Ended<Core, Errors>, count: u32, of: fn(u32) -> Who) -> Result<i64, Fault>
    requires { IsAlwaysCallable of }
{
    let mut sum = 0i64;
    for n in 0..count {
        sum = sum.saturating_add(held(end, of(n))?);
    }
    Ok(sum)
}
