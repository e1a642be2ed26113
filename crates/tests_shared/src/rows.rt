//! Calls of shared worlds by one thread as rows of text, with what they say.
//!
//! A row is a line `CALLS → REPLY`, with "; " between the calls. Each call but the last says `ok`, or the reply has what it says and then "; ".
//! A row without a reply wants `ok`. Lines that begin with `//` are comments.
//!
//! A row `== START` begins a shared world of its own, on which the rows behind it make their calls. START has the values of refs, atoms and
//! agents, with `|` between these; or it is `a tally`, one ref of 0 that is the tally, or `two agents`, those of [`jobs`](crate::jobs).
//! A reference is `r0`, `a0` or `g0`, a function `+` or `-` with one argument, or one that the table lacks. A rule asks for at least a number.
//!
//! | Call | Says |
//! |---|---|
//! | `value r0`, `values r` | a number, or `none`; those of all refs |
//! | `rule r0 5`, `rule r0` | `ok` |
//! | `watch r0 :k`, `unwatch r0 :k` | `ok` or `no` |
//! | `make ref 5`, `make ref 5 0` with a rule; so `tally`, `atom`, `agent` and `patient`, which goes on where an action fails | its number |
//! | `swap a0 + 1`, `reset a0 5` | the numbers before and after, and the notices |
//! | `compare a0 4 5` | `ok` or `no`, and the notices |
//! | `send g0 + 1`, `carry g0 + 1`, with which `+ 1` goes to the next agent, or `carry g0 + 1 4` | `ok` |
//! | `restart g0 5`, `restart g0 5 clear`, `continue g0` | `ok` |
//! | `error g0`, `await g0 g1` | `ok`, or the error or fault |
//! | `work`; `work no-memory` and `work no-predicates`, with a table that lacks these | the agent, or `closed`, and what the sink hears |
//! | `begin t`, `t: set r0 5`, `commit t 1 0`, by worker and step; so with `u` | the read point; a number; the point, and the notices |
//! | `transact 3 1: alter r0 + 1, deref r1` | the last number, and the notices. There are 3 tries, and after the first body another caller sets r0 to 10 |
//! | `transact 3 1 before: ..`, `transact 3 0 no-predicates: ..` | the same, where that caller comes before the body, or the table lacks predicates |
//! | `when 3 1 wait ready: ..` | the same of `transact_when`: the first body isn't ready, and the second one is. One that is `refused` ends it |
//! | `last` | how many bodies the last of these began, by its gate, and called, and how many receipts the share had then, without that caller's |
//! | `stranger 1` | `ok`: `t` is a transaction of a world with one commit |
//! | `leave t` | what comes of a `transact` whose body leaves `t` in the place of its own |
//! | `fold g0`, `release g0`, `release 1` | `ok` or `no` |
//! | `checkpoint 2`, `bites 7 3`, `bites 7 3 no-memory` | how many entries are folded; three at a time |
//! | `forget`, `forget 2`, `receipts` | how many receipts the share has then |
//! | `close` | `ok` |
//!
//! Rows that begin with `end` are of the world that comes out: `end entries`, how many there are; `end base`, its point and r0 there;
//! `end commits` and `end answers`, each transaction by worker and step with its read point or its first kept answer; `end totals` and
//! `end books`, commits, added and taken; `end count`, the commits of the totals; and of the account of an agent `end start g0`,
//! `end handled g0`, `end number g0` and `end waiting g0`. If none comes out, `end refused` says why, and what comes back.
//!
//! In the place of each of these a fault may be said. What means no call says so.
use crate::acting::On;
use crate::closing::Ends;
use crate::jobs::two_agents;
use crate::same::same;
use crate::scenarios::{Scenario, run_to_end};
use crate::texts::{Said, add_reply, at, text, words};
use crate::transacting::Acts;
use crate::worlds::{Stop, agent, plain_start};
use ref_edn::read_all;
use ref_fun::Core;
use ref_shared::Shared;
use ref_world::{Books, Share, Start};
use std::alloc::{AllocError, Global};
use std::process::Abort;
use std::sync::Wait;
use std::test::Fail;

// A row that is wrong, and what is said.
pub(crate) type Wrong<'t> = Option<(&'t str, String)>;

// The calls of a row, and its reply.
pub(crate) fn parts(row: &str) -> (&str, &str) {
    row.split_once(" → ").unwrap_or((row, "ok"))
}

// The rows of a text.
pub(crate) fn rows_of<'t>(alloc: Global, text: &'t str) -> Result<Vec<&'t str>, AllocError> {
    let mut rows = Vec::new(alloc);
    for line in text.lines() {
        let line = line.trim();
        if !line.is_empty() && !line.starts_with("//") {
            rows.push(line)?;
        }
    }
    Ok(rows)
}

fn start(alloc: Global, text: &str) -> Result<Start, AllocError> {
    if text == "two agents" {
        return two_agents(alloc);
    }
    let is_tally = text == "a tally";
    let text = if is_tally { "0" } else { text };
    let (refs, others) = text.split_once("|").unwrap_or((text, ""));
    let (atoms, agents) = others.split_once("|").unwrap_or((others, ""));
    let mut start = plain_start(alloc, refs, atoms)?;
    if let Some(first) = start.refs.get_mut(0) {
        first.tally = is_tally;
    }
    for value in read_all(alloc, agents.as_bytes()).map_err(|_| AllocError)? {
        start.agents.push(agent(value, None))?;
    }
    Ok(start)
}

// ---- The calls

impl<'a, 'b, R: Wait, L: Books> On<'a, 'b, R, L> {
    // Makes a call. Behind ": " are the operations of a transaction.
    fn make_call(&self, share: &mut Share<L>, acts: &mut Acts, call: &str) -> Said {
        let (head, body) = call.split_once(": ").unwrap_or((call, ""));
        let call = words(self.alloc, head)?;
        let (call, mut front) = (call.as_slice(), share.front().again());
        match at(call, 0) {
            "value" | "values" | "rule" | "watch" | "unwatch" => self.reference(&front, call),
            "make" => self.make(&mut front, call),
            "swap" | "reset" | "compare" => self.atom(share, call),
            "begin" | "commit" | "t" | "u" => self.open(share, acts, call, body),
            "transact" | "when" => self.transacted(share, acts, call, body),
            "stranger" | "leave" => self.foreign(share, acts, call),
            "last" => format!(in self.alloc; "{} {} {}", acts.begun, acts.called, acts.receipts),
            "receipts" | "forget" => self.receipts(share, call),
            "fold" | "release" | "checkpoint" | "bites" | "close" => self.end(&mut front, call),
            "await" => self.await_all(call),
            "work" => self.work(call),
            _ => self.agent(call),
        }
    }

    // Makes all calls of a row.
    fn answer(&self, share: &mut Share<L>, acts: &mut Acts, calls: &str) -> Said {
        let mut all = text(self.alloc, "")?;
        for call in calls.split("; ") {
            add_reply(&mut all, self.make_call(share, acts, call))?;
        }
        Ok(all)
    }

    // The first row that is wrong.
    fn wrong_of<'t>(
        &self,
        share: &mut Share<L>,
        acts: &mut Acts,
        rows: &'t [&'t str],
    ) -> Result<Wrong<'t>, AllocError> {
        for row in rows {
            let (calls, reply) = parts(row);
            if !row.starts_with("end ") {
                let answer = self.answer(share, acts, calls)?;
                if answer.as_str() != reply {
                    return Ok(Some((row, answer)));
                }
            }
        }
        Ok(None)
    }
}

// The rows of one world, of which those of its end aren't calls.
#[derive(Clone, Copy, Drop)]
pub(crate) struct Rows<'t>(pub(crate) &'t [&'t str]);

impl<'t, R: Wait> Scenario<R> for Rows<'t> {
    type Outcome = Wrong<'t>;

    fn run<L: Books>(
        &self,
        rt: &R,
        alloc: Global,
        shared: &Shared<Core, L>,
        share: &mut Share<L>,
    ) -> Result<Wrong<'t>, Stop> {
        let on = On { rt, alloc, shared };
        let mut acts = Acts {
            t: None,
            u: None,
            step: 0,
            begun: 0,
            called: 0,
            receipts: 0,
        };
        match on.wrong_of(share, &mut acts, self.0) {
            Ok(wrong) => Ok(wrong),
            Err(AllocError) => Err(Stop::Memory),
        }
    }
}

// ---- Worlds

// The rows of one world say what they are to say.
fn check_world(rt: &(impl Abort + AllocGlobal + Wait), world: &str) -> Result<(), Fail> {
    let alloc = rt.alloc();
    let (first, rest) = world.split_once("\n").unwrap_or((world, ""));
    let rows = rows_of(alloc, rest)?;
    let (rows, start) = (rows.as_slice(), start(alloc, first)?);
    let wrong = run_to_end(rt, alloc, start, &Rows(rows), &Ends(rows))?;
    same(rt, wrong, (None, None));
    Ok(())
}

// All rows of all worlds do.
pub(crate) fn check(rt: &(impl Abort + AllocGlobal + Wait), table: &str) -> Result<(), Fail> {
    let mut is_before = true;
    for world in table.split("== ") {
        if is_before {
            let count = rows_of(rt.alloc(), world).map(|rows| rows.len());
            same(rt, count, Ok(0));
        } else {
            check_world(rt, world)?;
        }
        is_before = false;
    }
    Ok(())
}
