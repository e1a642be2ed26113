//! What is said of the world that comes out of a shared one, and of an end that is refused.
use crate::numbers::int_of;
use crate::rows::{Wrong, parts};
use crate::scenarios::Inspection;
use crate::texts::{NO_CALL, Said, add_item, at, index_at, number, text, words};
use crate::worlds::Stop;
use ref_agents::Account;
use ref_fun::Core;
use ref_log::{Entry, Transaction};
use ref_pvec::PVec;
use ref_shared::GatherFault;
use ref_world::{Booked, Books, Share, Totals, World};
use std::alloc::Global;

// As `1/0 at 0`, by its read point; or as `1/0 10`, by the kept answer of its first operation.
fn transaction_text(alloc: Global, transaction: &Transaction, by_answer: bool) -> Said {
    let (stamp, point) = (transaction.stamp, transaction.read_point);
    if !by_answer {
        return format!(in alloc; "{}/{} at {point}", stamp.worker, stamp.step);
    }
    let answer = match transaction.dones.get(0) {
        Some(done) => number(alloc, int_of(&done.answer))?,
        None => text(alloc, "none")?,
    };
    format!(in alloc; "{}/{} {answer}", stamp.worker, stamp.step)
}

// All transactions of a log.
fn transactions_text(alloc: Global, log: &PVec<Entry>, by_answer: bool) -> Said {
    let mut list = text(alloc, "")?;
    for entry in log {
        if let Entry::Trans(transaction) = entry {
            add_item(&mut list, &transaction_text(alloc, transaction, by_answer)?)?;
        }
    }
    Ok(list)
}

fn account_text(alloc: Global, account: &Account, word: &str) -> Said {
    match word {
        "start" => number(alloc, int_of(account.start())),
        "handled" => format!(in alloc; "{}", account.handled().len()),
        "number" => format!(in alloc; "{}", account.number()),
        "waiting" => format!(in alloc; "{}", account.waiting()),
        _ => text(alloc, NO_CALL),
    }
}

fn of_world(alloc: Global, world: &World<Core>, totals: Totals, call: &[&str]) -> Said {
    match at(call, 1) {
        "entries" => format!(in alloc; "{}", world.log().len()),
        "commits" => transactions_text(alloc, world.log(), false),
        "answers" => transactions_text(alloc, world.log(), true),
        "count" => format!(in alloc; "{}", totals.commits),
        "totals" => format!(in alloc; "{} {} {}", totals.commits, totals.added, totals.taken),
        "books" => format!(in alloc; "{} {} {}", world.commits(), world.added(), world.taken()),
        "base" => {
            let base = world.base();
            let first = number(alloc, base.refs.get(0).and_then(int_of))?;
            format!(in alloc; "{} {first}", base.point)
        }
        word => match world.account(index_at(call, 2)) {
            Some(account) => account_text(alloc, account, word),
            None => text(alloc, NO_CALL),
        },
    }
}

// What the rows of one world say of its end.
#[derive(Clone, Copy, Drop)]
pub(crate) struct Ends<'t>(pub(crate) &'t [&'t str]);

impl<'t> Inspection for Ends<'t> {
    type Seen = Wrong<'t>;

    fn inspect(
        &self,
        alloc: Global,
        world: &mut World<Core>,
        totals: Totals,
    ) -> Result<Wrong<'t>, Stop> {
        for row in self.0 {
            let (call, reply) = parts(row);
            if row.starts_with("end ") {
                let answer = of_world(alloc, world, totals, &words(alloc, call)?)?;
                if answer.as_str() != reply {
                    return Ok(Some((row, answer)));
                }
            }
        }
        Ok(None)
    }

    // There is to be one row of the end, which says it.
    fn refused<L: Books>(
        &self,
        alloc: Global,
        booked: &Booked<Core, L>,
        share: &Share<L>,
        fault: GatherFault,
    ) -> Result<Wrong<'t>, Stop> {
        let (whole, receipts) = (share.is_whole(), share.receipts().len());
        let commits = booked.world.commits();
        let answer = format!(in alloc;
            "{fault}: whole {whole}, receipts {receipts}, commits {commits}"
        )?;
        for row in self.0 {
            if parts(row) == ("end refused", answer.as_str()) {
                return Ok(None);
            }
        }
        Ok(Some(("end refused", answer)))
    }
}
