//! Three workers sell, and two helpers run what they send to two tills, which are agents.
ghost use Rattle.std.specs.Prelude.{◌≡◌, IfOk};

use ref_program::prelude::*;

/// A ref: how many pieces are left.
pub const STOCK: u32 = 0;

/// The tally.
pub const TAKINGS: u32 = 1;

/// The agents: what was paid at each till.
pub const TILLS: [u32; 2] = [0, 1];

const WORKERS: u32 = 3;

const HELPERS: u32 = 2;

const SALES: u32 = 20;

const PRICE: i64 = 3;

// What a worker has sent to each till.
const PAID: i64 = 30;

struct Shop;

impl Program for Shop {
    // Each worker makes 20 sales.
    ghost did = { λ _ share. share.commits ≡ 20 };

    fn start(&self, world: &mut Declared) -> Result<(), Fault> {
        world.make_ref_with("100", AT_LEAST, 0)?;
        world.make_tally("0")?;
        for _ in TILLS {
            world.make_agent("0", ErrorMode::Fail)?;
        }
        Ok(())
    }

    // Each sale is paid at the other till than the one before. The worker waits until all is paid.
    fn work<L: Books, R: Wait>(&self, worker: &mut Worker<'_, L, R>) -> Result<(), Fault> {
        for n in 0..SALES {
            let till = n % 2;
            worker.transact(|tx| sell(tx, till))?;
        }
        worker.await_agents(&TILLS)?;
        for till in TILLS {
            is_paid(worker, till)?;
        }
        Ok(())
    }
}

// A piece less, and its price in the takings and on its way to a till.
fn sell(tx: &mut Dosync, till: u32) -> Result<(), Fault> {
    tx.alter(STOCK, MINUS, 1)?;
    tx.commute(TAKINGS, PLUS, PRICE)?;
    tx.send(till, PLUS, PRICE)?;
    Ok(())
}

// What this worker has sent to a till is there now.
fn is_paid<L: Books, R: Wait>(worker: &mut Worker<'_, L, R>, till: u32) -> Result<(), Fault>
    ensures { worker.new.share.commits ≡ worker.old.share.commits }
{
    let state = worker.value_of(Who::Agent(till))?;
    match state.as_ref().and_then(int_of) {
        Some(paid) if paid >= PAID => Ok(()),
        _ => Err(Fault::Own("a till has less than a worker has waited for")),
    }
}

/// What all have sold, however they got on: 60 pieces.
pub fn sell_all<R: AllocGlobal + Threads + Wait + Sync>(rt: &R) -> Result<Ended, Fault>
    ensures { IfOk result (λ end. end.totals.commits ≡ 60) }
{
    run(rt, &Shop, Crew::of(WORKERS, HELPERS))
}

#[cfg(test)]
mod tests {
    use super::*;
    use crate::same::same;
    use ref_world::Totals;
    use std::test::Fail;

    const VALUES: &[(Who, &str)] = &[
        (Who::Ref(STOCK), "40"),
        (Who::Ref(TAKINGS), "180"),
        (Who::Agent(0), "90"),
        (Who::Agent(1), "90"),
    ];

    #[test]
    fn all_sales_are_counted_and_paid(rt: HostRuntime) -> Result<(), Fail> {
        let end = sell_all(&rt)?;
        for (who, wanted) in VALUES {
            let value = text(rt.alloc(), end.value_of(*who)?)?;
            same(&rt, (*who, value.as_str()), (*who, *wanted));
        }
        let totals = Totals {
            commits: 60,
            added: 180,
            taken: 0,
        };
        same(&rt, (end.totals, end.world.totals()), (totals, totals));
        same(&rt, end.world.log().len(), 60);
        for till in TILLS {
            let waiting = end.world.account(till).map(|account| account.waiting());
            same(&rt, waiting, Some(0));
        }
        let missing = match end.value_of(Who::Ref(2)) {
            Ok(_) => String::new(rt.alloc()),
            Err(fault) => fault.to_string(rt.alloc())?,
        };
        same(&rt, missing.as_str(), "there is no Ref(2)");
        Ok(())
    }
}
