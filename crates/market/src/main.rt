//! A market in threads: stalls that sell, customers who come in four threads, and two helpers.
//!
//! Three goods have a stock each, a ref whose rule is that it isn't below 0. A sale is a transaction: it takes a piece from the
//! stock, adds the price to the takings, and sends a line to the journal and the price to the till, which are agents. The four
//! threads of customers are workers; the two helpers run what was sent. What is printed is the same in whatever order the threads get on.
//!
//! The box office ([`tickets`]) sells by functions of its own ([`acts`]).
#![tactic(auto)]

mod acts;
mod board;
mod stalls;
mod tickets;

use ref_program::prelude::*;
use stalls::run_day;
use tickets::sell_tickets;

fn main(rt: HostRuntime) -> Result<(), Fault> {
    run_day(&rt)?;
    sell_tickets(&rt)
}
