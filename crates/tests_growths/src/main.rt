//! Calls on a world that threads share, with each of their requests for memory refused in turn, and calls that take none.
//!
//! Run under the C library that `examples/refuse_growth.c` makes, the program makes each call in several states of a world. Request
//! 1, 2, .. of the call is refused, in a new world each time, until the call meets no refusal. After each refusal the world, its share and
//! its transactions have to be as before, also in what only later calls show, and the same call then has to answer as in a world that met
//! no refusal. At last calls that take no memory are made while every request is refused. Without that library nothing is refused, and
//! the program says so. The calls of a world without each of their requests are lists of events, in `examples/growths`.
//!
//! `worlds` has the states of a world, `calls` the calls on one that is shared and lent, `trials` a call without one of its requests and
//! the table of all, and `free` the calls that take no memory. `refusing` refuses.
#![tactic(auto)]

mod calls;
mod free;
mod refusing;
mod trials;
mod worlds;

use tests_shared::worlds::Stop;

fn main(rt: HostRuntime) -> Result<(), Stop> {
    if !refusing::refuses(&rt) {
        return println!(rt; "nothing refuses memory here, so nothing was tried").map_err(
            |_| Stop::Late,
        );
    }
    trials::try_all(&rt)?;
    free::try_all(&rt)
}
