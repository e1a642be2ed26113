//! Single steps on a shared world that are not to be refused.
ghost use Rattle.std.specs.Prelude.{◌<◌};

use crate::worlds::{Stop, action, add, done, value};
use ref_fun::{Core, CoreFunctions};
use ref_log::{Stamp, Who};
use ref_shared::{Open, Quiet, Shared};
use ref_tx::Tx;
use ref_world::{Books, Share};
use std::alloc::Global;
use std::sync::Wait;

/// Adds a watch with this key.
pub fn watch<L: Books, R: Wait>(
    rt: &R,
    alloc: Global,
    shared: &Shared<Core, L>,
    who: Who,
    key: &str,
) -> Result<(), Stop> {
    let key = value(alloc, key)?;
    let _ = done(shared.add_watch(rt, who, key))?;
    Ok(())
}

/// Sends an action of one argument to an agent.
pub fn send<L: Books, R: Wait>(
    rt: &R,
    alloc: Global,
    shared: &Shared<Core, L>,
    g: u32,
    code: u32,
    argument: &str,
) -> Result<(), Stop> {
    let action = action(alloc, code, argument)?;
    done(shared.send(rt, g, action))
}

/// Commits a transaction, and returns the point.
pub fn commit<L: Books, R: Wait>(
    rt: &R,
    alloc: Global,
    shared: &Shared<Core, L>,
    share: &mut Share<L>,
    stamp: Stamp,
    tx: Tx<Core>,
) -> Result<u64, Stop> {
    let receipt = done(shared.commit(rt, alloc, &CoreFunctions, share, stamp, tx))?;
    Ok(receipt.point)
}

/// Adds a number to ref 0 in a `transact` with so many tries, and returns the point.
pub fn transact_add<L: Books, R: Wait>(
    rt: &R,
    alloc: Global,
    shared: &Shared<Core, L>,
    share: &mut Share<L>,
    stamp: Stamp,
    tries: u32,
    n: &str,
) -> Result<u64, Stop>
    requires { 0 < tries }
{
    let (funs, gate, sink) = (&CoreFunctions, &mut Open, &mut Quiet);
    let body = |tx: &mut Tx<Core>| add(alloc, tx, 0, n);
    let added = shared.transact(rt, alloc, funs, share, stamp, tries, gate, sink, body);
    done(added).map(|(_, receipt)| receipt.point)
}

/// Commits `ref-set 0 text`, and returns the point.
pub fn commit_set<L: Books, R: Wait>(
    rt: &R,
    alloc: Global,
    shared: &Shared<Core, L>,
    share: &mut Share<L>,
    stamp: Stamp,
    text: &str,
) -> Result<u64, Stop> {
    let mut tx = shared.begin(rt, alloc, share)?;
    let _ = done(tx.ref_set(alloc, 0, value(alloc, text)?))?;
    commit(rt, alloc, shared, share, stamp, tx)
}
