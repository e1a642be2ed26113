//! What is done with worlds.
use crate::atoms::changed_in;
use crate::served::said;
use crate::tables::{FULL, Table};
use crate::worlds::Scenario;
use ref_fun::Core;
use ref_log::{MakeFault, Stamp, Who};
use ref_play::{Act, Event, Reply};
use ref_refs::CommitFault;
use ref_tx::{Tx, TxFault};
use ref_world::World;
use std::alloc::{AllocError, Global};

/// The stamp of each commit that is made here.
pub(crate) const STAMP: Stamp = Stamp { worker: 1, step: 2 };

/// What is done with a world.
#[derive(Drop)]
pub(crate) enum What {
    /// Nothing.
    Nothing,
    /// A transaction of another world is committed by a table.
    Commit(Tx<Core>, Table),
    /// Atoms are changed by hand.
    Change,
}

/// What is done with a world, and what was heard until then: whether the table with fewer functions serves it, and what it lacks. That table
/// makes the world, or plays an event, where an `x` stands in `tables`.
#[derive(Drop)]
pub(crate) struct Look<'a> {
    pub what: What,
    pub tables: &'a str,
    pub bits: String,
    pub codes: Vec<u32>,
}

impl<'a> Look<'a> {
    pub(crate) fn of(alloc: Global, what: What, tables: &'a str) -> Look<'a> {
        Look {
            what,
            tables,
            bits: String::new(alloc),
            codes: Vec::new(alloc),
        }
    }
}

impl<'a> Scenario for Look<'a> {
    type Seen = String;

    fn hear(&mut self, reply: Option<&Reply>, is_served: bool) -> Result<(), AllocError> {
        if let Some(code) = reply.and_then(said) {
            self.codes.push(code)?;
        }
        self.bits.push(if is_served { '1' } else { '0' })?;
        Ok(())
    }

    fn has_fewer(&self, place: usize) -> bool {
        self.tables.as_bytes().get(place) == Some(&b'f')
    }

    fn refuse(self, alloc: Global, who: Who, fault: MakeFault) -> Result<String, AllocError> {
        format!(in alloc; "{who:?} {fault}")
    }

    fn look(
        self,
        alloc: Global,
        world: &mut World<Core>,
        rest: &[Event],
    ) -> Result<String, AllocError> {
        let Look {
            what,
            bits,
            codes,
            ..
        } = self;
        match what {
            What::Nothing => format!(in alloc; "{bits} {codes:?}"),
            What::Commit(tx, table) => committed(alloc, world, &table, tx),
            What::Change => changed_in(alloc, world, rest),
        }
    }
}

// Whether a transaction is refused for this fault.
fn is_refused(
    alloc: Global,
    world: &mut World<Core>,
    table: &Table,
    tx: Tx<Core>,
    fault: CommitFault,
) -> bool {
    match world.commit(alloc, table, STAMP, tx) {
        Ok(_receipt) => false,
        Err((_tx, again)) => again == fault,
    }
}

// What comes of a commit. A refused one is refused again, for the same fault.
fn committed(
    alloc: Global,
    world: &mut World<Core>,
    table: &Table,
    tx: Tx<Core>,
) -> Result<String, AllocError> {
    let before = world.point();
    match world.commit(alloc, table, STAMP, tx) {
        Ok(receipt) => format!(in alloc; "point {}", receipt.point),
        Err((tx, fault)) => {
            let again = is_refused(alloc, world, table, tx, fault);
            if again && world.point() == before {
                fault.to_string(alloc)
            } else {
                String::from_str(alloc, "another outcome")
            }
        }
    }
}

/// The acts by hand are those of one transaction, which is returned.
#[derive(Drop)]
pub(crate) struct Beginning;

impl Scenario for Beginning {
    type Seen = Tx<Core>;

    fn hear(&mut self, _reply: Option<&Reply>, _is_served: bool) -> Result<(), AllocError> {
        Ok(())
    }

    fn has_fewer(&self, _place: usize) -> bool {
        false
    }

    fn refuse(self, _alloc: Global, _who: Who, _fault: MakeFault) -> Result<Tx<Core>, AllocError> {
        Err(AllocError)
    }

    fn look(
        self,
        alloc: Global,
        world: &mut World<Core>,
        rest: &[Event],
    ) -> Result<Tx<Core>, AllocError> {
        transaction(alloc, world, rest)
    }
}

/// A transaction with these operations.
pub(crate) fn transaction(
    alloc: Global,
    world: &World<Core>,
    events: &[Event],
) -> Result<Tx<Core>, AllocError> {
    let mut tx = world.begin(alloc)?;
    for event in events {
        operate(alloc, &mut tx, &event.act).map_err(|_| AllocError)?;
    }
    Ok(tx)
}

fn operate(alloc: Global, tx: &mut Tx<Core>, act: &Act) -> Result<(), TxFault> {
    match act {
        Act::RefSet(r, value) => tx.ref_set(alloc, *r, value.share()?).map(drop),
        Act::Alter(r, code, args) => tx.alter(alloc, &FULL, *r, *code, args.share()?).map(drop),
        Act::Commute(r, code, args) => {
            let args = args.share()?;
            tx.commute(alloc, &FULL, *r, *code, args).map(drop)
        }
        Act::Ensure(r) => tx.ensure(alloc, *r).map(drop),
        Act::SendInTx(g, action) => tx.send(alloc, &FULL, *g, action.share()?),
        _ => Err(TxFault::NotMet),
    }
}
