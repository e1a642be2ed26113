//! Commits of transactions of another world, by a table that lacks something, at the last point, and with books that are nearly full.
use crate::looks::STAMP;
use crate::rows::{LAST, Way, check};
use crate::tables::{FEWER, FULL};
use crate::worlds::parts_of;
use ref_agents::{RefStart, Start};
use ref_events::ScriptParts;
use ref_fun::Core;
use ref_refs::RefStore;
use ref_tx::Tx;
use std::alloc::{AllocError, Global};
use std::test::Fail;

// Each row is asked of a world without books, and of one whose share counts, there also once the transaction is closed.
const FOREIGN: &str = r##"
    // What of a transaction isn't so in another place.
    a transaction of another store: there is no ref 0 here | :refs [[a 0]] :events [[9 :ref-set a 5]] | :refs []
    a transaction of another store: ref 0 had another value here | :refs [[a 0]] :events [[9 :ref-set a 7]] | :refs [[a 5]]
    a transaction of another store: point 1 is still to come | :refs [[a 0]] :events [[0 :begin] [0 :commit] [9 :ref-set a 5]] | :refs [[a 0]]
    a transaction of another store: the tally here can only be added to and taken from | :refs [[a 0]] :events [[9 :ref-set a 5]] | :refs [[t 0 :tally]]
    a transaction of another store: the tally here can only be added to and taken from | :refs [[a 0]] :events [[9 :commute a - -1]] | :refs [[t 5 :tally]]
    a transaction of another store: there is no agent 1 here | :agents [[g 0] [h 0]] :events [[9 :send-in-tx h + 1]] | :agents [[g 0]]
    // Of what it sends the first agent that isn't here.
    a transaction of another store: there is no agent 2 here | :agents [[g 0] [h 0] [i 0]] :events [[9 :send-carry-in-tx g [+ 1] [i + 5] [h + 5]] [9 :send-in-tx h + 1]] | :agents [[g 0]]
    // Of several refs the smallest; one that is only commuted isn't compared.
    a transaction of another store: ref 2 had another value here | :refs [[a 0] [b 0] [c 0] [d 0]] :events [[9 :ensure d] [9 :ensure a] [9 :commute b + 1] [9 :ref-set c 1]] | :refs [[a 0] [b 7] [c 5] [d 9]]
    a transaction of another store: ref 3 had another value here | :refs [[a 0] [b 0] [c 0] [d 0]] :events [[9 :ensure a] [9 :commute b + 1] [9 :ref-set c 1] [9 :ensure c] [9 :ensure d]] | :refs [[a 0] [b 7] [c 0] [d 9]]
    point 1 | :refs [[a 0] [b 0] [c 0] [d 0]] :events [[9 :ensure a] [9 :commute b + 1] [9 :ref-set c 1] [9 :ensure c] [9 :ensure d]] | :refs [[a 0] [b 7] [c 0] [d 0]]
    // What is so is committed there.
    point 2 | :refs [[a 0]] :events [[0 :begin] [0 :commit] [9 :ref-set a 5]] | :refs [[a 0]] :events [[0 :begin] [0 :commit]]
    point 1 | :refs [[a 0]] :events [[9 :commute a - 1]] | :refs [[t 5 :tally]]
    point 1 | :refs [[a 0]] :events [[9 :commute a + 1]] | :refs [[a 5]]
    point 1 | :agents [[g 0] [h 0]] :events [[9 :send-in-tx h + 1]] | :agents [[g 0]] :events [[0 :make-agent 0]]
    // Of two faults the first in order: refs, agents, the tally, the point, a conflict, a value, a function that refuses.
    a transaction of another store: there is no ref 1 here | :refs [[a 0] [b 0]] :agents [[g 0] [h 0]] :events [[9 :send-in-tx h + 1] [9 :ref-set b 1]] | :refs [[t 0 :tally]] :agents [[g 0]]
    a transaction of another store: there is no agent 1 here | :refs [[a 0]] :agents [[g 0] [h 0]] :events [[9 :ref-set a 1] [9 :send-in-tx g + 1] [9 :send-in-tx h + 1]] | :refs [[t 0 :tally]] :agents [[g 0]]
    a transaction of another store: there is no ref 1 here | :refs [[a 0] [b 0]] :events [[0 :begin] [0 :commit] [9 :ref-set b 1]] | :refs [[a 0]]
    a transaction of another store: there is no ref 1 here | :refs [[a 0] [b 0]] :events [[9 :ref-set a 1] [9 :ref-set b 1]] | :refs [[t 0 :tally]]
    a transaction of another store: the tally here can only be added to and taken from | :refs [[a 0]] :events [[0 :begin] [0 :commit] [9 :ref-set a 1]] | :refs [[t 0 :tally]]
    ref 0 has changed | :refs [[a 0]] :events [[9 :ensure a]] | :refs [[a 5]] :events [[0 :begin] [0 :ref-set a 6] [0 :commit]]
    a transaction of another store: ref 0 had another value here | :refs [[a 0] [b 0]] :events [[9 :commute b + 1] [9 :ensure a]] | :refs [[a 5] [b 9223372036854775807]]
"##;

#[test]
fn transactions_of_another_world(rt: HostRuntime) -> Result<(), Fail> {
    check(&rt, Way::Commit(FULL), FOREIGN)?;
    check(&rt, Way::Counted(FULL), FOREIGN)?;
    check(&rt, Way::Closed(FULL), FOREIGN)
}

const LACKING: &str = r##"
    // An alter isn't made again, and a rule is asked of refs that are set, altered or commuted, and of no others.
    point 1 | :refs [[a 0]] :events [[9 :alter a - 1]] | :refs [[a 0]]
    point 1 | :refs [[a 0] [b 0]] :events [[9 :ensure a] [9 :ref-set b -1]] | :refs [[a 0 [<= 0]] [b 0]]
    the table lacks code 102 | :refs [[a 0]] :events [[9 :ref-set a 0]] | :refs [[a 0 [<= 0]]]
    the table lacks code 104 | :refs [[a 0]] :events [[9 :commute a + 0]] | :refs [[a 0 [int?]]]
    // Functions of commutes come before predicates, and these in the order of the operations; behind what is foreign, before conflicts and rules.
    the table lacks code 2 | :refs [[a 0]] :events [[9 :commute a - 0]] | :refs [[a 0 [<= 0]]]
    the table lacks code 102 | :refs [[a 0] [b 0]] :events [[9 :ref-set b 1] [9 :ref-set a 1]] | :refs [[a 0 [int?]] [b 0 [<= 0]]]
    a transaction of another store: point 1 is still to come | :refs [[a 0]] :events [[0 :begin] [0 :commit] [9 :commute a - 1]] | :refs [[a 0]]
    the table lacks code 2 | :refs [[a 0] [b 0]] :events [[9 :ref-set a 1] [9 :commute b - 1]] | :refs [[a 0] [b 0]] :events [[0 :begin] [0 :ref-set a 5] [0 :commit]]
    the table lacks code 102 | :refs [[a 0]] :events [[9 :ref-set a 1]] | :refs [[a 0 [<= 0]]] :events [[0 :begin] [0 :ref-set a -1] [0 :commit]]
"##;

#[test]
fn commits_lack(rt: HostRuntime) -> Result<(), Fail> {
    check(&rt, Way::Commit(FEWER), LACKING)?;
    check(&rt, Way::Counted(FEWER), LACKING)?;
    check(&rt, Way::Closed(FEWER), LACKING)
}

// The end of points and a full book come last, in this order.
#[test]
fn commits_at_a_limit(rt: HostRuntime) -> Result<(), Fail> {
    check(
        &rt,
        Way::Land(LAST + 1, (9, 0)),
        r##"
            no point is left | :refs [[a 0]] :events [[9 :alter a + 1]] | :refs [[a 0]]
            no point is left | :refs [[t 0 :tally]] :events [[9 :commute t - 1]] | :refs [[t 0 :tally]]
            refused at ref 0: integer overflow | :refs [[a 0]] :events [[9 :commute a + 1]] | :refs [[a 9223372036854775807]]
            the rule of ref 0 doesn't accept its value | :refs [[a 0]] :events [[9 :ref-set a -1]] | :refs [[a 0 [>= 0]]]
        "##,
    )?;
    check(
        &rt,
        Way::Land(LAST, (5, 3)),
        r##"
            landed | :refs [[a 0]] :events [[9 :alter a + 9]] | :refs [[a 0]]
            landed | :refs [[t 0 :tally]] :events [[9 :commute t + 3] [9 :commute t - 3] [9 :commute t + 2]] | :refs [[t 0 :tally]]
            a book of the tally is full | :refs [[t 0 :tally]] :events [[9 :commute t + 3] [9 :commute t - 3] [9 :commute t + 3]] | :refs [[t 0 :tally]]
            a book of the tally is full | :refs [[t 0 :tally]] :events [[9 :commute t - 4]] | :refs [[t 0 :tally]]
        "##,
    )
}

// The refs of a row.
fn refs_of(alloc: Global, row: &str) -> Result<RefStore<Core>, AllocError> {
    let ScriptParts { start, .. } = parts_of(alloc, row)?;
    let Start { refs, .. } = start;
    let mut store: RefStore<Core> = RefStore::empty(alloc);
    for start in refs {
        let RefStart { value, rule, tally } = start;
        if !store.are_unchanged_since(0) {
            return Err(AllocError);
        }
        let made = store.make(alloc, &FULL, 0, value, rule, tally);
        made.map_err(|_| AllocError)?;
    }
    Ok(store)
}

/// What comes of a commit in a store of refs.
pub(crate) fn landed(
    alloc: Global,
    tx: Tx<Core>,
    here: &str,
    at: u64,
    room: (u64, u64),
) -> Result<String, AllocError> {
    let mut store = refs_of(alloc, here)?;
    if at == 0 || !store.are_unchanged_since(at - 1) {
        return Err(AllocError);
    }
    match store.commit(alloc, &FULL, at, 0, room.0, room.1, STAMP, tx) {
        Ok(_) => String::from_str(alloc, "landed"),
        Err((_tx, fault)) => fault.to_string(alloc),
    }
}
