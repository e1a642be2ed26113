//! Replays by a table that lacks something.
use crate::rows::{Way, check};
use crate::tables::{FEWER, Table};
use ref_edn::read_one;
use ref_fun::Core;
use ref_log::replay_plain;
use ref_verdict::read_dump;
use std::alloc::{AllocError, Global};
use std::test::Fail;

// Each begins with the refs 0, which is 0, and 1, which is 10, and the atom 0, which is 1. The functions up to the first fault are asked for.
#[test]
fn replays_lack(rt: HostRuntime) -> Result<(), Fail> {
    check(
        &rt,
        Way::Replay,
        r##"
            no function has code 2 | [:tx 0 0 0 [] []] [:tx 0 0 0 [[:alter 0 - [5] -5]] []]
            no function has code 2 | [:tx 0 0 0 [[:alter 0 - [1] 1] [:alter 2 + [1] 1]] []]
            no function has code 2 | [:tx 0 0 0 [[:alter 0 - [1] -1]] []] [:tx 0 0 0 [[:alter 0 dec [1] 1]] []]
            no function has code 2 | [:swap 0 - [1] 0]
            no function has code 3 | [:tx 0 0 0 [[:set 0 :k :k] [:commute 0 inc [] 1]] []]
            the entry at point 1 keeps a wrong answer | [:tx 0 0 0 [[:alter 0 + [1] 2] [:alter 0 - [1] 1]] []]
            a function refuses in the entry at point 2 | [:made-ref 1] [:tx 0 0 0 [[:alter 2 + [:k] 1]] []] [:swap 0 - [1] 0]
            the entry at point 2 is about a reference that isn't there | [:tx 0 0 0 [] []] [:tx 0 0 0 [[:alter 4294967295 - [5] 5]] []]
            the entry at point 1 is about a reference that isn't there | [:swap 1 - [1] 0]
            3 refs and 1 atoms | [:made-ref 4] [:swap 0 + [1] 2]
        "##,
    )
}

/// What comes of the replay of these entries.
pub(crate) fn replayed(alloc: Global, row: &str) -> Result<String, AllocError> {
    let text = format!(in alloc;
        "{{:dump 3 :point 0 :base-refs [[0 0] [10 0]] :base-atoms [1] :folded [0 0 0] :tally nil :entries [{row}] \
         :refs [] :atoms [] :agents [] :commits 0 :added 0 :taken 0}}"
    )?;
    let value = read_one(alloc, text.as_str().as_bytes()).map_err(|_| AllocError)?;
    let dump = read_dump(alloc, &value).map_err(|_| AllocError)?;
    match replay_plain::<Core, Table>(alloc, &FEWER, &dump.base, &dump.entries) {
        Ok(state) => {
            let (refs, atoms) = (state.refs.len(), state.atoms.len());
            format!(in alloc; "{refs} refs and {atoms} atoms")
        }
        Err(fault) => fault.to_string(alloc),
    }
}
