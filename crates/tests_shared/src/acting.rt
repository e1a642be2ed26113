//! Calls but for those of transactions.
use crate::numbers::int_of;
use crate::texts::{
    Ear, NO_CALL, Said, action_of, add_item, at, code_at, count_at, fault, index_at, number,
    number_at, rule_at, said, table_at, text, truth, who_at, with_heard, with_notices,
};
use crate::worlds::{int_at, one_arg, value};
use ref_agents::ErrorMode;
use ref_atoms::{AtomFault, Cas, Swapped};
use ref_fun::{Core, CoreFunctions};
use ref_log::Who;
use ref_shared::{Open, Shared, Worked};
use ref_world::{Books, Front, Share};
use std::alloc::Global;
use std::sync::Wait;

// What calls are made on.
#[derive(Drop)]
pub(crate) struct On<'a, 'b, R: Wait, L: Books> {
    pub(crate) rt: &'a R,
    pub(crate) alloc: Global,
    pub(crate) shared: &'b Shared<Core, L>,
}

// The numbers before and after, and the notices.
fn changed(alloc: Global, answer: Result<Swapped, AtomFault>) -> Said {
    let changed = match answer {
        Ok(changed) => changed,
        Err(fault) => return format!(in alloc; "{fault}"),
    };
    let (old, new) = (int_of(&changed.old), int_of(&changed.new));
    let (old, new) = (number(alloc, old)?, number(alloc, new)?);
    with_notices(format!(in alloc; "{old} -> {new}"), alloc, &changed.notices)
}

// Whether it was set, and the notices.
fn compared(alloc: Global, answer: Result<Cas, AtomFault>) -> Said {
    match answer {
        Ok(compared) => {
            let done = truth::<AtomFault>(alloc, Ok(compared.done));
            with_notices(done, alloc, &compared.notices)
        }
        Err(fault) => format!(in alloc; "{fault}"),
    }
}

impl<'a, 'b, R: Wait, L: Books> On<'a, 'b, R, L> {
    // The numbers of the first nine of one kind that are there, in order.
    fn values(&self, front: &Front<L>, kind: &str) -> Said {
        let mut list = text(self.alloc, "")?;
        for n in 0..9u32 {
            let who = match kind {
                "r" => Who::Ref(n),
                "a" => Who::Atom(n),
                _ => Who::Agent(n),
            };
            if let Some(n) = int_at(self.rt, self.shared, front, who) {
                add_item(&mut list, &format!(in self.alloc; "{n}")?)?;
            }
        }
        Ok(list)
    }

    pub(crate) fn reference(&self, front: &Front<L>, call: &[&str]) -> Said {
        let (rt, alloc, shared, funs) = (self.rt, self.alloc, self.shared, &CoreFunctions);
        let (who, word) = (who_at(call, 1), at(call, 2));
        match at(call, 0) {
            "value" => number(alloc, int_at(rt, shared, front, who)),
            "values" => self.values(front, at(call, 1)),
            "rule" => fault(
                alloc,
                shared.set_validator(rt, funs, who, rule_at(alloc, call, 2)?),
            ),
            "watch" => truth(alloc, shared.add_watch(rt, who, value(alloc, word)?)),
            _ => {
                let was_there = shared.remove_watch(rt, who, &value(alloc, word)?);
                truth::<AtomFault>(alloc, Ok(was_there))
            }
        }
    }

    pub(crate) fn make(&self, front: &mut Front<L>, call: &[&str]) -> Said {
        let (rt, alloc, shared, funs) = (self.rt, self.alloc, self.shared, &CoreFunctions);
        let (new, rule) = (value(alloc, at(call, 2))?, rule_at(alloc, call, 3)?);
        let made = match at(call, 1) {
            "ref" => shared.make_ref(rt, alloc, funs, front, new, rule, false),
            "tally" => shared.make_ref(rt, alloc, funs, front, new, rule, true),
            "atom" => shared.make_atom(rt, alloc, funs, front, new, rule),
            "agent" => shared.make_agent(rt, alloc, funs, new, rule, ErrorMode::Fail),
            _ => shared.make_agent(rt, alloc, funs, new, rule, ErrorMode::Continue),
        };
        said(alloc, made)
    }

    pub(crate) fn atom(&self, share: &mut Share<L>, call: &[&str]) -> Said {
        let (rt, alloc, shared, funs) = (self.rt, self.alloc, self.shared, &CoreFunctions);
        let (a, word, last) = (index_at(call, 1), at(call, 2), at(call, 3));
        match at(call, 0) {
            "swap" => {
                let (code, args) = (code_at(call, 2), one_arg(alloc, last)?);
                changed(alloc, shared.swap(rt, alloc, funs, share, a, code, args))
            }
            "reset" => {
                let new = value(alloc, word)?;
                changed(alloc, shared.reset(rt, alloc, funs, share, a, new))
            }
            _ => {
                let (old, new) = (value(alloc, word)?, value(alloc, last)?);
                compared(
                    alloc,
                    shared.compare_and_set(rt, alloc, funs, share, a, &old, new),
                )
            }
        }
    }

    pub(crate) fn agent(&self, call: &[&str]) -> Said {
        let (rt, alloc, shared, funs) = (self.rt, self.alloc, self.shared, &CoreFunctions);
        let g = index_at(call, 1);
        match at(call, 0) {
            "send" | "carry" => fault(alloc, shared.send(rt, g, action_of(alloc, call)?)),
            "restart" => {
                let state = value(alloc, at(call, 2))?;
                fault(
                    alloc,
                    shared.restart(rt, funs, g, state, at(call, 3) == "clear"),
                )
            }
            "continue" => fault(alloc, shared.set_error_mode(rt, g, ErrorMode::Continue)),
            "error" => fault(alloc, shared.error_of(rt, g).map_or(Ok(()), Err)),
            _ => text(alloc, NO_CALL),
        }
    }

    // Waits for all agents of a call.
    pub(crate) fn await_all(&self, call: &[&str]) -> Said {
        let mut agents = Vec::new(self.alloc);
        for i in 1..call.len() {
            agents.push(index_at(call, i))?;
        }
        fault(
            self.alloc,
            self.shared.await_agents(self.rt, self.alloc, &agents),
        )
    }

    // Runs an action.
    pub(crate) fn work(&self, call: &[&str]) -> Said {
        let (rt, alloc, shared, funs) = (self.rt, self.alloc, self.shared, table_at(call, 1));
        let heard = text(alloc, "")?;
        let mut ear = Ear { alloc, heard };
        let first = match shared.work_once(rt, alloc, &funs, &mut Open, &mut ear) {
            Ok(Worked::Did(g)) => format!(in alloc; "g{g}"),
            Ok(Worked::Closed) => text(alloc, "closed"),
            Err(fault) => format!(in alloc; "{fault}"),
        };
        with_heard(first, &ear)
    }

    // Folds, releases or closes.
    pub(crate) fn end(&self, front: &mut Front<L>, call: &[&str]) -> Said {
        let (rt, alloc, shared) = (self.rt, self.alloc, self.shared);
        let (g, point) = (index_at(call, 1), u64::from(number_at(call, 1)));
        match at(call, 0) {
            "fold" => truth(alloc, shared.fold_agent(rt, g)),
            "release" if point > 0 => truth::<AtomFault>(alloc, Ok(shared.release(rt, point))),
            "release" => truth::<AtomFault>(alloc, Ok(shared.release_carried(rt, g))),
            "checkpoint" => said(
                alloc,
                shared.checkpoint(rt, alloc, &CoreFunctions, front, point),
            ),
            "bites" => {
                let (funs, bite) = (table_at(call, 3), count_at(call, 2));
                said(
                    alloc,
                    shared.checkpoint_in_bites(rt, alloc, &funs, front, point, bite),
                )
            }
            _ => {
                shared.close(rt);
                text(alloc, "ok")
            }
        }
    }

    // How many receipts the share has, once it has forgotten some if it is to.
    pub(crate) fn receipts(&self, share: &mut Share<L>, call: &[&str]) -> Said {
        match (at(call, 0), at(call, 1)) {
            ("forget", "") => self.shared.forget(self.rt, share),
            ("forget", _) => share.forget(u64::from(number_at(call, 1))),
            _ => {}
        }
        format!(in self.alloc; "{}", share.receipts().len())
    }
}
