//! The forms of agents.
ghost use Rattle.std.specs.Prelude.{◌≡◌, map, IfErr, IfOk, option_copied};
ghost use Rattle.ref_value.specs.Edn.{nesting};
ghost use Rattle.ref_audit.specs.Dumped.{agent_parts, handled_form, mark_word, queued_form, status_word};
ghost use Rattle.ref_audit.specs.Made.{IsMakeFault, word_text};
ghost use Rattle.ref_verdict.specs.Words.{vector_form};

use crate::dumping::forms::{Form, name, rule, vector_of, vector_of_all, vector_of_values};
use crate::faults::DumpMakeFault;
use crate::words::Word;
use ref_agents::{Account, Handled, Mark, Queued};
use ref_fun::Rule;
use ref_value::Value;
use std::alloc::Global;

#[tactic(auto, using(crate::proofs::Depths::make_faults))]
pub(crate) fn agent(
    alloc: Global,
    account: &Account,
    state: &Value,
    failed: bool,
    by: Option<&Rule>,
) -> Result<Value, DumpMakeFault>
    ensures made { IfOk result (λ v. v ≡ agent_parts account.now state.now failed (option_copied by.entry)) }
    ensures fault { IfErr result (IsMakeFault
        (nesting (agent_parts account.now state.now failed (option_copied by.entry)))) }
{
    let start = account.start().share()?;
    let handled = vector_of_all(alloc, account.handled())?;
    let queue = queue(alloc, account)?;
    let state = state.share()?;
    let status = status(failed).keyword(alloc)?;
    let rule = rule(alloc, by)?;
    vector_of(
        alloc,
        vec![in alloc; start, handled, queue, state, status, rule]?,
    )
}

fn status(failed: bool) -> Word
    ensures { word_text result ≡ status_word failed }
{
    if failed { Word::Failed } else { Word::Ready }
}

// The actions that wait.
#[tactic(auto, using(crate::proofs::Depths::make_faults))]
fn queue(alloc: Global, account: &Account) -> Result<Value, DumpMakeFault>
    ensures made { IfOk result (λ v. v ≡ vector_form (map queued_form account.now.queue)) }
    ensures fault { IfErr result (IsMakeFault (nesting (vector_form (map queued_form account.now.queue)))) }
{
    let mut forms = Vec::with_capacity(alloc, account.waiting())?;
    for i in 0..account.waiting() {
        let Some(queued) = account.waiting_at(i) else {
            unreachable!()
        };
        forms.push(queued.to_value(alloc)?)?;
    }
    vector_of(alloc, forms)
}

impl Form for Handled {
    ghost form = { handled_form };

    #[tactic(auto, using(crate::proofs::Depths::make_faults))]
    fn to_value(&self, alloc: Global) -> Result<Value, DumpMakeFault> {
        let name = name(alloc, self.action.code)?;
        let args = vector_of_values(alloc, self.action.args.as_slice())?;
        let carries = vector_of_all(alloc, self.action.carries.as_slice())?;
        let mark = word_of(self.mark).keyword(alloc)?;
        vector_of(alloc, vec![in alloc; name, args, carries, mark]?)
    }
}

impl Form for Queued {
    ghost form = { queued_form };

    #[tactic(auto, using(crate::proofs::Depths::make_faults))]
    fn to_value(&self, alloc: Global) -> Result<Value, DumpMakeFault> {
        let name = name(alloc, self.action.code)?;
        let args = vector_of_values(alloc, self.action.args.as_slice())?;
        let carries = vector_of_all(alloc, self.action.carries.as_slice())?;
        vector_of(alloc, vec![in alloc; name, args, carries]?)
    }
}

fn word_of(mark: Mark) -> Word
    ensures { word_text result ≡ mark_word mark }
{
    match mark {
        Mark::Done => Word::Done,
        Mark::Failed => Word::Failed,
        Mark::Passed => Word::Passed,
    }
}
