//! Codes of actions that no function of Core has.
ghost use Rattle.std.specs.Prelude.{◌≡◌, ℕ, Option, min};
ghost use Rattle.ref_audit.specs.Dumped.{least, lesser, unnamed_code, unnamed_in_account, unnamed_in_action, unnamed_in_carry, unnamed_in_entry, unnamed_in_handled, unnamed_in_queued, unnamed_in_sent};

use ref_agents::{Account, Handled, Queued};
use ref_fun::{Action, Carry, is_function};
use ref_log::{Entry, Sent};
use ref_pvec::PVec;

// What may name functions of actions.
pub(crate) trait Naming {
    ghost unnamed: { Self → Option ℕ };

    // The least code of its actions that no function of Core has.
    fn unnamed(&self) -> Option<u32>
        ensures { result ≡ unnamed self.now };
}

impl Naming for Entry {
    ghost unnamed = { unnamed_in_entry };

    fn unnamed(&self) -> Option<u32> {
        match self {
            Entry::Trans(transaction) => least_of(transaction.sends.as_slice()),
            Entry::Atom(_, _, _) | Entry::MadeRef(_) | Entry::MadeAtom(_) => None,
        }
    }
}

impl Naming for Sent {
    ghost unnamed = { unnamed_in_sent };

    fn unnamed(&self) -> Option<u32> {
        unnamed_in_action(&self.action)
    }
}

impl Naming for Handled {
    ghost unnamed = { unnamed_in_handled };

    fn unnamed(&self) -> Option<u32> {
        unnamed_in_action(&self.action)
    }
}

impl Naming for Queued {
    ghost unnamed = { unnamed_in_queued };

    fn unnamed(&self) -> Option<u32> {
        unnamed_in_action(&self.action)
    }
}

impl Naming for Carry {
    ghost unnamed = { unnamed_in_carry };

    fn unnamed(&self) -> Option<u32> {
        unnamed_code(self.code)
    }
}

fn unnamed_in_action(action: &Action) -> Option<u32>
    ensures { result ≡ unnamed_in_action action.now }
{
    lesser(
        unnamed_code(action.code),
        least_of(action.carries.as_slice()),
    )
}

fn unnamed_code(code: u32) -> Option<u32>
    ensures { result ≡ unnamed_code code }
{
    if is_function(code) { None } else { Some(code) }
}

pub(crate) fn lesser(a: Option<u32>, b: Option<u32>) -> Option<u32>
    ensures { result ≡ lesser a b }
{
    match (a, b) {
        (Some(a), Some(b)) => Some(if b < a { b } else { a }),
        (None, n) | (n, None) => n,
    }
}

pub(crate) fn least_of<T: Naming>(items: &[T]) -> Option<u32>
    ensures { result ≡ least T.unnamed items.now }
{
    let mut found = None;
    for item in items {
        found = lesser(found, item.unnamed());
    }
    found
}

pub(crate) fn least_in_log(log: &PVec<Entry>) -> Option<u32>
    ensures { result ≡ least unnamed_in_entry log.now }
{
    let mut found = None;
    for entry in log {
        found = lesser(found, entry.unnamed());
    }
    found
}

pub(crate) fn least_in_account(account: &Account) -> Option<u32>
    ensures { result ≡ unnamed_in_account account.now }
{
    lesser(least_of(account.handled()), least_in_queue(account))
}

fn least_in_queue(account: &Account) -> Option<u32>
    ensures { result ≡ least unnamed_in_queued account.now.queue }
{
    let mut found = None;
    for i in 0..account.waiting() {
        let Some(queued) = account.waiting_at(i) else {
            unreachable!()
        };
        found = lesser(found, queued.unnamed());
    }
    found
}
