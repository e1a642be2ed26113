//! What the types of entries and accounts say, stated of the whole. These calls change nothing.
ghost use Rattle.std.specs.Prelude.{◌≡◌, true};
ghost use Rattle.std.specs.List.{list_all};
ghost use Rattle.ref_audit.specs.OwnDump.{is_small_account, is_small_action, is_small_args, is_small_atom, is_small_carries, is_small_carry, is_small_done, is_small_entry, is_small_handled, is_small_op, is_small_queued, is_small_sent, is_small_transaction};

use ref_agents::{Account, Handled};
use ref_fun::{Action, Args, Carries, Carry};
use ref_log::{Done, Entry, Op, Sent, Transaction};
use ref_pvec::PVec;

pub(crate) fn tell_args(args: &Args)
    ensures { is_small_args args.now ≡ true }
{
    let _values = args.as_slice();
}

fn tell_op(op: &Op)
    ensures { is_small_op op.now ≡ true }
{
    match op {
        Op::Alter(_, args) | Op::Commute(_, args) => tell_args(args),
        Op::Set(_) | Op::Ensure => {}
    }
}

fn tell_done(done: &Done)
    ensures { is_small_done done.now ≡ true }
{
    let _r = done.r;
    tell_op(&done.op);
}

fn tell_dones(dones: &[Done])
    ensures { list_all is_small_done dones.now ≡ true }
{
    for done in dones {
        tell_done(done);
    }
}

fn tell_carry(carry: &Carry)
    ensures { is_small_carry carry.now ≡ true }
{
    let _g = carry.g;
    tell_args(&carry.args);
}

fn tell_each(carries: &[Carry])
    ensures { list_all is_small_carry carries.now ≡ true }
{
    for carry in carries {
        tell_carry(carry);
    }
}

fn tell_carries(carries: &Carries)
    ensures { is_small_carries carries.now ≡ true }
{
    tell_each(carries.as_slice());
}

fn tell_action(action: &Action)
    ensures { is_small_action action.now ≡ true }
{
    tell_args(&action.args);
    tell_carries(&action.carries);
}

fn tell_sent(sent: &Sent)
    ensures { is_small_sent sent.now ≡ true }
{
    let _agent = sent.agent;
    tell_action(&sent.action);
}

fn tell_sends(sends: &[Sent])
    ensures { list_all is_small_sent sends.now ≡ true }
{
    for sent in sends {
        tell_sent(sent);
    }
}

fn tell_transaction(transaction: &Transaction)
    ensures { is_small_transaction transaction.now ≡ true }
{
    let _worker = transaction.stamp.worker;
    let _step = transaction.stamp.step;
    tell_dones(transaction.dones.as_slice());
    tell_sends(transaction.sends.as_slice());
}

fn tell_atom(a: u32, op: &Op)
    ensures { is_small_atom a op.now ≡ true }
{
    tell_op(op);
}

fn tell_entry(entry: &Entry)
    ensures { is_small_entry entry.now ≡ true }
{
    match entry {
        Entry::Trans(transaction) => tell_transaction(transaction),
        Entry::Atom(a, op, _) => tell_atom(*a, op),
        Entry::MadeRef(_) | Entry::MadeAtom(_) => {}
    }
}

pub(crate) fn tell_entries(entries: &PVec<Entry>)
    ensures { list_all is_small_entry entries.now ≡ true }
{
    for entry in entries {
        tell_entry(entry);
    }
}

fn tell_handled(handled: &[Handled])
    ensures { list_all is_small_handled handled.now ≡ true }
{
    for h in handled {
        tell_action(&h.action);
    }
}

fn tell_queue(account: &Account)
    ensures { list_all is_small_queued account.now.queue ≡ true }
{
    for i in 0..account.waiting() {
        let Some(queued) = account.waiting_at(i) else {
            unreachable!()
        };
        tell_action(&queued.action);
    }
}

pub(crate) fn tell_account(account: &Account)
    ensures { is_small_account account.now ≡ true }
{
    tell_handled(account.handled());
    tell_queue(account);
}
