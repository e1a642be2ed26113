//! The store of refs.
ghost use Rattle.ref_log.specs.Told.{Tells};
ghost use Rattle.std.specs.Prelude.{◌≡◌, ◌≤◌, ◌<◌, ◌↔◌, [], IsTrue, true, false, not, None, IfOk, IfErr, OnErr, OnOk, length, option_copied, slice_get};
ghost use Rattle.ref_fun.specs.Integers.{int_of};
ghost use Rattle.ref_log.specs.Guards.{AreAccepted, are_known, keys_at, rule_at, rule_refusal, with_rule, with_watch, without_watch};
ghost use Rattle.ref_log.specs.Tally.{IsTally, tally_value};
ghost use Rattle.ref_log.specs.Watches.{has_key};
ghost use Rattle.ref_log.specs.declared.faults.WatchFault.TheVariants as watches;
ghost use Rattle.ref_refs.specs.Seen.{changed_at, are_unchanged_since, with_guards};
ghost use Rattle.ref_log.specs.Limits.{most_references};

use crate::checking::are_unchanged_since;
use crate::current::Refs;
use ref_fun::{Functions, Meaning, Rule};
use ref_log::{Guards, RuleFault, WatchFault};
use ref_tx::{Snapshot, Tx};
use ref_value::{Node, Value};
use std::alloc::{AllocError, Global};
use std::marker::{Model, PhantomData};

/// The values of refs at one point. Contracts see the values by number, the point of each ref's last change, the number of
/// the tally, and the rule and the watches of each ref.
///
/// It is always so that each rule accepts the value of its ref, and that the tally is an integer.
#[derive(Drop)]
pub struct RefStore<M: Meaning> {
    pub(crate) refs: Refs,
    pub(crate) tally: Option<u32>,
    pub(crate) guards: Guards,
    of: PhantomData<M>,
}

impl<M: Meaning> Model for RefStore<M> {
    ghost use Rattle.std.specs.Prelude.{◌≡◌, ◌≤◌, length};
    ghost use Rattle.std.specs.Coded.{codes};
    ghost use Rattle.ref_value.specs.Code.{edn_code};
    ghost use Rattle.ref_log.specs.Guards.{AreAccepted};
    ghost use Rattle.ref_log.specs.Limits.{most_references};
    ghost use Rattle.ref_log.specs.Tally.{IsTally, tally_value};
    ghost use Rattle.ref_refs.specs.Seen.{RefsSeen};

    ghost Value = { RefsSeen };

    ghost coded = { Prim.hlevel (codes, edn_code) };

    ghost view = { λ a. record { values = a.refs.values; lasts = a.refs.lasts; tally = a.tally; guards = a.guards } };

    ghost invariant = { λ a. (length a.refs.lasts ≡ length a.refs.values) × (length a.guards ≡ length a.refs.values)
        × (length a.refs.values ≤ most_references) × AreAccepted M.accepts a.guards a.refs.values
        × IsTally a.tally a.refs.values (tally_value a.tally a.refs.values) };
}

impl<M: Meaning> RefStore<M> {
    /// A store without refs. It takes no memory.
    pub fn empty(alloc: Global) -> RefStore<M>
        ensures { result ≡ record { values = []; lasts = []; tally = None; guards = [] } }
    {
        RefStore {
            refs: Refs::of(Snapshot::empty()),
            tally: None,
            guards: Guards::empty(alloc),
            of: PhantomData,
        }
    }

    /// How many refs there are, at most 2^20.
    pub fn len(&self) -> usize
        ensures value { result ≡ length self.now.values }
        ensures bound { result ≤ most_references }
        // Each ref has a last change, a rule or none, and its watches.
        ensures lasts { length self.now.lasts ≡ length self.now.values }
        ensures guards { length self.now.guards ≡ length self.now.values }
    {
        self.refs.len()
    }

    /// Whether there are no refs.
    pub fn is_empty(&self) -> bool
        ensures { IsTrue result ↔ (self.now.values ≡ []) }
    {
        self.len() == 0
    }

    /// The value of a ref now, if there is such a ref. It takes no memory.
    pub fn value_of(&self, r: u32) -> Option<&Value>
        ensures { option_copied result ≡ slice_get self.now.values r }
    {
        self.refs.get(r)
    }

    /// The number of the tally, if there is one.
    pub fn tally(&self) -> Option<u32>
        ensures { result ≡ self.now.tally }
    {
        self.tally
    }

    /// The tally's value, and 0 where there is no tally.
    pub fn tally_value(&self) -> i64
        ensures value { result ≡ tally_value self.now.tally self.now.values }
        // The tally is an integer.
        ensures tally { IsTally self.now.tally self.now.values result }
    {
        match self.tally {
            Some(t) => match self.value_of(t) {
                Some(value) => int_of(value),
                None => 0,
            },
            None => 0,
        }
    }

    /// The point of a ref's last change: 0 where it was declared at the start and never changed, or isn't there.
    pub fn changed_at(&self, r: u32) -> u64
        ensures { result ≡ changed_at self.now.lasts r }
    {
        match self.refs.last_change(r) {
            Some(last) => last,
            None => 0,
        }
    }

    /// Whether no ref has changed after this point. Linear in the number of refs.
    pub fn are_unchanged_since(&self, point: u64) -> bool
        ensures { result ≡ are_unchanged_since self.now.lasts point }
    {
        are_unchanged_since(&self.refs, point)
    }

    /// The rule of a ref, if it has one. It takes no memory.
    pub fn rule_of(&self, r: u32) -> Option<&Rule>
        ensures rule { option_copied result ≡ rule_at self.now.guards r }
        // Each rule accepts the value of its ref.
        ensures accepted { AreAccepted M.accepts self.now.guards self.now.values }
    {
        self.guards.rule_of(r)
    }

    /// Whether a table has the predicate of each rule here. Linear in the number of refs. It takes no memory.
    pub fn are_rules_known<F: Functions<M>>(&self, funs: &F) -> bool
        ensures { result ≡ are_known (F.knows funs.now).preds self.now.guards }
    {
        self.guards.are_known(funs)
    }

    /// Gives a ref this rule, or none, instead of the one that it had. The rule has to accept the value of the ref now.
    /// It takes no memory. A refused call changes nothing.
    pub fn set_validator<F: Functions<M>>(
        &mut self,
        funs: &F,
        r: u32,
        rule: Option<Rule>,
    ) -> Result<(), RuleFault>
        ensures refused { Tells (rule_refusal M.accepts (F.knows funs.now).preds
            (slice_get self.old.values r) rule) result }
        ensures sets { OnOk result (self.new ≡ with_guards self.old (with_rule self.old.guards r rule)) }
        ensures err { OnErr result (self.new ≡ self.old) }
    {
        let value = self.refs.get(r);
        self.guards.set_rule(funs, r, value, rule)
    }

    /// Adds a watch to a ref, behind its others, and answers whether the key is new; a key that is there stays where it is.
    /// Linear in the number of the ref's watches. A refused call changes nothing.
    pub fn add_watch(&mut self, r: u32, key: Value) -> Result<bool, WatchFault>
        ensures new { IfOk result (λ is_new. is_new ≡ not (has_key (keys_at self.old.guards r) key)) }
        ensures adds { OnOk result (self.new ≡ with_guards self.old (with_watch self.old.guards r key)) }
        ensures here { OnOk result (r < length self.old.values) }
        ensures fault { IfErr result (λ f. f ≡ watches.NoSuch ↔ (r < length self.old.values → ⊥)) }
        ensures memory { IfErr result (λ f. f ≡ watches.Memory → has_key (keys_at self.old.guards r) key ≡ false) }
        ensures err { OnErr result (self.new ≡ self.old) }
    {
        self.guards.add_watch(r, key)
    }

    /// Takes a watch away from a ref, and answers whether it was there, also false where the ref isn't. It takes no memory.
    /// Linear in the number of the ref's watches.
    pub fn remove_watch(&mut self, r: u32, key: &Value) -> bool
        ensures was { result ≡ has_key (keys_at self.old.guards r) key.now }
        ensures removes { self.new ≡ with_guards self.old (without_watch self.old.guards r key.now) }
    {
        self.guards.remove_watch(r, key)
    }

    /// Begins a transaction, which reads the values as they are now. The point is the present one: no ref has changed after
    /// it; there are so many agents. It takes no memory, and as long whatever the number of refs; but where memory was refused to put
    /// changes of earlier commits into their places, it takes as much as that takes.
    pub fn begin(&self, alloc: Global, point: u64, agents: usize) -> Result<Tx<M>, AllocError>
        requires { are_unchanged_since self.now.lasts point ≡ true }
        ensures { IfOk result (λ tx. tx
            ≡ record {
              read_point = point;
              began = self.now.values;
              dones = [];
              sends = [];
              tally = self.now.tally;
              agents = agents;
            }) }
    {
        let refs = self.snapshot(alloc)?;
        Ok(Tx::start(alloc, point, refs, self.tally, agents))
    }

    /// The refs as they are now. It costs what [`RefStore::begin`] costs.
    pub fn snapshot(&self, alloc: Global) -> Result<Snapshot, AllocError>
        ensures values { IfOk result (λ refs. refs.values ≡ self.now.values) }
        ensures lasts { IfOk result (λ refs. refs.lasts ≡ self.now.lasts) }
    {
        self.refs.share(alloc)
    }
}

// The integer that a value is. It is 0 of all else.
fn int_of(value: &Value) -> i64
    ensures { result ≡ int_of value.now }
{
    match value.node() {
        Node::Int(n) => *n,
        _ => 0,
    }
}
