//! What an actor does with its open transaction.
ghost use Rattle.std.specs.Prelude.{◌≡◌, []};
ghost use Rattle.ref_fun.specs.Calls.{Known};
ghost use Rattle.ref_log.specs.declared.operations.Op.TheVariants as ops;
ghost use Rattle.ref_play.specs.Present.{Aborts, Begins, Derefs, Operates, ReadsPoint, Requires, SendsInTx};
ghost use Rattle.ref_play.specs.Sims.{SimSeen, present};
ghost use Rattle.ref_play.specs.declared.events.Reply.TheVariants as replies;

use crate::actors::Actors;
use crate::events::Reply;
use ref_fun::{Action, Args, Functions, Meaning, Rule};
use ref_tx::TxFault;
use ref_value::Value;
use ref_world::World;
use std::alloc::Global;

// Begins a transaction, where the actor has none open.
pub(crate) fn begin<M: Meaning>(
    alloc: Global,
    world: &World<M>,
    actors: &mut Actors<M>,
    actor: u32,
) -> Reply
    ensures { (s : SimSeen) → Begins (present (record s { world = world.now; slots = actors.old })) actor result []
        (present (record s { world = world.now; slots = actors.new })) }
{
    if let Some(_) = actors.tx(actor) {
        return Reply::Busy;
    }
    let tx = match world.begin(alloc) {
        Ok(tx) => tx,
        Err(fault) => return Reply::Begin(Err(fault)),
    };
    let point = tx.read_point();
    if let Err(fault) = actors.open(actor, tx) {
        return Reply::Begin(Err(fault));
    }
    Reply::Begin(Ok(point))
}

// The in-transaction value of a ref.
pub(crate) fn deref<M: Meaning>(actors: &Actors<M>, actor: u32, r: u32) -> Reply
    ensures { (s : SimSeen) → Derefs M.means (present (record s { slots = actors.now })) actor r result []
        (present (record s { slots = actors.now })) }
{
    let Some(tx) = actors.tx(actor) else {
        return Reply::NoTx;
    };
    let value = match tx.deref(r) {
        Ok(value) => value,
        Err(fault) => return Reply::Deref(Err(fault)),
    };
    match value.share() {
        Ok(value) => Reply::Deref(Ok(value)),
        Err(_) => Reply::Deref(Err(TxFault::Memory)),
    }
}

// Sets a ref.
pub(crate) fn ref_set<M: Meaning>(
    alloc: Global,
    actors: &mut Actors<M>,
    actor: u32,
    r: u32,
    value: &Value,
) -> Reply
    ensures { (s : SimSeen) (knows : Known) → Operates M.means knows (present (record s { slots = actors.old })) actor
        r (ops.Set value.now) replies.RefSet result []
        (present (record s { slots = actors.new })) }
{
    let Ok(value) = value.share() else {
        return match actors.tx(actor) {
            Some(_) => Reply::RefSet(Err(TxFault::Memory)),
            None => Reply::NoTx,
        };
    };
    let Some(mut tx) = actors.take(actor) else {
        return Reply::NoTx;
    };
    let told = tx.ref_set(alloc, r, value);
    actors.put(actor, tx);
    Reply::RefSet(told)
}

// Sets a ref to what a function makes of it.
pub(crate) fn alter<M: Meaning, F: Functions<M>>(
    alloc: Global,
    funs: &F,
    actors: &mut Actors<M>,
    actor: u32,
    r: u32,
    code: u32,
    args: &Args,
) -> Reply
    ensures { (s : SimSeen) → Operates M.means (F.knows funs.now) (present (record s { slots = actors.old })) actor r
        (ops.Alter code args.now) replies.Alter result []
        (present (record s { slots = actors.new })) }
{
    let Ok(args) = args.share() else {
        return match actors.tx(actor) {
            Some(_) => Reply::Alter(Err(TxFault::Memory)),
            None => Reply::NoTx,
        };
    };
    let Some(mut tx) = actors.take(actor) else {
        return Reply::NoTx;
    };
    let told = tx.alter(alloc, funs, r, code, args);
    actors.put(actor, tx);
    Reply::Alter(told)
}

// As `alter`, and once more at the commit.
pub(crate) fn commute<M: Meaning, F: Functions<M>>(
    alloc: Global,
    funs: &F,
    actors: &mut Actors<M>,
    actor: u32,
    r: u32,
    code: u32,
    args: &Args,
) -> Reply
    ensures { (s : SimSeen) → Operates M.means (F.knows funs.now) (present (record s { slots = actors.old })) actor r
        (ops.Commute code args.now) replies.Commute result []
        (present (record s { slots = actors.new })) }
{
    let Ok(args) = args.share() else {
        return match actors.tx(actor) {
            Some(_) => Reply::Commute(Err(TxFault::Memory)),
            None => Reply::NoTx,
        };
    };
    let Some(mut tx) = actors.take(actor) else {
        return Reply::NoTx;
    };
    let told = tx.commute(alloc, funs, r, code, args);
    actors.put(actor, tx);
    Reply::Commute(told)
}

// Protects a ref.
pub(crate) fn ensure<M: Meaning>(alloc: Global, actors: &mut Actors<M>, actor: u32, r: u32) -> Reply
    ensures { (s : SimSeen) (knows : Known) → Operates M.means knows (present (record s { slots = actors.old })) actor
        r ops.Ensure replies.Ensure result []
        (present (record s { slots = actors.new })) }
{
    let Some(mut tx) = actors.take(actor) else {
        return Reply::NoTx;
    };
    let told = tx.ensure(alloc, r);
    actors.put(actor, tx);
    Reply::Ensure(told)
}

// Adds a send to the actor's transaction.
pub(crate) fn send_in_tx<M: Meaning, F: Functions<M>>(
    alloc: Global,
    funs: &F,
    actors: &mut Actors<M>,
    actor: u32,
    g: u32,
    action: &Action,
) -> Reply
    ensures { (s : SimSeen) → SendsInTx (F.knows funs.now) (present (record s { slots = actors.old })) actor g
        action.now result []
        (present (record s { slots = actors.new })) }
{
    let Ok(action) = action.share() else {
        return match actors.tx(actor) {
            Some(_) => Reply::SendInTx(Err(TxFault::Memory)),
            None => Reply::NoTx,
        };
    };
    let Some(mut tx) = actors.take(actor) else {
        return Reply::NoTx;
    };
    let told = tx.send(alloc, funs, g, action);
    actors.put(actor, tx);
    Reply::SendInTx(told)
}

// Asks whether a rule accepts the in-transaction value of a ref.
pub(crate) fn require<M: Meaning, F: Functions<M>>(
    funs: &F,
    actors: &Actors<M>,
    actor: u32,
    r: u32,
    rule: &Rule,
) -> Reply
    ensures { (s : SimSeen) → Requires M.means M.accepts (F.knows funs.now)
        (present (record s { slots = actors.now })) actor r rule.now result []
        (present (record s { slots = actors.now })) }
{
    let Some(tx) = actors.tx(actor) else {
        return Reply::NoTx;
    };
    match tx.require(funs, r, rule) {
        Ok(()) => Reply::Require(Ok(())),
        Err(fault) => Reply::Require(Err(fault)),
    }
}

// The point at which the actor's transaction began.
pub(crate) fn read_point<M: Meaning>(actors: &Actors<M>, actor: u32) -> Reply
    ensures { (s : SimSeen) → ReadsPoint (present (record s { slots = actors.now })) actor result []
        (present (record s { slots = actors.now })) }
{
    let Some(tx) = actors.tx(actor) else {
        return Reply::NoTx;
    };
    Reply::ReadPoint(tx.read_point())
}

// Drops the actor's transaction.
pub(crate) fn abort<M: Meaning>(actors: &mut Actors<M>, actor: u32) -> Reply
    ensures { (s : SimSeen) → Aborts (present (record s { slots = actors.old })) actor result []
        (present (record s { slots = actors.new })) }
{
    let Some(_tx) = actors.take(actor) else {
        return Reply::NoTx;
    };
    Reply::Abort
}
