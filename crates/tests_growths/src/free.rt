//! The calls that take no memory, made while every request for memory is refused.
ghost use Rattle.std.specs.Prelude.{◌≡◌, ◌≤◌, length};
ghost use Rattle.ref_fun.specs.Core.{core_accepts};
ghost use Rattle.ref_fun.specs.Limits.{most_arguments};
ghost use Rattle.ref_play.specs.Sims.{HaveSameBooks};

use crate::calls::Call;
use crate::refusing::{EACH, refuse, was_refused};
use crate::worlds::{G, H, Use, WATCHED, opened};
use ref_agents::{ErrorMode, Job};
use ref_fun::codes::{AT_LEAST, PLUS};
use ref_fun::{
    Core, CoreFunctions, FunTable, Functions, Pred, Rule, StoredPred, code_of, core_test, name_of,
};
use ref_log::Who;
use ref_play::Sim;
use ref_pmap::PMap;
use ref_pvec::PVec;
use ref_shared::Shared;
use ref_value::{Node, Value};
use ref_world::{Booked, Books, Share, World};
use std::alloc::Global;
use std::sync::Wait;
use tests_shared::worlds::{Stop, at_least, done, one_arg, value};

// Ends a group of calls, of which each was right or not, and prints how many there are.
fn end<R: Input + Print>(rt: &R, group: &str, calls: &[bool]) -> Result<(), Stop> {
    let (was_hit, count) = (was_refused(rt), calls.len());
    println!(rt; "{group} | {count}").map_err(|_| Stop::Late)?;
    if was_hit || calls.contains(&false) {
        return Err(Stop::Refused);
    }
    Ok(())
}

fn of_data(funs: &FunTable, args: &[Value], map: &PMap<u64>, list: &PVec<u64>) -> [bool; 19] {
    let [value] = args else {
        return [false; 19];
    };
    let Node::Vector(items) = value.node() else {
        return [false; 19];
    };
    [
        Value::of(Node::Int(7)).is_ok(),
        value.depth() == 2,
        value.share().is_ok(),
        items.len() == 3,
        items.get(0).is_some(),
        items.share().is_ok(),
        code_of(b"+") == Some(PLUS),
        name_of(PLUS) == Some("+"),
        Functions::<Core>::test(funs, AT_LEAST, value, args) == Some(false),
        Functions::<Core>::has_pred(funs, AT_LEAST),
        !Functions::<Core>::has_fun(funs, PLUS),
        map.len() == 2,
        map.get(5).is_some(),
        map.share().is_ok(),
        PMap::<u64>::empty().is_empty(),
        list.len() == 100,
        list.get(50).is_some(),
        list.share().is_ok(),
        PVec::<u64>::empty().is_empty(),
    ]
}

fn call_on_data<R: Input + Print>(rt: &R, alloc: Global) -> Result<(), Stop> {
    let mut funs = FunTable::empty(alloc);
    let run: Pred = Box::new(
        alloc,
        |state: &Value, args: &[Value]| -> bool
            requires { length args.now ≤ most_arguments }
            ensures { result ≡ core_accepts AT_LEAST args.now state.now }
        { core_test(AT_LEAST, state, args) },
    )?;
    done(funs.add_pred(StoredPred::new(AT_LEAST, run)))?;
    let args = one_arg(alloc, "[1 2 [3]]")?;
    let map = PMap::empty().with(alloc, 5, 50)?.with(alloc, 70_000, 7)?;
    let mut list = PVec::empty();
    for item in 0..100 {
        list.push(alloc, item)?;
    }
    refuse(rt, EACH);
    end(rt, "data", &of_data(&funs, args.as_slice(), &map, &list))
}

fn of_world(alloc: Global, world: &World<Core>, rule: &Rule) -> [bool; 18] {
    let Ok(tx) = world.begin(alloc) else {
        return [false; 18];
    };
    [
        tx.deref(0).is_ok(),
        tx.read_point() > 0,
        tx.sends().is_empty(),
        tx.require(&CoreFunctions, 0, rule).is_ok(),
        tx.began().len() == 4,
        tx.began().share().is_ok(),
        tx.began().get(0).is_some(),
        tx.began().last_change(0).is_some(),
        world.account(H).is_some(),
        world.error_of(H).is_some(),
        world.rule_of(Who::Agent(G)).is_some(),
        world.base().point == 0,
        world.point() == world.log().len() as u64,
        world.commits() == 2,
        world.added() == 2,
        world.taken() == 0,
        world.served_by(&CoreFunctions),
        matches!(world.view().map(|view| view.share()), Ok(Ok(_))),
    ]
}

fn of_reference(world: &mut World<Core>, who: Who, key: &Value) -> [bool; 3]
    ensures books { HaveSameBooks world.old world.new }
{
    [
        world.value_of(who).is_some(),
        world.remove_watch(who, key),
        world.set_validator(&CoreFunctions, who, None).is_ok(),
    ]
}

fn take(world: &mut World<Core>) -> Option<Job>
    ensures books { HaveSameBooks world.old world.new }
{
    match world.take() {
        Ok(job) => job,
        Err(_) => None,
    }
}

fn sets_mode(world: &mut World<Core>) -> bool
    ensures books { HaveSameBooks world.old world.new }
{
    world.set_error_mode(G, ErrorMode::Continue).is_ok()
}

fn folds(world: &mut World<Core>) -> bool
    ensures books { HaveSameBooks world.old world.new }
{
    matches!(world.fold_agent(G), Ok(true))
}

fn restarts(world: &mut World<Core>, zero: Value) -> bool
    ensures books { HaveSameBooks world.old world.new }
{
    world.restart(&CoreFunctions, H, zero, false).is_ok()
}

// Puts a job back, and forsakes it when it is taken again.
fn puts_back(world: &mut World<Core>, job: Job) -> bool
    ensures books { HaveSameBooks world.old world.new }
{
    let (is_back, job) = match world.put_back(job) {
        Ok(()) => (true, take(world)),
        Err(job) => (false, Some(job)),
    };
    if let Some(job) = job {
        job.forsake();
    }
    is_back
}

// Takes a job, runs it and puts it back; takes it again and forsakes it. The sends of the commit at point 2 are held.
fn of_agents(alloc: Global, world: &mut World<Core>, zero: Value) -> [bool; 6]
    ensures books { HaveSameBooks world.old world.new }
{
    let Some(job) = take(world) else {
        return [false; 6];
    };
    let job = match job.run::<Core, _>(alloc, &CoreFunctions) {
        Ok(ran) => ran.into_job(),
        Err((job, _)) => job,
    };
    [
        puts_back(world, job),
        sets_mode(world),
        !world.release_carried(G),
        world.release(2),
        folds(world),
        restarts(world, zero),
    ]
}

fn of_share<L: Books>(share: &mut Share<L>) -> [bool; 3] {
    let Some(part) = share.split(5) else {
        return [false; 3];
    };
    let is_split = !share.is_whole();
    let is_joined = share.join(part).is_ok();
    share.forget(0);
    [is_split, is_joined, share.is_whole()]
}

// The failed agent was restarted before.
fn of_shared<R: Wait, L: Books>(
    rt: &R,
    alloc: Global,
    shared: &Shared<Core, L>,
    share: &mut Share<L>,
) -> [bool; 4] {
    shared.close(rt);
    let mut front = share.front().again();
    [
        shared.begin(rt, alloc, share).is_ok(),
        shared.value_of(rt, &mut front, Who::Ref(0)).is_ok(),
        shared.view(rt).is_ok(),
        shared.error_of(rt, H).is_none(),
    ]
}

fn call_on_world<R: Input + Print, L: Books>(
    rt: &R,
    alloc: Global,
    booked: &mut Booked<Core, L>,
    share: &mut Share<L>,
) -> Result<(), Stop> {
    let (key, rule) = (value(alloc, ":k")?, at_least(alloc, "0")?);
    let zero = value(alloc, "0")?;
    refuse(rt, EACH);
    end(rt, "worlds", &of_world(alloc, &booked.world, &rule))?;
    for who in WATCHED {
        refuse(rt, EACH);
        end(
            rt,
            "references",
            &of_reference(&mut booked.world, *who, &key),
        )?;
    }
    refuse(rt, EACH);
    end(rt, "shares", &of_share(share))?;
    refuse(rt, EACH);
    end(rt, "agents", &of_agents(alloc, &mut booked.world, zero))
}

#[derive(Drop)]
struct Calls;

impl<R: AllocGlobal + Input + Print + Wait> Use<R> for Calls {
    type Out = Result<(), Stop>;

    fn used<L: Books>(self, rt: &R, sim: Sim<Core, L>) -> Self::Out {
        let (alloc, Calls) = (rt.alloc(), self);
        refuse(rt, EACH);
        let (mut booked, mut share) = sim.end();
        let ended = end(rt, "end of a play", &[true]);
        let called = call_on_world(rt, alloc, &mut booked, &mut share);
        refuse(rt, EACH);
        let shared = Shared::new(booked);
        let closed = end(rt, "shared", &of_shared(rt, alloc, &shared, &mut share));
        ended.and(called).and(closed)
    }
}

/// Makes all calls that take no memory, and prints how many there are of each group.
pub(crate) fn try_all<R: AllocGlobal + Input + Print + Wait>(rt: &R) -> Result<(), Stop> {
    println!(rt; "with every request refused | calls").map_err(|_| Stop::Late)?;
    call_on_data(rt, rt.alloc())?;
    opened(rt, 1, Call::End, Calls)?
}
