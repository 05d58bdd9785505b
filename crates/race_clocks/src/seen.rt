//! What the objects of a run have come to by the items so far, and through which channels the next one hands on.
ghost use Rattle.std.specs.Prelude.{◌≡◌, ◌==◌, ◌≤◌, ◌++◌, ℕ, Some, true, not, cond, is_some, OnOk, IfOk};
ghost use Rattle.race_clocks.specs.Handing.{AreOf, cond_at, pool_at, map_at};
ghost use Rattle.race_clocks.specs.Passing.{if_so, started_given, plain_given, plain_taken, placed_taken, cond_behind, cond_given, pool_behind, pool_given, pool_taken, map_behind, map_given, new_seen, IsPassed, AreTold};
ghost use Rattle.race_clocks.specs.Places.{at};
ghost use Rattle.race_clocks.specs.declared.channel.Channel.TheVariants as channels;

use crate::by_place::ByPlace;
use crate::channel::Channel;
use crate::conds::enter_cond;
use crate::deeds::{
    cond_event, ends_function, enters_atomic, finds_atomic, is_kept, is_writers_call,
    knows_function, leaves_cond, locks_mutex, locks_rw_mutex, lowers_count, passes_count,
    pool_event, started_by, unlocks_as_reader, unlocks_as_writer, unlocks_mutex,
};
use crate::maps::{enter_map, push_found, push_pairs};
use crate::pools::{NumberedPool, enter_pool};
use script_calls::{Call, Operation, Reply};
use std::alloc::{AllocError, Global};
use step_runner::{Deed, Item};
use sync_types::{ByName, Seq};
use wait_cores::NotifyCore;
use workload::Workload;

/// What conds, pools and maps have come to, and which workers have made an item.
#[derive(Drop)]
pub(crate) struct Seen {
    conds: ByPlace<NotifyCore>,
    pools: ByPlace<NumberedPool>,
    maps: ByPlace<ByName<u64>>,
    callers: ByPlace<bool>,
}

/// Adds a channel where a test holds.
fn push_if(list: &mut Seq<Channel>, test: bool, channel: Channel) -> Result<(), AllocError>
    ensures { OnOk result (list.new ≡ if_so test channel list.old) }
{
    if test { list.push(channel) } else { Ok(()) }
}

/// Tells of a worker that is started.
fn push_started(list: &mut Seq<Channel>, started: Option<u32>) -> Result<(), AllocError>
    ensures { OnOk result (list.new ≡ started_given started list.old) }
{
    match started {
        Some(worker) => list.push(Channel::Start(worker)),
        None => Ok(()),
    }
}

/// Tells through which channels an item hands on that the item itself tells.
fn push_plain_gives(list: &mut Seq<Channel>, object: usize, deed: &Deed) -> Result<(), AllocError>
    ensures { OnOk result (list.new ≡ plain_given object deed.now list.old) }
{
    push_if(list, unlocks_mutex(deed), Channel::MutexUnlock(object))?;
    push_if(list, unlocks_as_writer(deed), Channel::WriterUnlock(object))?;
    push_if(list, unlocks_as_reader(deed), Channel::ReaderUnlock(object))?;
    push_if(list, lowers_count(deed), Channel::Lowering(object))?;
    push_if(list, ends_function(deed), Channel::FunctionEnd(object))?;
    push_if(list, enters_atomic(deed), Channel::Atomic(object))?;
    push_started(list, started_by(deed))
}

/// Tells from which channels an item takes in that the item itself tells, but for keys.
fn push_plain_takes(
    list: &mut Seq<Channel>,
    object: usize,
    caller: u32,
    deed: &Deed,
    call: &Option<Call>,
) -> Result<(), AllocError>
    ensures { OnOk result (list.new ≡ plain_taken object caller deed.now call.now list.old) }
{
    push_if(list, locks_mutex(deed), Channel::MutexUnlock(object))?;
    push_if(list, locks_rw_mutex(deed), Channel::WriterUnlock(object))?;
    push_if(
        list,
        locks_rw_mutex(deed) && is_writers_call(call),
        Channel::ReaderUnlock(object),
    )?;
    push_if(
        list,
        leaves_cond(deed),
        Channel::Notice {
            cond: object,
            worker: caller,
        },
    )?;
    push_if(list, passes_count(deed), Channel::Lowering(object))?;
    push_if(list, knows_function(deed), Channel::FunctionEnd(object))?;
    push_if(list, finds_atomic(deed), Channel::Atomic(object))
}

/// Tells of the keys of a map that an item finds.
fn push_keys(
    alloc: Global,
    list: &mut Seq<Channel>,
    object: usize,
    deed: &Deed,
) -> Result<(), AllocError>
    ensures { OnOk result (list.new ≡ list.old ++ placed_taken object deed.now) }
{
    match deed {
        Deed::Placed(Operation::Map(call), _) => push_found(alloc, list, object, call),
        Deed::Placed(Operation::Range, Reply::Pairs(pairs)) => {
            push_pairs(alloc, list, object, pairs.as_slice())
        }
        _ => Ok(()),
    }
}

/// Makes the event of a cond that an item is, if it is one, and tells whom it notifies.
fn enter_cond_of(
    alloc: Global,
    conds: &mut ByPlace<NotifyCore>,
    workers: u32,
    item: &Item,
    gives: &mut Seq<Channel>,
) -> Result<(), AllocError>
    requires some { 1 ≤ workers }
    requires few { workers ≤ 64 }
    requires are { AreOf workers conds.old }
    ensures are { OnOk result (AreOf workers conds.new) }
    ensures conds { OnOk result ((place : ℕ) → cond_at workers conds.new place ≡ cond_behind item.now place (cond_at workers conds.old place)) }
    ensures gives { OnOk result (gives.new ≡ gives.old ++ cond_given workers item.now (cond_at workers conds.old item.now.object)) }
{
    match cond_event(&item.deed) {
        Some(event) => enter_cond(
            alloc,
            conds,
            workers,
            item.object,
            item.caller,
            event,
            gives,
        ),
        None => Ok(()),
    }
}

/// Makes the event of a pool that an item is, if it is one, and tells of a put that is kept, and of whose item is taken.
fn enter_pool_of(
    alloc: Global,
    workload: &Workload,
    pools: &mut ByPlace<NumberedPool>,
    item: &Item,
    takes: &mut Seq<Channel>,
    gives: &mut Seq<Channel>,
) -> Result<(), AllocError>
    requires some { 1 ≤ workload.now.workers }
    requires few { workload.now.workers ≤ 64 }
    ensures pools { OnOk result ((place : ℕ) → pool_at workload.now pools.new place ≡ pool_behind item.now place (pool_at workload.now pools.old place)) }
    ensures gives { OnOk result (gives.new ≡ gives.old ++ pool_given item.now (pool_at workload.now pools.old item.now.object)) }
    ensures takes { OnOk result (takes.new ≡ takes.old ++ pool_taken item.now (pool_at workload.now pools.old item.now.object)) }
{
    let kept = is_kept(&item.deed);
    match pool_event(&item.deed) {
        Some(event) => enter_pool(
            alloc,
            workload,
            pools,
            item.object,
            item.caller,
            event,
            kept,
            takes,
            gives,
        ),
        None => Ok(()),
    }
}

/// Makes the call of a map that an item is, if it is one, and tells of the keys on which it is an entry.
fn enter_map_of(
    alloc: Global,
    maps: &mut ByPlace<ByName<u64>>,
    item: &Item,
    gives: &mut Seq<Channel>,
) -> Result<(), AllocError>
    ensures maps { OnOk result ((place : ℕ) → map_at maps.new place ≡ map_behind item.now place (map_at maps.old place)) }
    ensures gives { OnOk result (gives.new ≡ gives.old ++ map_given item.now (map_at maps.old item.now.object)) }
{
    match &item.deed {
        Deed::Placed(Operation::Map(call), _) => {
            enter_map(alloc, maps, item.object, call, gives)
        }
        _ => Ok(()),
    }
}

/// Tells of the start of a worker where this is its first item.
fn push_first(
    callers: &mut ByPlace<bool>,
    caller: u32,
    takes: &mut Seq<Channel>,
) -> Result<(), AllocError>
    ensures takes { OnOk result (takes.new ≡ if_so (not (is_some (at callers.old caller))) (channels.Start caller) takes.old) }
    ensures callers { OnOk result ((other : ℕ) → at callers.new other ≡ cond (caller == other) (Some true) (at callers.old other)) }
{
    let is_first = callers.get(caller as usize).is_none();
    push_if(takes, is_first, Channel::Start(caller))?;
    callers.put(caller as usize, true)
}

/// The channels of a turn: those from which it takes in, and those through which it hands on.
#[derive(Drop)]
pub(crate) struct Passing {
    pub(crate) takes: Seq<Channel>,
    pub(crate) gives: Seq<Channel>,
}

impl Seen {
    /// No item was made.
    pub(crate) fn new(alloc: Global) -> Self
        ensures { result ≡ new_seen }
    {
        Seen {
            conds: ByPlace::new(alloc),
            pools: ByPlace::new(alloc),
            maps: ByPlace::new(alloc),
            callers: ByPlace::new(alloc),
        }
    }

    /// Goes on by an item of a turn of this call, and tells of its channels.
    fn pass(
        &mut self,
        alloc: Global,
        workload: &Workload,
        item: &Item,
        call: &Option<Call>,
        passing: &mut Passing,
    ) -> Result<(), AllocError>
        requires { AreOf workload.now.workers self.old.conds }
        ensures { OnOk result (IsPassed workload.now item.now call.now self.old passing.old self.new passing.new) }
    {
        let workers = workload.workers();
        push_first(&mut self.callers, item.caller, &mut passing.takes)?;
        push_plain_takes(
            &mut passing.takes,
            item.object,
            item.caller,
            &item.deed,
            call,
        )?;
        push_keys(alloc, &mut passing.takes, item.object, &item.deed)?;
        push_plain_gives(&mut passing.gives, item.object, &item.deed)?;
        enter_cond_of(alloc, &mut self.conds, workers, item, &mut passing.gives)?;
        enter_pool_of(
            alloc,
            workload,
            &mut self.pools,
            item,
            &mut passing.takes,
            &mut passing.gives,
        )?;
        enter_map_of(alloc, &mut self.maps, item, &mut passing.gives)
    }

    /// Goes on by the items of a turn of this call, and tells of their channels.
    pub(crate) fn pass_all(
        &mut self,
        alloc: Global,
        workload: &Workload,
        items: &[Item],
        call: &Option<Call>,
    ) -> Result<Passing, AllocError>
        requires { AreOf workload.now.workers self.old.conds }
        ensures are { OnOk result (AreOf workload.now.workers self.new.conds) }
        ensures told { IfOk result (λ passing. AreTold workload.now items.now call.now self.old self.new passing) }
    {
        let mut passing = Passing {
            takes: Seq::new(alloc),
            gives: Seq::new(alloc),
        };
        for item in items {
            self.pass(alloc, workload, item, call, &mut passing)?;
        }
        Ok(passing)
    }
}
