//! How the items of a turn are noted.
ghost use Rattle.std.specs.Prelude.{◌≡◌, [], ◌∷◌, ◌++◌, OnOk};
ghost use Rattle.run_record.specs.declared.entered.ObjectEvent.{ObjectEvent};
ghost use Rattle.run_record.specs.declared.entered.ObjectReply.{ObjectReply};
ghost use Rattle.script_calls.specs.declared.call.Operation.TheVariants as operations;
ghost use Rattle.script_calls.specs.declared.call.Reply.TheVariants as replies;
ghost use Rattle.step_runner.specs.Items.{placed_at};
ghost use Rattle.step_runner.specs.Noted.{one_noted, noted};
ghost use Rattle.step_runner.specs.declared.turns.item.Deed.{Deed};
ghost use Rattle.wait_cores.specs.declared.once.OnceEvent.{OnceEvent};
ghost use Rattle.wait_cores.specs.declared.once.OnceReply.{OnceReply};

use crate::copying::{copied_map_call, copied_pairs};
use crate::notes::Notes;
use crate::turns::item::{Deed, Item};
use flight_core::{FlightCore, FlightEvent, FlightReply};
use mutex_core::{MutexCore, MutexEvent, MutexReply};
use pool_core::{PoolCore, PoolEvent, PoolReply};
use protocols::Protocol;
use run_record::{ObjectEvent, ObjectReply};
use rw_core::{RwCore, RwEvent, RwReply};
use script_calls::{Operation, Reply, VarCall, VarReply};
use sema_core::{SemaCore, SemaEvent, SemaReply};
use std::alloc::{AllocError, Global};
use sync_types::{AtomicCall, AtomicReply, MapCall, MapReply, Name, Seq};
use wait_cores::{
    GroupCore, GroupEvent, GroupReply, NotifyCore, NotifyEvent, NotifyReply, OnceCore, OnceEvent,
    OnceReply,
};

/// A kind of object whose events and answers have words of all kinds.
pub(crate) trait Entered: Protocol {
    // The event, and the answer.
    ghost event_word: { Self.Event → ObjectEvent };

    ghost reply_word: { Self.Reply → ObjectReply };

    fn event_word(event: Self::Event) -> ObjectEvent
        ensures { result ≡ event_word event };

    fn reply_word(reply: Self::Reply) -> ObjectReply
        ensures { result ≡ reply_word reply };
}

impl Entered for MutexCore {
    ghost event_word = { ObjectEvent.Mutex };

    ghost reply_word = { ObjectReply.Mutex };

    fn event_word(event: MutexEvent) -> ObjectEvent {
        ObjectEvent::Mutex(event)
    }

    fn reply_word(reply: MutexReply) -> ObjectReply {
        ObjectReply::Mutex(reply)
    }
}

impl Entered for RwCore {
    ghost event_word = { ObjectEvent.RwMutex };

    ghost reply_word = { ObjectReply.RwMutex };

    fn event_word(event: RwEvent) -> ObjectEvent {
        ObjectEvent::RwMutex(event)
    }

    fn reply_word(reply: RwReply) -> ObjectReply {
        ObjectReply::RwMutex(reply)
    }
}

impl Entered for NotifyCore {
    ghost event_word = { ObjectEvent.Cond };

    ghost reply_word = { ObjectReply.Cond };

    fn event_word(event: NotifyEvent) -> ObjectEvent {
        ObjectEvent::Cond(event)
    }

    fn reply_word(reply: NotifyReply) -> ObjectReply {
        ObjectReply::Cond(reply)
    }
}

impl Entered for GroupCore {
    ghost event_word = { ObjectEvent.WaitGroup };

    ghost reply_word = { ObjectReply.WaitGroup };

    fn event_word(event: GroupEvent) -> ObjectEvent {
        ObjectEvent::WaitGroup(event)
    }

    fn reply_word(reply: GroupReply) -> ObjectReply {
        ObjectReply::WaitGroup(reply)
    }
}

impl Entered for SemaCore {
    ghost event_word = { ObjectEvent.Sema };

    ghost reply_word = { ObjectReply.Sema };

    fn event_word(event: SemaEvent) -> ObjectEvent {
        ObjectEvent::Sema(event)
    }

    fn reply_word(reply: SemaReply) -> ObjectReply {
        ObjectReply::Sema(reply)
    }
}

impl Entered for FlightCore {
    ghost event_word = { ObjectEvent.Flight };

    ghost reply_word = { ObjectReply.Flight };

    fn event_word(event: FlightEvent) -> ObjectEvent {
        ObjectEvent::Flight(event)
    }

    fn reply_word(reply: FlightReply) -> ObjectReply {
        ObjectReply::Flight(reply)
    }
}

/// To what the function of a once may come: it tells of which kind the once is.
pub(crate) trait FunctionValue: Copy + Drop {
    ghost event_word: { OnceEvent Self → ObjectEvent };

    ghost reply_word: { OnceReply Self → ObjectReply };

    fn event_word(event: OnceEvent<Self>) -> ObjectEvent
        ensures { result ≡ event_word event };

    fn reply_word(reply: OnceReply<Self>) -> ObjectReply
        ensures { result ≡ reply_word reply };
}

/// Of a once, whose function comes to a sum.
impl FunctionValue for i64 {
    ghost event_word = { ObjectEvent.Once };

    ghost reply_word = { ObjectReply.Once };

    fn event_word(event: OnceEvent<i64>) -> ObjectEvent
        ensures { result ≡ ObjectEvent.Once event }
    {
        ObjectEvent::Once(event)
    }

    fn reply_word(reply: OnceReply<i64>) -> ObjectReply
        ensures { result ≡ ObjectReply.Once reply }
    {
        ObjectReply::Once(reply)
    }
}

/// Of a `OnceFunc`, which comes to a code.
impl FunctionValue for u32 {
    ghost event_word = { ObjectEvent.OnceFunc };

    ghost reply_word = { ObjectReply.OnceFunc };

    fn event_word(event: OnceEvent<u32>) -> ObjectEvent
        ensures { result ≡ ObjectEvent.OnceFunc event }
    {
        ObjectEvent::OnceFunc(event)
    }

    fn reply_word(reply: OnceReply<u32>) -> ObjectReply
        ensures { result ≡ ObjectReply.OnceFunc reply }
    {
        ObjectReply::OnceFunc(reply)
    }
}

/// Of a `OnceValue`, which comes to its value.
impl FunctionValue for u64 {
    ghost event_word = { ObjectEvent.OnceValue };

    ghost reply_word = { ObjectReply.OnceValue };

    fn event_word(event: OnceEvent<u64>) -> ObjectEvent
        ensures { result ≡ ObjectEvent.OnceValue event }
    {
        ObjectEvent::OnceValue(event)
    }

    fn reply_word(reply: OnceReply<u64>) -> ObjectReply
        ensures { result ≡ ObjectReply.OnceValue reply }
    {
        ObjectReply::OnceValue(reply)
    }
}

impl<T: FunctionValue> Entered for OnceCore<T> {
    ghost event_word = { T.event_word };

    ghost reply_word = { T.reply_word };

    fn event_word(event: OnceEvent<T>) -> ObjectEvent {
        T::event_word(event)
    }

    fn reply_word(reply: OnceReply<T>) -> ObjectReply {
        T::reply_word(reply)
    }
}

impl Entered for PoolCore {
    ghost event_word = { ObjectEvent.Pool };

    ghost reply_word = { ObjectReply.Pool };

    fn event_word(event: PoolEvent<u64>) -> ObjectEvent {
        ObjectEvent::Pool(event)
    }

    fn reply_word(reply: PoolReply<u64>) -> ObjectReply {
        ObjectReply::Pool(reply)
    }
}

/// Keeps an item. This and what stands below are cold, and never a part of a turn's own code: a run that isn't traced keeps nothing.
#[cold]
#[inline(never)]
fn keep(so_far: &mut Seq<Item>, worker: u32, object: usize, deed: Deed) -> Result<(), AllocError>
    ensures { OnOk result (so_far.new ≡ so_far.old ++ record { object = object; caller = worker; deed = deed } ∷ []) }
{
    so_far.push(Item {
        object,
        caller: worker,
        deed,
    })
}

/// Keeps an event with its answer.
#[cold]
#[inline(never)]
fn keep_event(
    so_far: &mut Seq<Item>,
    worker: u32,
    object: usize,
    event: ObjectEvent,
    reply: ObjectReply,
) -> Result<(), AllocError>
    ensures { OnOk result (so_far.new ≡ so_far.old ++ record { object = object; caller = worker; deed = Deed.Entered event reply } ∷ []) }
{
    keep(so_far, worker, object, Deed::Entered(event, reply))
}

/// Keeps an event of an object of one kind, in the words of all kinds.
#[cold]
#[inline(never)]
fn keep_made<P: Entered>(
    so_far: &mut Seq<Item>,
    worker: u32,
    object: usize,
    event: P::Event,
    reply: P::Reply,
) -> Result<(), AllocError>
    ensures { OnOk result (so_far.new ≡ so_far.old ++ record { object = object; caller = worker; deed = Deed.Entered (P.event_word event) (P.reply_word reply) } ∷ []) }
{
    keep_event(
        so_far,
        worker,
        object,
        P::event_word(event),
        P::reply_word(reply),
    )
}

/// Keeps a call on an atomic with its reply.
#[cold]
#[inline(never)]
fn keep_atomic_call(
    so_far: &mut Seq<Item>,
    worker: u32,
    object: usize,
    call: AtomicCall,
    reply: AtomicReply,
) -> Result<(), AllocError>
    ensures { OnOk result (so_far.new ≡ so_far.old ++ placed_at worker object (operations.Atomic call) (replies.Atomic reply)) }
{
    let deed = Deed::Placed(Operation::Atomic(call), Reply::Atomic(reply));
    keep(so_far, worker, object, deed)
}

/// Keeps a read or a write of a plain variable with its reply.
#[cold]
#[inline(never)]
fn keep_var_call(
    so_far: &mut Seq<Item>,
    worker: u32,
    object: usize,
    call: VarCall,
    reply: VarReply,
) -> Result<(), AllocError>
    ensures { OnOk result (so_far.new ≡ so_far.old ++ placed_at worker object (operations.Var call) (replies.Var reply)) }
{
    let deed = Deed::Placed(Operation::Var(call), Reply::Var(reply));
    keep(so_far, worker, object, deed)
}

/// Keeps a call on a map, which is copied, with its reply.
#[cold]
#[inline(never)]
fn keep_map_call(
    alloc: Global,
    so_far: &mut Seq<Item>,
    worker: u32,
    object: usize,
    call: &MapCall<Name>,
    reply: MapReply,
) -> Result<(), AllocError>
    ensures { OnOk result (so_far.new ≡ so_far.old ++ placed_at worker object (operations.Map call.now) (replies.Map reply)) }
{
    let call = copied_map_call(alloc, call)?;
    let deed = Deed::Placed(Operation::Map(call), Reply::Map(reply));
    keep(so_far, worker, object, deed)
}

/// Keeps a `range` with the pairs that it shows, which are copied.
#[cold]
#[inline(never)]
fn keep_range(
    alloc: Global,
    so_far: &mut Seq<Item>,
    worker: u32,
    object: usize,
    pairs: &[(Name, u64)],
) -> Result<(), AllocError>
    ensures { OnOk result (so_far.new ≡ so_far.old ++ placed_at worker object operations.Range (replies.Pairs pairs.now)) }
{
    let pairs = copied_pairs(alloc, pairs)?;
    let deed = Deed::Placed(Operation::Range, Reply::Pairs(pairs));
    keep(so_far, worker, object, deed)
}

/// Notes an event of a worker on the object at a place, with its answer.
#[inline(always)]
pub(crate) fn note_event(
    notes: &mut Notes<Item>,
    worker: u32,
    object: usize,
    event: ObjectEvent,
    reply: ObjectReply,
) -> Result<(), AllocError>
    ensures { OnOk result (notes.new ≡ one_noted (record { object = object; caller = worker; deed = Deed.Entered event reply }) notes.old) }
{
    match notes {
        Notes::Nothing => Ok(()),
        Notes::All(so_far) => keep_event(so_far, worker, object, event, reply),
    }
}

/// Notes an event of a worker on the object at a place, which is of one kind, with its answer. The words of all kinds are made where it is kept.
#[inline(always)]
pub(crate) fn note_made<P: Entered>(
    notes: &mut Notes<Item>,
    worker: u32,
    object: usize,
    event: P::Event,
    reply: P::Reply,
) -> Result<(), AllocError>
    ensures { OnOk result (notes.new ≡ one_noted (record { object = object; caller = worker; deed = Deed.Entered (P.event_word event) (P.reply_word reply) }) notes.old) }
{
    match notes {
        Notes::Nothing => Ok(()),
        Notes::All(so_far) => keep_made::<P>(so_far, worker, object, event, reply),
    }
}

/// Notes a worker's call on the atomic at a place, with its reply.
#[inline(always)]
pub(crate) fn note_atomic_call(
    notes: &mut Notes<Item>,
    worker: u32,
    object: usize,
    call: AtomicCall,
    reply: AtomicReply,
) -> Result<(), AllocError>
    ensures { OnOk result (notes.new ≡ noted (placed_at worker object (operations.Atomic call) (replies.Atomic reply)) notes.old) }
{
    match notes {
        Notes::Nothing => Ok(()),
        Notes::All(so_far) => keep_atomic_call(so_far, worker, object, call, reply),
    }
}

/// Notes that a worker read or wrote the plain variable at a place, with the reply.
#[inline(always)]
pub(crate) fn note_var_call(
    notes: &mut Notes<Item>,
    worker: u32,
    object: usize,
    call: VarCall,
    reply: VarReply,
) -> Result<(), AllocError>
    ensures { OnOk result (notes.new ≡ noted (placed_at worker object (operations.Var call) (replies.Var reply)) notes.old) }
{
    match notes {
        Notes::Nothing => Ok(()),
        Notes::All(so_far) => keep_var_call(so_far, worker, object, call, reply),
    }
}

/// Notes a worker's call on the map at a place, with its reply.
#[inline(always)]
pub(crate) fn note_map_call(
    alloc: Global,
    notes: &mut Notes<Item>,
    worker: u32,
    object: usize,
    call: &MapCall<Name>,
    reply: MapReply,
) -> Result<(), AllocError>
    ensures { OnOk result (notes.new ≡ noted (placed_at worker object (operations.Map call.now) (replies.Map reply)) notes.old) }
{
    match notes {
        Notes::Nothing => Ok(()),
        Notes::All(so_far) => keep_map_call(alloc, so_far, worker, object, call, reply),
    }
}

/// Notes that a worker was shown the keys of the map at a place, with their values.
#[inline(always)]
pub(crate) fn note_range(
    alloc: Global,
    notes: &mut Notes<Item>,
    worker: u32,
    object: usize,
    pairs: &[(Name, u64)],
) -> Result<(), AllocError>
    ensures { OnOk result (notes.new ≡ noted (placed_at worker object operations.Range (replies.Pairs pairs.now)) notes.old) }
{
    match notes {
        Notes::Nothing => Ok(()),
        Notes::All(so_far) => keep_range(alloc, so_far, worker, object, pairs),
    }
}
