//! Small records, one of each kind of object that explains a run, and one that differs from it in one thing and explains none.
//! So what it means that a record explains a run is shown by what it lets through, and by what it refuses.
ghost use Rattle.std.specs.Prelude.{ℕ, List};
ghost use Rattle.run_record.specs.Explains.{Explains};
ghost use Rattle.run_laws.specs.ExamplesCond as cond;
ghost use Rattle.run_laws.specs.ExamplesFlight as flight;
ghost use Rattle.run_laws.specs.ExamplesGo as go;
ghost use Rattle.run_laws.specs.ExamplesMap as map;
ghost use Rattle.run_laws.specs.ExamplesMutex as mutex;
ghost use Rattle.run_laws.specs.ExamplesOnce as once;
ghost use Rattle.run_laws.specs.ExamplesOnceFunc as once_func;
ghost use Rattle.run_laws.specs.ExamplesOnceValue as once_value;
ghost use Rattle.run_laws.specs.ExamplesPool as pool;
ghost use Rattle.run_laws.specs.ExamplesRwMutex as rw_mutex;
ghost use Rattle.run_laws.specs.ExamplesSema as sema;
ghost use Rattle.run_laws.specs.ExamplesStarts as starts;
ghost use Rattle.run_laws.specs.ExamplesWaitGroup as wait_group;

use run_record::laws::runs::scripts_without_tests_are_spelt_call_by_call;
use script_calls::Outcome;

/// A load from a map that finds the value that was stored is explained. One that finds a value which nobody stored isn't.
pub fn no_value_is_found_that_nobody_stored()
    ensures explained { Explains map.plan (map.outcome 5) (map.found 5) }
    ensures refused { (outcome : Outcome) → Explains map.plan outcome (map.found 7) → ⊥ }
{
    scripts_without_tests_are_spelt_call_by_call();
}

/// A mutex that worker 1 locks behind worker 0's unlock is explained. One that both hold isn't: worker 1's lock was answered before
/// the unlock.
pub fn a_mutex_is_not_held_by_two()
    ensures explained { Explains mutex.plan mutex.outcome mutex.one_after_the_other }
    ensures refused { (outcome : Outcome) → Explains mutex.plan outcome mutex.held_by_two → ⊥ }
{
    scripts_without_tests_are_spelt_call_by_call();
}

/// A writer who comes behind a reader's unlock is explained. One that has the lock before it, beside the reader, isn't.
pub fn a_writer_is_not_beside_a_reader()
    ensures explained { Explains rw_mutex.plan rw_mutex.outcome rw_mutex.one_after_the_other }
    ensures refused { (outcome : Outcome) → Explains rw_mutex.plan outcome rw_mutex.beside_a_reader → ⊥ }
{
    scripts_without_tests_are_spelt_call_by_call();
}

/// A writer that waits behind a reader, and leaves behind its unlock, is explained: its lock is these two events. One that leaves before
/// that unlock isn't.
pub fn a_writer_leaves_behind_the_last_reader()
    ensures explained { Explains rw_mutex.plan rw_mutex.outcome rw_mutex.granted }
    ensures refused { (outcome : Outcome) → Explains rw_mutex.plan outcome rw_mutex.left_too_early → ⊥ }
{
    scripts_without_tests_are_spelt_call_by_call();
}

/// A wait on a wait group that returns behind the `done` which brings its counter to 0 is explained. One that returns before it, while
/// the counter is 1, isn't.
pub fn a_group_is_not_left_at_one()
    ensures explained { Explains wait_group.plan wait_group.outcome wait_group.returns_at_zero }
    ensures refused { (outcome : Outcome) → Explains wait_group.plan outcome wait_group.returns_at_one → ⊥ }
{
    scripts_without_tests_are_spelt_call_by_call();
}

/// A wait on a cond that returns behind a signal which found it waiting is explained. It isn't where the signal came before, and so
/// notified nobody.
pub fn a_signal_before_the_wait_notifies_nobody()
    ensures explained { Explains cond.plan cond.outcome cond.notified }
    ensures refused { (outcome : Outcome) → Explains cond.plan outcome cond.notified_too_early → ⊥ }
{
    scripts_without_tests_are_spelt_call_by_call();
}

/// A once whose function one of two callers runs is explained. One whose function both run isn't, whatever it comes to.
pub fn a_once_is_not_run_twice()
    ensures explained { Explains once.plan once.outcome once.ran_once }
    ensures refused { (outcome : Outcome) → Explains once.plan outcome once.ran_twice → ⊥ }
{
    scripts_without_tests_are_spelt_call_by_call();
}

/// A function made by `OnceFunc` or `OnceValue` that one of two callers runs is explained. One that both run isn't, though both reply the
/// same.
pub fn a_function_is_not_run_twice()
    ensures value_explained { Explains once_value.plan once_value.outcome once_value.ran_once }
    ensures value_refused { (outcome : Outcome) → Explains once_value.plan outcome once_value.ran_twice → ⊥ }
    ensures func_explained { Explains once_func.plan once_func.outcome once_func.ran_once }
    ensures func_refused { (outcome : Outcome) → Explains once_func.plan outcome once_func.ran_twice → ⊥ }
{
    scripts_without_tests_are_spelt_call_by_call();
}

/// A get from a pool that replies the item that was put is explained. One that replies an item that nobody put isn't.
pub fn no_item_is_got_that_nobody_put()
    ensures explained { Explains pool.plan (pool.outcome 5) (pool.got 5) }
    ensures refused { (outcome : Outcome) → Explains pool.plan outcome (pool.got 6) → ⊥ }
{
    scripts_without_tests_are_spelt_call_by_call();
}

/// A worker that waits for its weight of a semaphore, and leaves behind the release which grants it, is explained: its acquire is these
/// two events. One that leaves before that release isn't, nor is one that has its weight at once, while the other worker holds all there is.
pub fn a_semaphore_is_not_held_past_its_size()
    ensures explained { Explains sema.plan sema.outcome sema.granted }
    ensures refused { (outcome : Outcome) → Explains sema.plan outcome sema.left_too_early → ⊥ }
    ensures not_at_once { (outcome : Outcome) → Explains sema.plan outcome sema.held_by_two → ⊥ }
{
    scripts_without_tests_are_spelt_call_by_call();
}

/// A flight that one of two callers leads, and the other one joins, is explained: both reply what the one addition came to. It isn't where
/// the one who joined leaves with another value. Nor is it explained that both lead a flight of the one key at the same time.
pub fn a_flight_is_not_led_by_two()
    ensures explained { Explains flight.plan flight.outcome (flight.left_with 3) }
    ensures refused { (outcome : Outcome) → Explains flight.plan outcome flight.led_by_two → ⊥ }
    ensures not_another { (outcome : Outcome) → Explains flight.plan outcome (flight.left_with 5) → ⊥ }
{
    scripts_without_tests_are_spelt_call_by_call();
}

/// A worker that waits to be started, and is told that it never will be once the other one has ended, is explained: it makes no call, and
/// the run is done. One that is told so before isn't, since the other one might start it.
pub fn a_worker_is_not_given_up_while_another_is_live()
    ensures explained { Explains starts.plan starts.outcome starts.told_at_the_end }
    ensures refused { (outcome : Outcome) → Explains starts.plan outcome starts.told_too_early → ⊥ }
{
    scripts_without_tests_are_spelt_call_by_call();
}

/// A worker that a `go` started is done before its group is left. A load behind the wait for it that finds what the worker added is
/// explained. One that finds what there was before isn't, whatever its caller knew then: behind its script the worker is done with the
/// group, and the wait that returns behind that `done` knows all that the worker knew. Nor is a wait explained that returns before it,
/// since the `go` has added to the group.
pub fn a_started_worker_is_done_before_its_group_is_left()
    ensures explained { Explains go.plan go.outcome go.finds_the_sum }
    ensures refused { (outcome : Outcome) (at_wait at_load : List ℕ) → Explains go.plan outcome (go.finds_nothing at_wait at_load) → ⊥ }
    ensures not_left { (outcome : Outcome) (at_wait at_load : List ℕ) → Explains go.plan outcome (go.left_before at_wait at_load) → ⊥ }
{
    scripts_without_tests_are_spelt_call_by_call();
}
