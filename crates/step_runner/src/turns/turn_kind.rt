//! What a scheduled turn needs of a kind of object, said once for all kinds whose calls are each on one object and wait there
//! at most once.
ghost use Rattle.std.specs.Prelude.{◌≡◌, ℕ, ◌<◌, Option};
ghost use Rattle.step_runner.specs.TurnKinds.{TurnsStand};

use protocols::{GroupStage, Protocol};
use sema_core::{SemaCore, SemaPlace, SemaStage, laws as sema_laws};
use sync_types::{SemaCall, WaitGroupCall};
use wait_cores::laws::group::{events_are_used_up, knows_where_it_stands, still};
use wait_cores::{GroupCore, GroupPlace};

/// A kind whose calls are each on one object: which stage of its call a worker's turn makes, by where the worker stands.
///
/// To give a kind its turns is to say these, and to prove `turn_laws`.
pub(crate) trait TurnKind: Protocol {
    /// A call, as a workload has it.
    type Call: Copy + Drop;

    // How many callers an object has.
    ghost callers_of: { Self.State → ℕ };

    // The stage that a caller's call is at: none, where it waits and isn't told to go on.
    ghost due: { Self.Call → Self.State → ℕ → Option Self.Stage };

    // The stage for which a caller waits, told or not: none, where it is out.
    ghost behind: { Self.State → ℕ → Option Self.Stage };

    // For which stages the caller of a call may wait.
    ghost fits: { Self.Call → Option Self.Stage → Type 0 };

    // The stage from which on a call is left, by that for which its caller waits: the first one, where it is out.
    ghost left_from: { Self.Call → Option Self.Stage → Self.Stage };

    // What callers can still do at an object without completing a call.
    ghost undone: { Self.State → ℕ };

    /// The stage that a caller's call is at, if the caller may go on.
    fn due(call: Self::Call, state: &Self::State, caller: u32) -> Option<Self::Stage>
        requires { caller < callers_of state.now }
        ensures { result ≡ due call state.now caller };

    /// What holds of the kind's turns; it does nothing. A stage that is due gets an answer that the call goes on by. It leaves less
    /// to do, but where it completes the call. A call that goes on does so once: it leaves its caller waiting for the later stage,
    /// and that is the stage which is then due. A caller that waits for none begins its call. Another's event leaves a caller where it is.
    fn turn_laws()
        ensures { TurnsStand Self.next Self.event Self.meaning callers_of due behind fits left_from undone };
}

impl TurnKind for GroupCore {
    ghost use Rattle.wait_cores.specs.GroupMachine.{callers_of};
    ghost use Rattle.wait_cores.specs.GroupEventsLeft.{group_left};
    ghost use Rattle.step_runner.specs.Due.{group_turn, group_behind, GroupFits, group_from};

    type Call = WaitGroupCall;

    ghost callers_of = { callers_of };

    ghost due = { group_turn };

    ghost behind = { group_behind };

    ghost fits = { GroupFits };

    ghost left_from = { group_from };

    ghost undone = { group_left };

    fn due(call: WaitGroupCall, group: &GroupCore, caller: u32) -> Option<GroupStage> {
        match call {
            WaitGroupCall::Add(delta) => Some(GroupStage::Add(delta)),
            WaitGroupCall::Done => Some(GroupStage::Done),
            WaitGroupCall::Wait => match group.place(caller) {
                GroupPlace::Out => Some(GroupStage::Wait),
                GroupPlace::Waiting => None,
                GroupPlace::Released => Some(GroupStage::Leave),
            },
        }
    }

    fn turn_laws() {
        events_are_used_up();
        knows_where_it_stands();
        still();
    }
}

impl TurnKind for SemaCore {
    ghost use Rattle.sema_core.specs.SemaMachine.{callers_of};
    ghost use Rattle.sema_core.specs.SemaEventsLeft.{sema_left};
    ghost use Rattle.step_runner.specs.Due.{sema_turn, sema_behind, SemaFits, sema_from};

    type Call = SemaCall;

    ghost callers_of = { callers_of };

    ghost due = { sema_turn };

    ghost behind = { sema_behind };

    ghost fits = { SemaFits };

    ghost left_from = { sema_from };

    ghost undone = { sema_left };

    fn due(call: SemaCall, sema: &SemaCore, caller: u32) -> Option<SemaStage> {
        match (call, sema.place(caller)) {
            (SemaCall::Acquire(weight), SemaPlace::Out) => Some(SemaStage::Acquire(weight)),
            (SemaCall::TryAcquire(weight), SemaPlace::Out) => Some(SemaStage::Try(weight)),
            (SemaCall::Release(weight), SemaPlace::Out) => Some(SemaStage::Release(weight)),
            (SemaCall::Acquire(_), SemaPlace::Granted) => Some(SemaStage::Leave),
            _ => None,
        }
    }

    fn turn_laws() {
        sema_laws::events_are_used_up();
        sema_laws::knows_where_it_stands();
        sema_laws::still();
    }
}
