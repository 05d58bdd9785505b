//! The numbers of the parts of pools, and of what a misuse halts.
ghost use Rattle.std.specs.Prelude.{◌≡◌, ◌↔◌, ◌⊎◌, ℕ, ◌+◌, ◌<◌, ◌==◌, true, false, cond, [], ◌∷◌, filter, length, Contains, Some, slice_get};
ghost use Rattle.workload.specs.Plan.{Plan, has_dormant};
ghost use Rattle.run_record.specs.Halts.{halted_numbers, IsNumberAt};
ghost use Rattle.run_record.specs.Objects.{is_pool, first_part, object_count, starts_number};
ghost use Rattle.run_record.specs.Record.{stop};

use workload::{ObjectKind, ObjectLine};

/// Each part of a pool has a number of its own, behind those of the workload's objects. The parts of one pool stand before those of
/// the next. Starts is behind them all, where some workers wait to be started, and there are no others.
pub fn parts_have_numbers_of_their_own()
    ensures follow { (plan : Plan) (place : ℕ) (object : ObjectLine) → slice_get plan.objects place ≡ Some object → first_part plan (place + 1) ≡ first_part plan place + cond (is_pool object.kind) plan.workers 0 }
    ensures all { (plan : Plan) → first_part plan (length plan.objects) ≡ starts_number plan }
    ensures starts { (plan : Plan) → has_dormant plan ≡ true → object_count plan ≡ starts_number plan + 1 }
    ensures no_starts { (plan : Plan) → has_dormant plan ≡ false → object_count plan ≡ starts_number plan }
    ensures within { (plan : Plan) (place part : ℕ) (object : ObjectLine) → slice_get plan.objects place ≡ Some object → object.kind ≡ ObjectKind.Pool → part < plan.workers → first_part plan place + part < starts_number plan }
    ensures apart { (plan : Plan) (place other part another : ℕ) (object one : ObjectLine)
        → slice_get plan.objects place ≡ Some object → object.kind ≡ ObjectKind.Pool → part < plan.workers → slice_get plan.objects other ≡ Some one → one.kind ≡ ObjectKind.Pool → another < plan.workers
        → first_part plan place + part ≡ first_part plan other + another → (place ≡ other) × (part ≡ another) }
{}

/// What a misuse halts in a run with threads, by number. This is Stop, Starts where some workers wait to be started, and of each object of the
/// workload its own number, or those of a pool's parts; maps and atomics aren't halted. Each is halted once: Stop first, Starts next, the others in
/// order of declaration, and a pool's parts from 0 up.
pub fn a_misuse_halts_in_order()
    ensures stop { (plan : Plan) → slice_get (halted_numbers plan) 0 ≡ Some stop }
    ensures starts { (plan : Plan) → has_dormant plan ≡ true → slice_get (halted_numbers plan) 1 ≡ Some (starts_number plan) }
    ensures all { (plan : Plan) (number : ℕ) → Contains (halted_numbers plan) number
        ↔ (number ≡ stop) ⊎ ((has_dormant plan ≡ true) × (number ≡ starts_number plan)) ⊎ ((place : ℕ) × (object : ObjectLine) × (slice_get plan.objects place ≡ Some object) × IsNumberAt plan place object.kind number) }
    ensures once { (plan : Plan) (number : ℕ) → Contains (halted_numbers plan) number → filter (λ n. n == number) (halted_numbers plan) ≡ number ∷ [] }
    ensures order { (plan : Plan) (i j place other first later : ℕ) (object one : ObjectLine)
        → slice_get plan.objects place ≡ Some object → IsNumberAt plan place object.kind first → slice_get plan.objects other ≡ Some one → IsNumberAt plan other one.kind later → place < other
        → slice_get (halted_numbers plan) i ≡ Some first → slice_get (halted_numbers plan) j ≡ Some later → i < j }
    ensures parts { (plan : Plan) (i j place part another : ℕ) (object : ObjectLine)
        → slice_get plan.objects place ≡ Some object → object.kind ≡ ObjectKind.Pool → part < another → another < plan.workers
        → slice_get (halted_numbers plan) i ≡ Some (first_part plan place + part) → slice_get (halted_numbers plan) j ≡ Some (first_part plan place + another) → i < j }
{}
