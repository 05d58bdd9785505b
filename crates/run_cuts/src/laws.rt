//! That the functions cut lists as the record of a run spells them. Each law is the contract of a function that does nothing.
ghost use Rattle.std.specs.Prelude.{◌≡◌, ℕ, ℤ, Bool, true, false, List, [], Some, None, get_or};
ghost use Rattle.script_calls.specs.declared.call.Call.{Call};
ghost use Rattle.script_calls.specs.declared.call.Reply.{Reply};
ghost use Rattle.script_calls.specs.Runs.{RunsAlong};
ghost use Rattle.workload.specs.Dialect.{has_variables};
ghost use Rattle.workload.specs.Plan.{Plan, is_valid};
ghost use Rattle.run_record.specs.AtomicKind.{adds, atomic_call};
ghost use Rattle.run_record.specs.Calls.{SpellsCall};
ghost use Rattle.run_record.specs.CondKind.{cond_call};
ghost use Rattle.run_record.specs.Lines.{IsLineOf, Line, calls_made, items_of};
ghost use Rattle.run_record.specs.FlightKind.{fly_call};
ghost use Rattle.run_record.specs.MapKind.{map_call};
ghost use Rattle.run_record.specs.MutexKind.{mutex_call};
ghost use Rattle.run_record.specs.OnceKind.{do_call, func_call, value_call};
ghost use Rattle.run_record.specs.PoolKind.{pool_call};
ghost use Rattle.run_record.specs.RwMutexKind.{rw_mutex_call};
ghost use Rattle.run_record.specs.SemaKind.{sema_call};
ghost use Rattle.run_record.specs.StartsKind.{opening, closing, go_call, wait_start_part, end_part};
ghost use Rattle.run_record.specs.Tests.{if_equal_call, wait_for_call};
ghost use Rattle.run_record.specs.WaitGroupKind.{wait_group_call};
ghost use Rattle.run_record.specs.declared.made.Made.{Made};
ghost use Rattle.run_record.specs.declared.made.Made.TheVariants.{Shared, Entered};
ghost use Rattle.run_record.specs.Record.{ObjectEntry};
ghost use Rattle.sync_model.specs.declared.item.Item.{Item};
ghost use Rattle.run_cuts.specs.Blind.{AreAlike, Blind, HasLineLike, bare};
ghost use Rattle.run_cuts.specs.CallCuts.{call_cut, is_told};
ghost use Rattle.run_cuts.specs.CallsAlong.{calls_along};
ghost use Rattle.run_cuts.specs.CondCuts.{cond_cut};
ghost use Rattle.run_cuts.specs.Cuts.{Cuts, Cutter};
ghost use Rattle.run_cuts.specs.FlightCuts.{fly_cut};
ghost use Rattle.run_cuts.specs.GroupCuts.{group_cut};
ghost use Rattle.run_cuts.specs.LineCuts.{line_cut};
ghost use Rattle.run_cuts.specs.MutexCuts.{mutex_cut};
ghost use Rattle.run_cuts.specs.OnceCuts.{do_cut, func_cut, value_cut};
ghost use Rattle.run_cuts.specs.OneLine.{CutsCalls, CutsLines, settles_by};
ghost use Rattle.run_cuts.specs.PoolCuts.{pool_cut};
ghost use Rattle.run_cuts.specs.RangeCuts.{CutsRange};
ghost use Rattle.run_cuts.specs.RwMutexCuts.{rw_mutex_cut};
ghost use Rattle.run_cuts.specs.SemaCuts.{sema_cut};
ghost use Rattle.run_cuts.specs.SharedCuts.{adds_cut, atomic_cut, if_equal_cut, map_cut};
ghost use Rattle.run_cuts.specs.StartsCuts.{opening_cut, closing_cut, go_cut, wait_start_cut, end_cut};
ghost use Rattle.run_cuts.specs.WaitForCuts.{wait_for_cut};

use sync_types::{
    AtomicCall, CondCall, MapCall, MutexCall, Number, PoolCall, RwMutexCall, SemaCall,
    WaitGroupCall,
};

/// The calls of each kind but a `range` are cut from a list by a function just as they are spelt. What is found spells the call. What
/// spells it is found, whatever stands behind it. A list that ends within it goes on to one that spells it. One that begins with no such
/// call still does so, however it goes on. Of a writer's `lock` the answers `Still` are found with it, wherever they may stand. So are cut, too, what
/// a worker makes on Starts before its script, where it waits to be started, and behind it.
pub fn calls_are_cut_as_they_are_spelt()
    ensures mutex { (object : ℕ) (call : MutexCall) → Cuts (mutex_call object call) (mutex_cut object call) }
    ensures rw_mutex { (object : ℕ) (call : RwMutexCall) → Cuts (rw_mutex_call object call) (rw_mutex_cut object call) }
    ensures cond { (object mutex : ℕ) (call : CondCall) → Cuts (cond_call object mutex call) (cond_cut object mutex call) }
    ensures map { (keys : List (List ℕ)) (m : ℕ) (call : MapCall (List ℕ)) → Cuts (map_call keys m call) (map_cut keys m call) }
    ensures atomic { (a : ℕ) (call : AtomicCall) → Cuts (atomic_call a call) (atomic_cut a call) }
    ensures ifeq { (a : ℕ) (value : Number) → Cuts (if_equal_call a value) (if_equal_cut a value) }
    ensures waitfor { (cond mutex a : ℕ) (value : Number) (tries : ℕ) → Cuts (wait_for_call cond mutex a value tries) (wait_for_cut cond mutex a value tries) }
    ensures adds { (a : ℕ) (amount : ℤ) → Cuts (adds a amount) (adds_cut a amount) }
    ensures once { (object a : ℕ) (amount : ℤ) → Cuts (do_call object a amount) (do_cut object a amount) }
    ensures once_func { (object code : ℕ) → Cuts (func_call object code) (func_cut object code) }
    ensures once_value { (object value : ℕ) → Cuts (value_call object value) (value_cut object value) }
    ensures pool { (workers worker first : ℕ) (call : PoolCall) → Cuts (pool_call workers worker first call) (pool_cut workers worker first call) }
    ensures wait_group { (object : ℕ) (call : WaitGroupCall) → Cuts (wait_group_call object call) (group_cut object call) }
    ensures sema { (object : ℕ) (call : SemaCall) → Cuts (sema_call object call) (sema_cut object call) }
    ensures flight { (object a : ℕ) (amount : ℤ) (key : ℕ) → Cuts (fly_call object a amount key) (fly_cut object a amount key) }
    ensures go { (group starts worker : ℕ) → Cuts (go_call group starts worker) (go_cut group starts worker) }
    ensures starts { (object : ℕ) → Cuts (wait_start_part object) (wait_start_cut object) × Cuts (end_part object) (end_cut object) }
{}

/// The items of a `range`, with the pairs that it showed, are cut from a list by a function just as they are spelt. It may reply these
/// pairs in each order that sorts them by the names of their keys, and in no other.
pub fn the_items_of_a_range_are_cut()
    ensures { (keys : List (List ℕ)) (m begin : ℕ) → CutsRange keys m begin }
{}

/// A call of a workload is cut from a list by a function just as it is spelt, but for a `range`. Its items don't fix its reply: the
/// pairs are sorted by the names of their keys, and two pairs whose keys have one name may stand in either order. So it is where a key is
/// shown twice, and where numbers are shown that are no key's, which have one name, the empty one. That neither happens follows from
/// the whole record, and not from one list. So of a `range` the function tells the pairs in the order in which they were shown, and it may
/// reply each order that sorts them.
pub fn a_call_is_cut_as_it_is_spelt()
    ensures told { (plan : Plan) (worker before : ℕ) (call : Call) → is_told call.operation ≡ true → Cuts (SpellsCall plan worker before call) (call_cut plan worker before call) }
    ensures each { (plan : Plan) (worker : ℕ) → CutsCalls plan worker (settles_by plan) (call_cut plan worker) }
{}

/// Where each call of a script, and what stands before and behind the script, is cut as it is spelt, a list and the script are cut into
/// one line: what stands before the script, the calls that returned, along a run of the script, and what stands behind them. What they
/// are cut into, with the replies of each `range` sorted, is a line of them, and a line of them that has ended is what they are cut into. So it is of
/// the list of each worker, whether it waits to be started or not. A worker that hasn't ended may have made
/// all the items of its last call, and not have returned from it. Its list is the same as if it had, so the list doesn't tell, and the
/// function takes the call as done.
pub fn a_list_is_cut_into_one_line()
    ensures by { (plan : Plan) (worker : ℕ) (opens : Cutter Bool) (closes : Cutter (Unit {0})) (cut : ℕ → Call → Cutter (Reply ℕ))
        → Cuts (opening plan worker) opens → Cuts (closing plan worker) closes → CutsCalls plan worker (settles_by plan) cut → CutsLines plan worker opens closes (settles_by plan) cut }
    ensures lines { (plan : Plan) (worker : ℕ) → CutsLines plan worker (opening_cut plan worker) (closing_cut plan worker) (settles_by plan) (call_cut plan worker) }
{}

/// A spelling looks at the call and the reply of each item on a map or an atomic, and at the object and the deed of each entry, and at
/// nothing else of them. So items that are alike in these spell the same calls with the same replies, whatever places, marks, fronts,
/// callers and numbers they have, and the list of such items is a line like the other's.
pub fn a_spelling_is_blind()
    ensures shared { (x y : Item) → x.call ≡ y.call → x.reply ≡ y.reply → bare (Shared x) ≡ bare (Shared y) }
    ensures entered { (object : ℕ) (entry other : ObjectEntry) → entry.deed ≡ other.deed → bare (Entered object entry) ≡ bare (Entered object other) }
    ensures calls { (plan : Plan) (worker before : ℕ) (call : Call) → Blind (SpellsCall plan worker before call) }
    ensures before { (plan : Plan) (worker : ℕ) → Blind (opening plan worker) }
    ensures behind { (plan : Plan) (worker : ℕ) → Blind (closing plan worker) }
    ensures lines { (plan : Plan) (worker : ℕ) (line : Line) (items : List Made) → AreAlike (items_of line) items → IsLineOf plan worker line → HasLineLike plan worker line items }
{}

/// However a list is read as a line, whether that has ended or not, its items are of the same calls of the script: of those of which they
/// are in the line that the list is cut into. Where the workload is valid and has no plain variable, whose calls make no item, the list of
/// each line is cut into one.
pub fn a_list_tells_of_which_call_each_item_is()
    ensures same { (plan : Plan) (worker : ℕ) (script : List Call) (line told : Line) → RunsAlong script (calls_made line) line.rest → IsLineOf plan worker line
        → line_cut (opening_cut plan worker) (closing_cut plan worker) (call_cut plan worker) 0 script (items_of line) ≡ Some told → calls_along told ≡ calls_along line }
    ensures some { (plan : Plan) (worker : ℕ) (line : Line) → is_valid plan ≡ true → has_variables plan ≡ false → RunsAlong (get_or plan.scripts worker []) (calls_made line) line.rest → IsLineOf plan worker line
        → line_cut (opening_cut plan worker) (closing_cut plan worker) (call_cut plan worker) 0 (get_or plan.scripts worker []) (items_of line) ≡ None → ⊥ }
{}
