//! What atomics and the keys of maps order.
ghost use Rattle.std.specs.Prelude.{◌≡◌, ◌≢◌, ◌↔◌, ℕ, ◌<◌, true, false, List, Contains, map, Some, slice_get, is_some};
ghost use Rattle.std.specs.FinMap.{get};
ghost use Rattle.sync_types.specs.SequentialAtomic.{atomic_reply, is_atomic_entry};
ghost use Rattle.sync_types.specs.declared.atomic_object.AtomicCall.{AtomicCall};
ghost use Rattle.sync_types.specs.declared.atomic_object.Number.{Number};
ghost use Rattle.script_calls.specs.declared.call.Reply.{Reply};
ghost use Rattle.script_calls.specs.declared.call.Reply.TheVariants as replies;
ghost use Rattle.script_calls.specs.declared.call.Operation.TheVariants as operations;
ghost use Rattle.sync_types.specs.declared.map_object.MapCall.TheVariants as map_calls;
ghost use Rattle.workload.specs.Plan.{Plan};
ghost use Rattle.step_runner.specs.declared.trace.TraceItem.{TraceItem};
ghost use Rattle.step_runner.specs.declared.turns.item.Deed.{Deed};
ghost use Rattle.step_runner.specs.declared.turns.item.Deed.TheVariants as deeds;
ghost use Rattle.race_clocks.specs.Channels.{Atomic, MapKey};
ghost use Rattle.race_clocks.specs.Deeds.{is_entry, enters_atomic, finds_atomic, finds_in_map};
ghost use Rattle.race_clocks.specs.HappensBefore.{Stands, Before};
ghost use Rattle.race_clocks.specs.Seen.{Named, map_behind, enters_key};
ghost use Rattle.race_clocks.specs.Rows.{Makes, earlier_of, on_atomic};

/// An entry on an atomic is before each later call on it but a store, up to and with the next entry.
pub fn an_entry_is_before_each_later_call()
    ensures { (plan : Plan) (trace : List TraceItem) (i j atomic w v : ℕ) (d e : Deed) → i < j
        → Makes trace i atomic w d → Makes trace j atomic v e → enters_atomic d ≡ true → finds_atomic e ≡ true
        → ((k place u : ℕ) (f : Deed) → i < k → k < j → Makes trace k place u f → place ≡ atomic → enters_atomic f ≡ true → ⊥)
        → Before plan trace i j }
{}

/// Behind that entry, what it handed on isn't there any more.
pub fn the_next_entry_takes_its_place()
    ensures { (plan : Plan) (trace : List TraceItem) (i k j atomic u : ℕ) (f : Deed) → i < k → k < j → Makes trace k atomic u f → enters_atomic f ≡ true
        → Stands plan trace (Atomic atomic) i j → ⊥ }
{}

/// A call is an entry exactly where the atomic for one thread says so, where it answers what that answers.
pub fn replies_tell_entries()
    ensures { (call : AtomicCall) (held : Number) → enters_atomic (on_atomic call (atomic_reply call held)) ≡ is_atomic_entry call held }
{}

/// An entry on a key, a `clear` among them, is before each later call that finds the key, up to and with the next entry on it.
pub fn an_entry_on_a_key_is_before_each_later_call()
    ensures { (plan : Plan) (trace : List TraceItem) (i j place w v : ℕ) (d e : Deed) (key : List ℕ) → i < j
        → (m : Makes trace i place w d) → Makes trace j place v e → enters_key key (map_behind place (earlier_of trace i place w d m)) d ≡ true → finds_in_map key e ≡ true
        → ((k other u : ℕ) (f : Deed) → i < k → k < j → (n : Makes trace k other u f) → other ≡ place
        → enters_key key (map_behind place (earlier_of trace k other u f n)) f ≡ true → ⊥)
        → Before plan trace i j }
{}

/// Behind that entry, what it handed on isn't there any more.
pub fn the_next_entry_on_a_key_takes_its_place()
    ensures { (plan : Plan) (trace : List TraceItem) (i k j place u : ℕ) (f : Deed) (key : List ℕ) → i < k → k < j → (m : Makes trace k place u f)
        → enters_key key (map_behind place (earlier_of trace k place u f m)) f ≡ true → Stands plan trace (MapKey place key) i j → ⊥ }
{}

/// A store and a swap are entries on their key, and on no other; a `clear` on each key; a `delete` exactly where its key is there.
pub fn entries_on_a_key()
    ensures store { (key other : List ℕ) (value : ℕ) (m : Named) (reply : Reply (List ℕ))
        → (enters_key key m (deeds.Placed (operations.Map (map_calls.Store other value)) reply) ≡ true) ↔ (key ≡ other) }
    ensures swap { (key other : List ℕ) (value : ℕ) (m : Named) (reply : Reply (List ℕ))
        → (enters_key key m (deeds.Placed (operations.Map (map_calls.Swap other value)) reply) ≡ true) ↔ (key ≡ other) }
    ensures clear { (key : List ℕ) (m : Named) (reply : Reply (List ℕ)) → enters_key key m (deeds.Placed (operations.Map map_calls.Clear) reply) ≡ true }
    ensures delete { (key : List ℕ) (m : Named) (reply : Reply (List ℕ))
        → enters_key key m (deeds.Placed (operations.Map (map_calls.Delete key)) reply) ≡ is_some (get m key) }
{}

/// A load finds its key, and no other; a `range` those that it shows.
pub fn what_finds_a_key()
    ensures load { (key other : List ℕ) (reply : Reply (List ℕ)) → (finds_in_map key (deeds.Placed (operations.Map (map_calls.Load other)) reply) ≡ true) ↔ (key ≡ other) }
    ensures range { (key : List ℕ) (pairs : List (List ℕ × ℕ)) → (finds_in_map key (deeds.Placed operations.Range (replies.Pairs pairs)) ≡ true) ↔ Contains (map (λ pair. pair.0) pairs) key }
{}
