//! What names the keys of a map have is all one.
ghost use Rattle.std.specs.Prelude.{◌≡◌, ℕ, Bool, true};
ghost use Rattle.std.specs.declared.cmp.Ordering.{Ordering};
ghost use Rattle.std.specs.FinMap.{FinMap, empty};
ghost use Rattle.sync_types.specs.SequentialMap.{map_reply, map_after, is_map_entry};
ghost use Rattle.sync_types.specs.MapLaws.{IsKeyOrder};
ghost use Rattle.sync_types.specs.Renaming.{renamed_call, IsOneToOne, IsRenamed, is_call_at};

use crate::map_object::MapCall;

/// A map whose keys are renamed, one to one, answers what the map answers, at the same entries of the shared history, and
/// stays the map with its keys renamed.
pub fn maps_with_renamed_keys_answer_the_same<K, L>()
    ensures starts { (R : K → K → Ordering) (S : L → L → Ordering) (rename : K → L) (is_key : K → Bool)
        → (m : FinMap R ℕ) (n : FinMap S ℕ) → m ≡ empty → n ≡ empty → IsRenamed rename is_key m n }
    ensures reply { (R : K → K → Ordering) (S : L → L → Ordering) (rename : K → L) (is_key : K → Bool) (m : FinMap R ℕ) (n : FinMap S ℕ) (call : MapCall K)
        → IsRenamed rename is_key m n → is_call_at is_key call ≡ true
        → map_reply (renamed_call rename call) n ≡ map_reply call m }
    ensures entry { (R : K → K → Ordering) (S : L → L → Ordering) (rename : K → L) (is_key : K → Bool) (m : FinMap R ℕ) (n : FinMap S ℕ) (call : MapCall K)
        → IsRenamed rename is_key m n → is_call_at is_key call ≡ true
        → is_map_entry (renamed_call rename call) n ≡ is_map_entry call m }
    ensures after { (R : K → K → Ordering) (S : L → L → Ordering) → IsKeyOrder R → IsKeyOrder S
        → (rename : K → L) (is_key : K → Bool) → IsOneToOne rename is_key
        → (m : FinMap R ℕ) (n : FinMap S ℕ) (call : MapCall K) → IsRenamed rename is_key m n → is_call_at is_key call ≡ true
        → IsRenamed rename is_key (map_after call m) (map_after (renamed_call rename call) n) }
{}
