//! Laws of what is before what in a trace, and of its races. Each is the contract of a function that does nothing.
ghost use Rattle.std.specs.Prelude.{◌≡◌, ◌≢◌, ◌↔◌, ◌⊎◌, ℕ, ◌<◌, ◌≤◌, Bool, true, false, IsTrue, List, [], ◌∷◌, Contains, Some, None, slice_get};
ghost use Rattle.vector_clocks.specs.Before.{Before};
ghost use Rattle.vector_clocks.specs.Handed.{IsHanded, IsOwn};
ghost use Rattle.vector_clocks.specs.Races.{IsRace, AreRaces, race};

use crate::race::Race;
use crate::step::{Access, Step};

/// Before is an order: what is before a step was made before it, so no step is before itself, and what is before that is before it too.
pub fn before_is_an_order()
    ensures earlier { (trace : List Step) (i j : ℕ) → Before trace i j → i < j }
    ensures through { (trace : List Step) (i j k : ℕ) → Before trace i j → Before trace j k → Before trace i k }
{}

/// Two steps of one worker are ordered. So are two of which one takes in what the other hands on: by giving it into a channel or by
/// setting the channel, when no step between them sets it.
pub fn steps_are_ordered()
    ensures own { (trace : List Step) (i j : ℕ) → IsOwn trace i j → Before trace i j }
    ensures handed { (trace : List Step) (channel i j : ℕ) → IsHanded trace channel i j → Before trace i j }
{}

/// And no others are but by these: before is within each transitive relation that orders them so.
pub fn before_is_the_least_such_order()
    ensures { (trace : List Step) (related : ℕ → ℕ → Bool) → ((i j : ℕ) → IsOwn trace i j → IsTrue (related i j))
        → ((channel i j : ℕ) → IsHanded trace channel i j → IsTrue (related i j))
        → ((i j k : ℕ) → IsTrue (related i j) → IsTrue (related j k) → IsTrue (related i k))
        → (i j : ℕ) → Before trace i j → IsTrue (related i j) }
{}

/// What stood in a channel is gone when a step sets it. Of three steps of three workers, of which the second takes in nothing and sets
/// all channels from which the third takes in, the first one is before neither.
pub fn a_channel_that_is_set_forgets()
    ensures { (x y z : Step) → x.worker ≢ y.worker → x.worker ≢ z.worker → y.takes.items ≡ []
        → ((channel : ℕ) → Contains z.takes.items channel → Contains y.sets.items channel)
        → (Before (x ∷ y ∷ z ∷ []) 0 1 → ⊥) × (Before (x ∷ y ∷ z ∷ []) 0 2 → ⊥) }
{}

/// Two accesses of one variable race where one of them is a write and neither is before the other. They are one race, told by the
/// earlier step and the later one.
pub fn unordered_accesses_race()
    ensures race { (trace : List Step) (i j : ℕ) (x y : Step) (a b : Access) → slice_get trace i ≡ Some x → slice_get trace j ≡ Some y
        → x.access ≡ Some a → y.access ≡ Some b → a.variable ≡ b.variable → (a.writes ≡ true) ⊎ (b.writes ≡ true) → i < j
        → (Before trace i j → ⊥) → IsRace trace i j }
    ensures once { (trace : List Step) (i j : ℕ) → IsRace trace i j → (i < j) × (IsRace trace j i → ⊥) }
{}

/// No other steps do: none of which one is before the other, none of one worker, none without an access, no two reads, and no accesses
/// of two variables.
pub fn other_steps_never_race()
    ensures ordered { (trace : List Step) (i j : ℕ) → IsRace trace i j → (Before trace i j → ⊥) × (Before trace j i → ⊥) }
    ensures own { (trace : List Step) (i j : ℕ) → IsOwn trace i j → IsRace trace i j → ⊥ }
    ensures first { (trace : List Step) (i j : ℕ) (x : Step) → slice_get trace i ≡ Some x → x.access ≡ None → IsRace trace i j → ⊥ }
    ensures second { (trace : List Step) (i j : ℕ) (y : Step) → slice_get trace j ≡ Some y → y.access ≡ None → IsRace trace i j → ⊥ }
    ensures reads { (trace : List Step) (i j : ℕ) (x y : Step) (a b : Access) → slice_get trace i ≡ Some x → slice_get trace j ≡ Some y
        → x.access ≡ Some a → y.access ≡ Some b → a.writes ≡ false → b.writes ≡ false → IsRace trace i j → ⊥ }
    ensures variables { (trace : List Step) (i j : ℕ) (x y : Step) (a b : Access) → slice_get trace i ≡ Some x → slice_get trace j ≡ Some y
        → x.access ≡ Some a → y.access ≡ Some b → a.variable ≢ b.variable → IsRace trace i j → ⊥ }
{}

/// A list of a trace's races has just these, each once. Their later steps never fall along the list, and the earlier steps of one later
/// step rise. So a trace has one such list.
pub fn a_trace_has_one_list_of_races()
    ensures races { (trace : List Step) (races : List Race) → AreRaces trace races → (i j : ℕ) → Contains races (race i j) ↔ IsRace trace i j }
    ensures once { (trace : List Step) (races : List Race) → AreRaces trace races → (m n : ℕ) (r : Race)
        → slice_get races m ≡ Some r → slice_get races n ≡ Some r → m ≡ n }
    ensures later { (trace : List Step) (races : List Race) → AreRaces trace races → (m n : ℕ) (r s : Race) → m < n
        → slice_get races m ≡ Some r → slice_get races n ≡ Some s → r.later ≤ s.later }
    ensures earlier { (trace : List Step) (races : List Race) → AreRaces trace races → (m n : ℕ) (r s : Race) → m < n
        → slice_get races m ≡ Some r → slice_get races n ≡ Some s → r.later ≡ s.later → r.earlier < s.earlier }
    ensures one { (trace : List Step) (a b : List Race) → AreRaces trace a → AreRaces trace b → a ≡ b }
{}
