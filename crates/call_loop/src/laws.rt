//! What holds of the fronts along one caller's entries.
ghost use Rattle.std.specs.Prelude.{◌≡◌, ℕ, ◌<◌, List, Some, slice_get};
ghost use Rattle.sync_model.specs.declared.journal.Entry.{Entry};
ghost use Rattle.sync_model.specs.Front.{Front, NoLess, Later};
ghost use Rattle.sync_model.specs.Journal.{front_at, Rising};

use protocols::Protocol;

/// What a caller knows never gets less, and the numbers of its entries rise. Along entries whose fronts rise, from one front to
/// another, of any two the earlier one has the lower number and knows no more; each has a number past that of the front that
/// they begin with, and knows no less; and the front that they end with has no lower number and knows no less than any of
/// them.
pub fn fronts_rise<P: Protocol>()
    ensures any_two { (from to : Front) (entries : List (Entry P.Event P.Reply)) (i j : ℕ) (earlier later : Entry P.Event P.Reply)
        → Rising from entries to → i < j → slice_get entries i ≡ Some earlier → slice_get entries j ≡ Some later
        → Later (front_at later) (front_at earlier) }
    ensures begins { (from to : Front) (entries : List (Entry P.Event P.Reply)) (i : ℕ) (entry : Entry P.Event P.Reply)
        → Rising from entries to → slice_get entries i ≡ Some entry → Later (front_at entry) from }
    ensures ends { (from to : Front) (entries : List (Entry P.Event P.Reply)) (i : ℕ) (entry : Entry P.Event P.Reply)
        → Rising from entries to → slice_get entries i ≡ Some entry → NoLess to (front_at entry) }
    ensures whole { (from to : Front) (entries : List (Entry P.Event P.Reply))
        → Rising from entries to → NoLess to from }
{}
