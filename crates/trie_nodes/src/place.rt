//! Where a walk through all slots of a map stands.
ghost use Rattle.std.specs.Prelude.{◌≡◌, ℕ, suc, ◌<◌, ◌≤◌, length, slice_index};

/// The nodes from a map's root down, and in each a slot: in the last one the slot where the walk stands, or 16 where it has
/// passed all; in each other one the slot by which it went down.
#[derive(Drop)]
pub struct Place {
    pub(crate) nodes: [u64; 8],
    pub(crate) slots: [u32; 8],
    pub(crate) depth: usize,
    ghost wide: { (length nodes ≡ 8) × (length slots ≡ 8) },
    ghost some: { 0 < depth },
    ghost few: { depth ≤ 8 },
    ghost slots_end: { (i : ℕ) → slice_index slots i ≤ 16 },
    ghost entered: { (i : ℕ) → suc i < depth → slice_index slots i < 16 },
}
