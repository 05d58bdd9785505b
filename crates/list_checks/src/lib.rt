//! Which calls a worker's own list of items spells, along a run of its script: the definition's own question, decided over a plain list.
#![tactic(auto)]

pub mod spell;
