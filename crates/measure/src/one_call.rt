//! Calls on maps and atomics that callers share, in the place of a pair.
ghost use Rattle.std.specs.Prelude.{◌<◌};

use crate::fresh::Fresh;
use crate::map_and_int::{KEYS, MapAndInt};
use crate::measured::Measured;
use crate::plan::Plan;
use std::alloc::{AllocError, Global};
use std::marker::PhantomData;
use std::sync::Wait;
use sync_model::Caller;
use sync_outside::Clock;

/// How many keys are each caller's own. Of eight callers two have the same.
const OWN_KEYS: u32 = 128;

/// How many keys are stored and deleted where they are many.
const WIDE_KEYS: u32 = 4_096;

/// How many rounds there are, before they begin again: in half of them the many keys are stored.
const ROUNDS: u32 = 2 * WIDE_KEYS;

/// A key's path by seed 0 is the key, the low nibble first. This is 1 in the last nibble.
const LAST_NIBBLE: u32 = 1 << 28;

/// A call that is made again and again.
pub trait OneCall: Send + Sync + Drop {
    /// How many keys the map has before the first call, from 0.
    fn keys_before() -> u32 {
        KEYS
    }

    /// Makes it for the round of this number, 0 to 8,191, and answers whether it did what was expected.
    fn make<S: MapAndInt, R: Wait>(rt: &R, on: &S, by: &mut Caller<S::Mark>, round: u32) -> bool
        requires { S.has_caller on.now by.old × (round < 8_192) }
        ensures { S.has_caller on.now by.new };
}

// The caller's own key for a round.
fn own_key(number: u32, round: u32) -> u32 {
    OWN_KEYS * (number % 4) + round % OWN_KEYS
}

/// A load of each of the 512 keys in turn.
#[derive(Drop)]
pub struct Load;

impl OneCall for Load {
    fn make<S: MapAndInt, R: Wait>(rt: &R, on: &S, by: &mut Caller<S::Mark>, round: u32) -> bool {
        on.load(rt, by, round % KEYS)
    }
}

/// A store under each of the caller's own 128 keys in turn.
#[derive(Drop)]
pub struct Store;

impl OneCall for Store {
    fn make<S: MapAndInt, R: Wait>(rt: &R, on: &S, by: &mut Caller<S::Mark>, round: u32) -> bool {
        on.store_if_room(rt, by, own_key(by.number(), round))
    }
}

/// A store under each of the caller's own 128 keys in turn, and its deletion.
#[derive(Drop)]
pub struct Churn;

impl OneCall for Churn {
    fn make<S: MapAndInt, R: Wait>(rt: &R, on: &S, by: &mut Caller<S::Mark>, round: u32) -> bool {
        let key = own_key(by.number(), round);
        if !on.store_if_room(rt, by, key) {
            return false;
        }
        on.delete_if_room(rt, by, key)
    }
}

/// A store under each of the caller's own two keys, and the deletion of both. All callers' keys have one path but for its last
/// nibble: the second of them in the map takes seven nodes, which are pruned once the last is deleted.
#[derive(Drop)]
pub struct Path;

impl OneCall for Path {
    fn keys_before() -> u32 {
        0
    }

    fn make<S: MapAndInt, R: Wait>(rt: &R, on: &S, by: &mut Caller<S::Mark>, _round: u32) -> bool {
        let first = LAST_NIBBLE * (2 * (by.number() % 8));
        let second = first + LAST_NIBBLE;
        if !on.store_if_room(rt, by, first) || !on.store_if_room(rt, by, second) {
            return false;
        }
        if !on.delete_if_room(rt, by, first) {
            return false;
        }
        on.delete_if_room(rt, by, second)
    }
}

/// A store under each of 4,096 keys in turn, then the deletion of each in turn, and so on: one call a round. Each caller is 512
/// keys ahead of the one before it.
#[derive(Drop)]
pub struct Wide;

impl OneCall for Wide {
    fn keys_before() -> u32 {
        0
    }

    fn make<S: MapAndInt, R: Wait>(rt: &R, on: &S, by: &mut Caller<S::Mark>, round: u32) -> bool {
        let key = (512 * (by.number() % 8) + round) % WIDE_KEYS;
        if round < WIDE_KEYS {
            return on.store_if_room(rt, by, key);
        }
        on.delete_if_room(rt, by, key)
    }
}

/// Each tenth call is a store under one of the caller's own 128 keys, and the others are loads of the 512 keys in turn.
#[derive(Drop)]
pub struct Mix;

impl OneCall for Mix {
    fn make<S: MapAndInt, R: Wait>(rt: &R, on: &S, by: &mut Caller<S::Mark>, round: u32) -> bool {
        if round % 10 < 9 {
            return on.load(rt, by, round % KEYS);
        }
        on.store_if_room(rt, by, own_key(by.number(), round))
    }
}

/// An addition of 1 to the int64.
#[derive(Drop)]
pub struct Add;

impl OneCall for Add {
    fn make<S: MapAndInt, R: Wait>(rt: &R, on: &S, by: &mut Caller<S::Mark>, _round: u32) -> bool {
        on.add(rt, by);
        true
    }
}

/// The round of a caller, 0 to 8,191 and then 0 again.
#[derive(Drop)]
pub struct Round {
    number: u32,
    ghost below: { number < 8_192 },
}

impl Fresh for Round {
    fn fresh(_callers: u32) -> Self {
        Round { number: 0 }
    }
}

/// A map and an int64, on which all callers make one and the same call.
#[derive(Drop)]
pub struct On<S: MapAndInt, K: OneCall> {
    shared: S,
    of: PhantomData<K>,
}

impl<S: MapAndInt, K: OneCall> Measured for On<S, K> {
    type Pass = Caller<S::Mark>;

    type Kept = Round;

    ghost has_pass = { λ on caller. S.has_caller on.shared caller };

    fn new(alloc: Global, plan: Plan) -> Result<(Self, Vec<Caller<S::Mark>>), AllocError> {
        let spare = [plan.stores + KEYS; 8];
        let (shared, callers) = S::new(alloc, &spare[..plan.how.callers()])?;
        Ok((
            On {
                shared,
                of: PhantomData,
            },
            callers,
        ))
    }

    fn fill<R: Wait>(&self, rt: &R, caller: &mut Caller<S::Mark>) {
        for key in 0..K::keys_before() {
            self.shared.store_if_room(rt, caller, key);
        }
    }

    fn pair<C: Clock, R: Wait>(
        &self,
        rt: &R,
        _clock: &C,
        caller: &mut Caller<S::Mark>,
        round: &mut Round,
    ) {
        if K::make(rt, &self.shared, caller, round.number) {
            round.number = (round.number + 1) % ROUNDS;
        }
    }
}
