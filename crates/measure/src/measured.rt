//! What is measured: a pair of calls on an object.
ghost use Rattle.std.specs.Prelude.{All, IfOk};

use crate::fresh::Fresh;
use crate::plan::Plan;
use std::alloc::{AllocError, Global};
use std::sync::Wait;
use sync_outside::Clock;

/// An object of Go's, on which each caller makes a pair of calls again and again.
pub trait Measured: Sized + Sync + Drop {
    /// The pass of a caller.
    type Pass: Send + Drop;

    /// What a caller keeps from one pair to the next.
    type Kept: Fresh + Send + Drop;

    // It is a pass to this object, between two calls.
    ghost has_pass: { Self → Self.Pass → Type 0 };

    /// An object for a measurement, and the passes of its callers, each good for all pairs.
    fn new(alloc: Global, plan: Plan) -> Result<(Self, Vec<Self::Pass>), AllocError>
        ensures { IfOk result (λ made. All (has_pass made.0) made.1.items) };

    /// Gives the object what it is to have before the first pair.
    fn fill<R: Wait>(&self, _rt: &R, _pass: &mut Self::Pass)
        requires { has_pass self.now _pass.old }
        ensures { has_pass self.now _pass.new }
    {}

    /// Makes the pair of calls. A pass with no two calls left makes none.
    fn pair<C: Clock, R: Wait>(
        &self,
        rt: &R,
        clock: &C,
        pass: &mut Self::Pass,
        kept: &mut Self::Kept,
    )
        requires { has_pass self.now pass.old }
        ensures { has_pass self.now pass.new };
}
