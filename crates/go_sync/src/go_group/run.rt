//! What a worker does that waits to be started.
ghost use Rattle.std.specs.Prelude.{true, IfSome, MatchOption};
ghost use Rattle.sync_model.specs.declared.answer.Answer.TheVariants.{Done};
ghost use Rattle.go_waits.specs.StartCalls.{WaitsStart};
ghost use Rattle.go_sync.specs.GoCallers.{IsNotStarted, Makes, Ran};

use super::GoCaller;
use std::sync::Wait;
use sync_model::Answer;
use sync_outside::Clock;

impl<C: Clock> GoCaller<'_, C> {
    /// The function's part in Go's `WaitGroup.Go`: waits until the worker is started, calls the function, and is done. `None` where nobody
    /// is live any more who could start it, or the starts were halted. The function is called only where its condition holds once the
    /// worker was told to go.
    pub fn run<A, F: FnOnce() -> A + Drop, R: Wait>(&mut self, rt: &R, function: F) -> Option<A>
        requires { (live : _) → Makes WaitsStart self.old (Done true) live → F.pre function }
        ensures ran { MatchOption result (IsNotStarted self.old self.new) (λ _. Ran self.old self.new) }
        ensures answered { IfSome result (λ answer. F.post function answer) }
    {
        match self.wait_start(rt) {
            Answer::Done(true) => {}
            Answer::Done(false) => return None,
            Answer::Halted(_) => return None,
        }
        let answer = function();
        self.done(rt);
        self.end(rt);
        Some(answer)
    }
}
