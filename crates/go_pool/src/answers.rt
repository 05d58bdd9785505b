//! What a pool's calls answer, by what its protocol gives.
ghost use Rattle.std.specs.Prelude.{◌≡◌};
ghost use Rattle.call_loop.specs.Calls.{told};
ghost use Rattle.go_pool.specs.PoolAnswers.{look_of, put_of, sweep_of};

use pool_core::PoolPut;
use protocols::PoolOutcome;
use sync_model::Answer;
use sync_types::Misuse;

type Given = Answer<Result<PoolOutcome, Misuse>>;

// Of a put.
pub(crate) fn kept_or_dropped(answer: Given) -> Answer<PoolPut>
    ensures { result ≡ told put_of answer }
{
    match answer {
        Answer::Done(Ok(PoolOutcome::Dropped(item))) => Answer::Done(PoolPut::Dropped(item)),
        Answer::Done(_) => Answer::Done(PoolPut::Kept),
        Answer::Halted(misuse) => Answer::Halted(misuse),
    }
}

// Of a look: the item that it took.
pub(crate) fn looked(answer: Given) -> Answer<Option<u64>>
    ensures { result ≡ told look_of answer }
{
    match answer {
        Answer::Done(Ok(PoolOutcome::Item(item))) => Answer::Done(Some(item)),
        Answer::Done(_) => Answer::Done(None),
        Answer::Halted(misuse) => Answer::Halted(misuse),
    }
}

// Of a sweep.
pub(crate) fn swept(answer: Given) -> Answer<()>
    ensures { result ≡ told sweep_of answer }
{
    match answer {
        Answer::Done(_) => Answer::Done(()),
        Answer::Halted(misuse) => Answer::Halted(misuse),
    }
}
