//! What a call of a workload answers.
use script_calls::Reply;
use sync_model::Answer;
use sync_types::Misuse;

/// The answer to a call of a workload.
pub type CallAnswer = Answer<Result<Reply<u32>, Misuse>>;
