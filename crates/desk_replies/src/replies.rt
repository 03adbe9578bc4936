// The reply to a request.

ghost use Rattle.std.specs.Prelude.{◌≡◌, IfOk};
ghost use Rattle.desk_replies.specs.Accepted.{ShowsRight};
ghost use Rattle.desk_replies.specs.Replies.{reply_of};

use crate::accepted::reply_of_answer;
use crate::refusals::reply_of_refusal;
use desk_history::{Answered, Refusal};
use http_messages::Reply;
use std::alloc::{AllocError, Global};

/// What the desk answers to a request, as a reply of HTTP, or memory is wanting.
pub fn reply_of(alloc: Global, answer: &Result<Answered, Refusal>) -> Result<Reply, AllocError>
    requires { IfOk answer.now ShowsRight }
    ensures { IfOk result (λ reply. reply ≡ reply_of answer.now) }
{
    match answer {
        Ok(answered) => reply_of_answer(alloc, answered),
        Err(refusal) => reply_of_refusal(alloc, refusal),
    }
}
