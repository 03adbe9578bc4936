// What answers requests.

ghost use Rattle.std.specs.Prelude.{Result};
ghost use Rattle.http_messages.specs.Replies.{ReplyValue};
ghost use Rattle.http_messages.specs.Requests.{RequestValue};
ghost use Rattle.http_stream.specs.declared.handler.HandleFault.{HandleFault};

use http_messages::{Reply, Request};
use std::alloc::Global;

/// Why a request has no reply of the handler's.
#[derive(Clone, Copy, Debug, PartialEq, Eq)]
pub enum HandleFault {
    /// Memory was wanting. The reply is 507 `memory`, and the stream goes on.
    Memory,
    /// No reply is written, and the stream ends.
    Spent,
}

/// What answers requests.
pub trait Handler {
    /// What a call does: from a state, by a request, with an answer, to a state.
    ghost does: { Self → RequestValue → Result ReplyValue HandleFault → Self → Type 0 };

    /// What a call needs of the state, and keeps.
    ghost ready: { Self → Type 0 };

    /// Answers a request.
    fn handle(&mut self, alloc: Global, request: Request) -> Result<Reply, HandleFault>
        requires { ready self.old }
        ensures does { does self.old request result self.new }
        ensures ready { ready self.new };
}
