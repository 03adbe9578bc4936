// What a request is refused with.

ghost use Rattle.std.specs.Prelude.{◌≡◌, IfOk};
ghost use Rattle.http_messages.specs.Replies.{refused_body};
ghost use Rattle.desk_routes.specs.Faults.{reply_of, status_of, word_of};

use http::StatusCode;
use http_messages::{MediaType, Method, Reply};
use std::alloc::{AllocError, Global};

/// Why a request asks nothing of the desk.
#[derive(Clone, Copy, Debug, PartialEq, Eq)]
pub enum RouteFault {
    /// No route has its target.
    NoRoute,
    /// The route has another method.
    BadMethod {
        /// That method.
        allow: Method,
    },
    /// On a route of chairs, not exactly one field X-Chair, or one that is no name of a chair.
    BadChair,
    /// On a command, not exactly one field X-Number, or one that is no canonical number of 64 bits.
    BadNumber,
    /// On an edit or a submit, not exactly one field X-Base, or one that is no canonical number of 64 bits.
    BadBase,
}

/// Why a request wasn't read.
#[derive(Clone, Copy, Debug, PartialEq, Eq)]
pub enum AskFault {
    /// It is refused.
    Refused(RouteFault),
    /// Memory was wanting.
    Memory,
}

// The body of a refusal that has a word alone.
#[tactic(auto, unfolding(http_messages::specs::Replies::refused_body))]
fn refused_body(alloc: Global, word: &str) -> Result<Vec<u8>, AllocError>
    ensures { IfOk result (λ body. body.items ≡ refused_body word.now) }
{
    let mut body = Vec::from_slice(alloc, b"{\"refused\":\"")?;
    body.extend_from_slice(word.as_bytes())?;
    body.extend_from_slice(b"\"}")?;
    Ok(body)
}

impl RouteFault {
    /// The status code of the refusal.
    pub fn status(self) -> StatusCode
        ensures { result ≡ status_of self }
    {
        match self {
            RouteFault::NoRoute => StatusCode::NOT_FOUND,
            RouteFault::BadMethod { .. } => StatusCode::METHOD_NOT_ALLOWED,
            RouteFault::BadChair => StatusCode::BAD_REQUEST,
            RouteFault::BadNumber => StatusCode::BAD_REQUEST,
            RouteFault::BadBase => StatusCode::BAD_REQUEST,
        }
    }

    /// Its word.
    pub fn word(self) -> &'static str
        ensures { result.now ≡ word_of self }
    {
        match self {
            RouteFault::NoRoute => "no-route",
            RouteFault::BadMethod { .. } => "bad-method",
            RouteFault::BadChair => "bad-chair",
            RouteFault::BadNumber => "bad-number",
            RouteFault::BadBase => "bad-base",
        }
    }

    /// The refusal. Where the route has another method, the reply names it.
    pub fn reply(self, alloc: Global) -> Result<Reply, AllocError>
        ensures { IfOk result (λ reply. reply ≡ reply_of self) }
    {
        let body = refused_body(alloc, self.word())?;
        let reply = Reply::new(self.status(), MediaType::Json, body);
        match self {
            RouteFault::BadMethod { allow } => Ok(reply.allowing(allow)),
            _ => Ok(reply),
        }
    }
}
