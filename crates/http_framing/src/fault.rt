// The faults that end a stream.

ghost use Rattle.std.specs.Prelude.{◌≡◌, ◌≤◌, length};
ghost use Rattle.edge_io.specs.Counts.{HasCause};
ghost use Rattle.edge_io.specs.Told.{AddsAll};
ghost use Rattle.http_framing.specs.Faults.{fault_text, status_of, word_of};

use edge_io::{Io, Sink};
use http::StatusCode;
use http_messages::write_refusal;

/// Why a stream of requests ends with a reply of its own.
#[derive(Clone, Copy, Debug, PartialEq, Eq)]
pub enum FrameFault {
    /// The bytes up to the first empty line are no head of HTTP/1.0 or HTTP/1.1, or one of too many fields.
    BadHead,
    /// The first bytes that a head may have are there, and no empty line ends within them.
    HeadTooLarge,
    /// The input ends in a head or in a body.
    Truncated,
    /// The version isn't HTTP/1.1.
    Version,
    /// There isn't exactly one field Host.
    Host,
    /// There is a field Transfer-Encoding.
    TransferEncoding,
    /// There are two fields Content-Length, or one that isn't one or more digits alone.
    Length,
    /// A POST has no field Content-Length.
    NoLength,
    /// The length of the body is above the greatest.
    BodyTooLarge,
    /// The stream has taken as many bytes as it may, and more are due.
    StreamTooLarge,
}

impl FrameFault {
    /// The status code of the reply.
    pub fn status(self) -> StatusCode
        ensures { result ≡ status_of self }
    {
        match self {
            FrameFault::TransferEncoding => StatusCode::NOT_IMPLEMENTED,
            FrameFault::NoLength => StatusCode::LENGTH_REQUIRED,
            FrameFault::HeadTooLarge | FrameFault::BodyTooLarge | FrameFault::StreamTooLarge => {
                StatusCode::PAYLOAD_TOO_LARGE
            }
            _ => StatusCode::BAD_REQUEST,
        }
    }

    /// The word of the reply's refusal.
    #[tactic(auto, unfolding(crate::specs::Faults::word_of))]
    pub fn word(self) -> &'static str
        ensures text { result.now ≡ word_of self }
        ensures short { length result.now ≤ 17 }
    {
        match self {
            FrameFault::BadHead => "bad-head",
            FrameFault::Truncated => "truncated",
            FrameFault::Version => "version",
            FrameFault::Host => "host",
            FrameFault::TransferEncoding => "transfer-encoding",
            FrameFault::Length => "length",
            FrameFault::NoLength => "no-length",
            FrameFault::HeadTooLarge | FrameFault::BodyTooLarge | FrameFault::StreamTooLarge => {
                "too-large"
            }
        }
    }
}

/// Writes the reply of a fault, behind which the stream ends. Takes no memory.
pub fn write_fault<K: Sink>(sink: &mut K, fault: FrameFault) -> Result<(), Io>
    ensures taken { AddsAll (K.taken sink.old) (K.taken sink.new) result (fault_text fault) }
    ensures cause { HasCause (K.faults sink.old) (K.faults sink.new) result }
{
    write_refusal(sink, fault.status(), fault.word(), true)
}
