// How streams end.

/// How a stream ended.
#[derive(Clone, Copy, Debug, PartialEq, Eq)]
pub enum StreamEnd {
    /// The input ended between two requests, or the reply to a request that ends the stream was written.
    Done,
    /// A reply that ends the stream was written, since what stood at its front was no request that may be asked.
    Refused,
    /// The source failed where more was wanted.
    ReadFault,
    /// The sink failed. A front of what was due was written.
    WriteFault,
    /// The handler had no reply and ended the stream.
    Spent,
    /// There was no memory for a head or a body. The reply that says so was written, or a front of it.
    Memory,
}
