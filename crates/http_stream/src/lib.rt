// A stream of HTTP/1.1 requests, served to what answers them.
#![tactic(auto)]

mod ending;
mod handler;
mod intake;
mod stop;
mod stream;
mod taking;

pub use ending::StreamEnd;
pub use handler::{HandleFault, Handler};
pub use intake::MOST_STREAM_BYTES;
pub use stream::serve_stream;
