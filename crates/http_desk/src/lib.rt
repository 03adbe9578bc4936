// A stream of HTTP/1.1 requests, served over a host of the desk's routes; and a session, which serves it over a desk.
#![tactic(auto)]

mod benches;
mod desk_host;
mod host;
mod laws;
mod looks;
mod routed;
mod serving;
mod sessions;
mod worker;

pub use host::Host;
pub use laws::session_laws;
pub use serving::serve_stream;
pub use sessions::session;
