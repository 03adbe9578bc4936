// A stream over a host.

ghost use Rattle.std.specs.Prelude.{◌≡◌, Bool, List, [], true, ℕ};
ghost use Rattle.edge_io.specs.Counts.{Rose};
ghost use Rattle.edge_io.specs.Told.{told};
ghost use Rattle.http_stream.specs.declared.intake.TheConstants.{MOST_STREAM_BYTES};
ghost use Rattle.http_stream.specs.Exchanges.{Exchange, Trail};
ghost use Rattle.http_stream.specs.Intakes.{Added};
ghost use Rattle.http_stream.specs.Streams.{Wrote};
ghost use Rattle.desk_routes.specs.Served.{ServeWorker};
ghost use Rattle.http_desk.specs.Hosts.{Passes};

use crate::host::Host;
use crate::routed::Routed;
use desk_routes::Routes;
use edge_io::{Sink, Source};
use http_stream::{StreamEnd, serve_stream as serve_requests};
use std::alloc::Global;

/// Serves the requests of a source to a host, one after the other, and writes the replies to a sink, until the stream ends. A
/// request that no route has, or whose fields are wrong, is refused without asking the host. A reply is written before the
/// next request is waited for, and what asks for a body before the body is. It takes at most 4,294,967,296 bytes.
///
/// `stream`: what was asked of the host, in which order and with which answers, and, where source and sink tell their bytes, what was
/// written for the bytes that the source gave in this call. `over` says that the source had nothing left.
pub fn serve_stream<S: Source, K: Sink, H: Host>(
    alloc: Global,
    source: &mut S,
    sink: &mut K,
    host: &mut H,
    routes: Routes,
) -> StreamEnd
    requires ready { H.ready host.old }
    requires worker { ServeWorker routes → ServeWorker (H.routes host.old) }
    ensures ready { H.ready host.new }
    ensures same { H.routes host.new ≡ H.routes host.old }
    ensures stream { (trail : List Exchange) × Trail (Passes H.does routes) host.old trail host.new × (bytes : List ℕ) × (out : List ℕ) × (over : Bool) × Added (S.given source.old) (S.given source.new) bytes × Added (K.taken sink.old) (K.taken sink.new) out × (over ≡ true → told (S.left source.new) ≡ []) × Wrote MOST_STREAM_BYTES over bytes trail result out }
    ensures read_fault { result ≡ StreamEnd.ReadFault → Rose (S.faults source.old) (S.faults source.new) }
    ensures write_fault { result ≡ StreamEnd.WriteFault → Rose (K.faults sink.old) (K.faults sink.new) }
{
    let mut routed = Routed { host, routes };
    serve_requests(alloc, source, sink, &mut routed)
}
