// A session: a stream over a desk.

ghost use Rattle.std.specs.Prelude.{◌≡◌, ◌≢◌, Bool, List, [], IsSome, None, true, ℕ};
ghost use Rattle.edge_io.specs.Counts.{Rose};
ghost use Rattle.edge_io.specs.Told.{told};
ghost use Rattle.desk_keeper.specs.Keepers.{Tells};
ghost use Rattle.desk_history.specs.Histories.{held};
ghost use Rattle.desk_history.specs.Opened.{IsLegal};
ghost use Rattle.desk_history.specs.Rows.{rows};
ghost use Rattle.desk_laws.specs.Best.{EachBest};
ghost use Rattle.desk_laws.specs.Evidence.{EachPublished};
ghost use Rattle.desk_routes.specs.declared.places.Routes.TheVariants.{ChairsAndWorker};
ghost use Rattle.http_stream.specs.declared.intake.TheConstants.{MOST_STREAM_BYTES};
ghost use Rattle.http_stream.specs.Exchanges.{Exchange, Trail};
ghost use Rattle.http_stream.specs.Intakes.{Added};
ghost use Rattle.http_stream.specs.Streams.{Wrote};
ghost use Rattle.http_desk.specs.Hosts.{Passes};
ghost use Rattle.http_desk.specs.Sessions.{Serves, SessionValue};

use crate::desk_host::DeskHost;
use crate::serving::serve_stream;
use desk_keeper::Keeper;
use desk_laws::evidence_laws;
use desk_routes::Routes;
use edge_io::{Sink, Source};
use http_stream::StreamEnd;
use job_desk::Desk;
use std::alloc::Global;

// The requests of a source, served over a desk and its keeper.
fn serve<S: Source, K: Sink, P: Keeper>(
    alloc: Global,
    source: &mut S,
    sink: &mut K,
    desk: &mut Desk,
    keeper: &mut P,
) -> StreamEnd
    requires told { Tells (P.rows keeper.old) (rows desk.old.history) }
    requires bench { held desk.old.history 0 ≡ None }
    ensures stream { (trail : List Exchange) × Trail (Passes Serves ChairsAndWorker) (record { desk = desk.old; faults = P.faults keeper.old }) trail (record { desk = desk.new; faults = P.faults keeper.new }) × (bytes : List ℕ) × (out : List ℕ) × (over : Bool) × Added (S.given source.old) (S.given source.new) bytes × Added (K.taken sink.old) (K.taken sink.new) out × (over ≡ true → told (S.left source.new) ≡ []) × Wrote MOST_STREAM_BYTES over bytes trail result out }
    ensures told { Tells (P.rows keeper.new) (rows desk.new.history) }
    ensures untold { IsSome (P.rows keeper.new) → IsSome (P.rows keeper.old) }
    ensures read_fault { result ≡ StreamEnd.ReadFault → Rose (S.faults source.old) (S.faults source.new) }
    ensures write_fault { result ≡ StreamEnd.WriteFault → Rose (K.faults sink.old) (K.faults sink.new) }
{
    let mut host = DeskHost {
        given: None,
        desk,
        keeper,
    };
    let end = serve_stream(alloc, source, sink, &mut host, Routes::ChairsAndWorker);
    let DeskHost {
        given: _given,
        desk: _desk,
        keeper: _keeper,
    } = host;
    end
}

/// Serves the requests of a source over a desk and its keeper: those of its chairs, and worker steps, which are those of bench 0. What a
/// take gave is kept until the finish or the release: a finish solves the rules that were taken, whatever was edited meanwhile. A
/// finish without a job is refused.
///
/// `stream`: what each request did to the desk, in their order, with which replies, and, where source and sink tell their bytes, what
/// was written for the bytes that the source gave in this call. `over` says that the source had nothing left.
pub fn session<S: Source, K: Sink, P: Keeper>(
    alloc: Global,
    source: &mut S,
    sink: &mut K,
    desk: &mut Desk,
    keeper: &mut P,
) -> StreamEnd
    requires told { Tells (P.rows keeper.old) (rows desk.old.history) }
    requires bench { held desk.old.history 0 ≡ None }
    ensures stream { (trail : List Exchange) × Trail (Passes Serves ChairsAndWorker) (record { desk = desk.old; faults = P.faults keeper.old }) trail (record { desk = desk.new; faults = P.faults keeper.new }) × (bytes : List ℕ) × (out : List ℕ) × (over : Bool) × Added (S.given source.old) (S.given source.new) bytes × Added (K.taken sink.old) (K.taken sink.new) out × (over ≡ true → told (S.left source.new) ≡ []) × Wrote MOST_STREAM_BYTES over bytes trail result out }
    ensures told { Tells (P.rows keeper.new) (rows desk.new.history) }
    ensures untold { IsSome (P.rows keeper.new) → IsSome (P.rows keeper.old) }

    // The chairs stay, the history is legal, and each publication is of a certified lottery, which is best under the rules of its edition.
    ensures chairs { desk.new.chairs ≡ desk.old.chairs }
    ensures legal { IsLegal desk.new.chairs desk.new.history }
    ensures published { EachPublished desk.new.history }
    ensures best { EachBest desk.new.history }

    // Each request has a reply, or the stream ended for another cause.
    ensures answered { result ≢ StreamEnd.Spent }
    ensures read_fault { result ≡ StreamEnd.ReadFault → Rose (S.faults source.old) (S.faults source.new) }
    ensures write_fault { result ≡ StreamEnd.WriteFault → Rose (K.faults sink.old) (K.faults sink.new) }
{
    evidence_laws();
    let end = serve(alloc, source, sink, desk, keeper);
    // The history is legal.
    let _entries = desk.entries();
    end
}
