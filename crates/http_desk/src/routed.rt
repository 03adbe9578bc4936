// The host behind its routes.

ghost use Rattle.std.specs.Prelude.{◌≡◌};
ghost use Rattle.desk_routes.specs.Faults.{reply_of};
ghost use Rattle.desk_routes.specs.Served.{ServeWorker};
ghost use Rattle.http_desk.specs.Hosts.{Passes, Replies};

use crate::host::Host;
use desk_routes::{AskFault, RouteFault, Routes, asked, route_laws};
use http_messages::{Reply, Request};
use http_stream::{HandleFault, Handler};
use std::alloc::Global;

// A host, and the routes that are served over it.
#[derive(Drop)]
pub(crate) struct Routed<'a, H: Host> {
    pub(crate) host: &'a mut H,
    pub(crate) routes: Routes,
}

// The reply to a request that asks nothing.
fn refuse(alloc: Global, fault: RouteFault) -> Result<Reply, HandleFault>
    ensures { Replies (reply_of fault) result }
{
    match fault.reply(alloc) {
        Ok(reply) => Ok(reply),
        Err(_) => Err(HandleFault::Memory),
    }
}

// Asks the host what a request asks, or refuses the request.
fn pass<H: Host>(
    alloc: Global,
    host: &mut H,
    routes: Routes,
    request: Request,
) -> Result<Reply, HandleFault>
    requires ready { H.ready host.old }
    requires worker { ServeWorker routes → ServeWorker (H.routes host.old) }
    ensures passes { Passes H.does routes host.old request result host.new }
    ensures ready { H.ready host.new }
    ensures same { H.routes host.new ≡ H.routes host.old }
{
    route_laws();
    match asked(alloc, request, routes) {
        Ok(asked) => host.ask(alloc, asked),
        Err(AskFault::Refused(fault)) => refuse(alloc, fault),
        Err(AskFault::Memory) => Err(HandleFault::Memory),
    }
}

impl<'a, H: Host> Handler for Routed<'a, H> {
    ghost use Rattle.std.specs.Prelude.{◌≡◌};
    ghost use Rattle.desk_routes.specs.Served.{ServeWorker};
    ghost use Rattle.http_desk.specs.Hosts.{Passes};

    ghost does = { λ old request answer new. Passes H.does old.routes old.host.now request answer new.host.now × (new.routes ≡ old.routes) × (new.host.ghost_name ≡ old.host.ghost_name) × (H.routes new.host.now ≡ H.routes old.host.now) };

    ghost ready = { λ r. H.ready r.host.now × (ServeWorker r.routes → ServeWorker (H.routes r.host.now)) };

    fn handle(&mut self, alloc: Global, request: Request) -> Result<Reply, HandleFault> {
        pass(alloc, self.host, self.routes, request)
    }
}
