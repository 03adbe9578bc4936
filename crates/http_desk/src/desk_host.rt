// A desk as a host.

use crate::benches::ask;
use crate::host::Host;
use desk_history::Snapshot;
use desk_keeper::Keeper;
use desk_routes::Asked;
use http_messages::Reply;
use http_stream::HandleFault;
use job_desk::Desk;
use std::alloc::Global;

// A desk with its keeper, and what its bench was given. What is owned stands before the references: the end of a reference with such a
// field behind it isn't tied to the caller's value.
pub(crate) struct DeskHost<'d, 'k, P: Keeper> {
    pub(crate) given: Option<Snapshot>,
    pub(crate) desk: &'d mut Desk,
    pub(crate) keeper: &'k mut P,
}

impl<'d, 'k, P: Keeper> Host for DeskHost<'d, 'k, P> {
    ghost use Rattle.std.specs.Prelude.{◌≡◌, IsSome};
    ghost use Rattle.desk_keeper.specs.Keepers.{Tells};
    ghost use Rattle.desk_history.specs.Rows.{rows};
    ghost use Rattle.desk_routes.specs.declared.places.Routes.TheVariants.{ChairsAndWorker};
    ghost use Rattle.http_desk.specs.Given.{IsGiven};
    ghost use Rattle.http_desk.specs.Sessions.{Serves, SessionValue};

    ghost does = { λ old asked answer new. Serves (record { desk = old.desk.now; faults = P.faults old.keeper.now }) asked answer (record { desk = new.desk.now; faults = P.faults new.keeper.now }) × (new.desk.ghost_name ≡ old.desk.ghost_name) × (new.keeper.ghost_name ≡ old.keeper.ghost_name) × (IsSome (P.rows new.keeper.now) → IsSome (P.rows old.keeper.now)) };

    ghost ready = { λ h. Tells (P.rows h.keeper.now) (rows h.desk.now.history) × IsGiven h.desk.now.history h.given };

    ghost routes = { λ _. ChairsAndWorker };

    fn ask(&mut self, alloc: Global, asked: Asked) -> Result<Reply, HandleFault> {
        ask(alloc, self.desk, self.keeper, &mut self.given, asked)
    }
}
