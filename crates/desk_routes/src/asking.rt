// What a request asks of the desk.

ghost use Rattle.std.specs.Prelude.{◌≡◌, codes};
ghost use Rattle.std.specs.Option.{ok_or};
ghost use Rattle.std.specs.Str.{bytes_eq};
ghost use Rattle.desk_routes.specs.Asking.{allows, asked_at, asked_of, asks, base_of, method_of, method_word, signed_by};
ghost use Rattle.desk_routes.specs.Faults.{Asks};
ghost use Rattle.desk_routes.specs.Fields.{chair_of};

use crate::faults::{AskFault, RouteFault};
use crate::fields::{chair_of, number_of};
use crate::places::{Asked, Look, Place, Routes, Signed};
use crate::targets::place_of;
use desk_keeper::{Bytes, Command, EditWords, HowWords, Name, Named, TableWords};
use http_messages::{Field, Method, Request};
use match_rules::Mode;
use std::alloc::Global;

fn method_of(place: &Place) -> Method
    ensures { result ≡ method_of place.now }
{
    match place {
        Place::Look(_) => Method::Get,
        _ => Method::Post,
    }
}

fn is_method(word: &[u8], method: Method) -> bool
    ensures { result ≡ bytes_eq word.now (method_word method) }
{
    match method {
        Method::Get => word == b"GET".as_slice(),
        Method::Post => word == b"POST".as_slice(),
    }
}

// The name of the chair that the fields name.
fn caller_of(alloc: Global, fields: &[Field]) -> Result<Name, AskFault>
    ensures { Asks result (ok_or (chair_of fields.now) RouteFault.BadChair) }
{
    let Some(name) = chair_of(fields) else {
        return Err(AskFault::Refused(RouteFault::BadChair));
    };
    match Name::read(alloc, name) {
        Ok(caller) => Ok(caller),
        Err(_) => Err(AskFault::Memory),
    }
}

fn signed_by(alloc: Global, fields: &[Field]) -> Result<Signed, AskFault>
    ensures { Asks result (signed_by fields.now) }
{
    let caller = match caller_of(alloc, fields) {
        Ok(caller) => caller,
        Err(fault) => return Err(fault),
    };
    match number_of(fields, "X-Number") {
        Some(number) => Ok(Signed { caller, number }),
        None => Err(AskFault::Refused(RouteFault::BadNumber)),
    }
}

fn base_of(fields: &[Field]) -> Result<u64, AskFault>
    ensures { Asks result (base_of fields.now) }
{
    match number_of(fields, "X-Base") {
        Some(base) => Ok(base),
        None => Err(AskFault::Refused(RouteFault::BadBase)),
    }
}

impl Signed {
    fn asks(self, command: Command) -> Asked
        ensures { result ≡ asks self command }
    {
        Asked::Do(Named {
            caller: self.caller,
            number: self.number,
            command,
        })
    }
}

fn edit(
    alloc: Global,
    table: TableWords,
    how: HowWords,
    request: Request,
) -> Result<Asked, AskFault>
    ensures { Asks result (asked_at (Place.Edit table how) request.fields request.body) }
{
    let signed = match signed_by(alloc, request.fields()) {
        Ok(signed) => signed,
        Err(fault) => return Err(fault),
    };
    let base = match base_of(request.fields()) {
        Ok(base) => base,
        Err(fault) => return Err(fault),
    };
    let body = Bytes::from_vec(request.into_body());
    let edit = EditWords { table, how, body };
    Ok(signed.asks(Command::Edit { base, edit }))
}

fn submit(alloc: Global, mode: Mode, request: &Request) -> Result<Asked, AskFault>
    ensures { Asks result (asked_at (Place.Submit mode) request.now.fields request.now.body) }
{
    let signed = match signed_by(alloc, request.fields()) {
        Ok(signed) => signed,
        Err(fault) => return Err(fault),
    };
    match base_of(request.fields()) {
        Ok(base) => Ok(signed.asks(Command::Submit { base, mode })),
        Err(fault) => Err(fault),
    }
}

fn publish(alloc: Global, job: u64, request: &Request) -> Result<Asked, AskFault>
    ensures { Asks result (asked_at (Place.Publish job) request.now.fields request.now.body) }
{
    match signed_by(alloc, request.fields()) {
        Ok(signed) => Ok(signed.asks(Command::Publish { job })),
        Err(fault) => Err(fault),
    }
}

fn draw(alloc: Global, publication: u64, request: Request) -> Result<Asked, AskFault>
    ensures { Asks result (asked_at (Place.Draw publication) request.fields request.body) }
{
    let signed = match signed_by(alloc, request.fields()) {
        Ok(signed) => signed,
        Err(fault) => return Err(fault),
    };
    let text = Bytes::from_vec(request.into_body());
    Ok(signed.asks(Command::Draw { publication, text }))
}

fn look(alloc: Global, what: Look, request: &Request) -> Result<Asked, AskFault>
    ensures { Asks result (asked_at (Place.Look what) request.now.fields request.now.body) }
{
    match caller_of(alloc, request.fields()) {
        Ok(caller) => Ok(Asked::Look { caller, what }),
        Err(fault) => Err(fault),
    }
}

fn asked_at(alloc: Global, place: Place, request: Request) -> Result<Asked, AskFault>
    ensures { Asks result (asked_at place request.fields request.body) }
{
    match place {
        Place::Edit { table, how } => edit(alloc, table, how, request),
        Place::Submit { mode } => submit(alloc, mode, &request),
        Place::Publish { job } => publish(alloc, job, &request),
        Place::Draw { publication } => draw(alloc, publication, request),
        Place::Look(what) => look(alloc, what, &request),
        Place::Take => Ok(Asked::Take),
        Place::Finish => Ok(Asked::Finish),
        Place::Release => Ok(Asked::Release),
    }
}

/// What a request asks of a desk that serves these routes. Its target is tested first, then its method, then its fields. The
/// body of an edit and of a draw is moved into the command; any other is dropped.
#[tactic(auto, unfolding(crate::specs::Asking::asked_of))]
pub fn asked(alloc: Global, request: Request, routes: Routes) -> Result<Asked, AskFault>
    ensures { Asks result (asked_of routes request) }
{
    let place = match place_of(alloc, routes, request.target()) {
        Ok(place) => place,
        Err(fault) => return Err(fault),
    };
    let allow = method_of(&place);
    if !is_method(request.method(), allow) {
        return Err(AskFault::Refused(RouteFault::BadMethod { allow }));
    }
    asked_at(alloc, place, request)
}
