// What a target is for.

ghost use Rattle.std.specs.Prelude.{◌≡◌, ◌∷◌, true, false, None, Some, IsNone, IfSome};
ghost use Rattle.std.specs.Option.{ok_or, option_map};
ghost use Rattle.desk_keeper.specs.Reading.{number_in};
ghost use Rattle.std.specs.Str.{is_utf8};
ghost use Rattle.desk_routes.specs.Faults.{Asks};
ghost use Rattle.desk_routes.specs.Targets.{parts_of, one_part, job_place, worker_place, two_parts, edit_place, answer_place, three_parts, four_parts, place_in, behind_stroke, place_of};

use crate::faults::{AskFault, RouteFault};
use crate::parts::first_part;
use crate::places::{Look, Place, Routes};
use crate::words::{are_edit_words, how_in, mode_in, number_in, table_in};
use std::alloc::Global;

#[tactic(auto, unfolding(crate::specs::Targets::one_part))]
fn one_part(word: &str) -> Option<Place>
    ensures { result ≡ one_part word.now }
{
    match word {
        "edition" => Some(Place::Look(Look::Edition)),
        "rules" => Some(Place::Look(Look::Rules)),
        _ => None,
    }
}

#[tactic(auto, unfolding(crate::specs::Targets::job_place))]
fn job_place(word: &str) -> Option<Place>
    ensures { result ≡ job_place word.now }
{
    if let Some(mode) = mode_in(word) {
        return Some(Place::Submit { mode });
    }
    let job = number_in(word.as_bytes())?;
    Some(Place::Look(Look::Job { job }))
}

fn publish_place(word: &str) -> Option<Place>
    ensures { result ≡ option_map Place.Publish (number_in word.now) }
{
    let job = number_in(word.as_bytes())?;
    Some(Place::Publish { job })
}

fn draw_place(word: &str) -> Option<Place>
    ensures { result ≡ option_map Place.Draw (number_in word.now) }
{
    let publication = number_in(word.as_bytes())?;
    Some(Place::Draw { publication })
}

fn publication_place(word: &str) -> Option<Place>
    ensures { result ≡ option_map (λ number. Place.Look (Look.Publication number)) (number_in word.now) }
{
    let number = number_in(word.as_bytes())?;
    Some(Place::Look(Look::Publication { number }))
}

#[tactic(auto, unfolding(crate::specs::Targets::worker_place))]
fn worker_place(routes: Routes, word: &str) -> Option<Place>
    ensures { result ≡ worker_place routes word.now }
{
    match routes {
        Routes::Chairs => None,
        Routes::ChairsAndWorker => match word {
            "take" => Some(Place::Take),
            "finish" => Some(Place::Finish),
            "release" => Some(Place::Release),
            _ => None,
        },
    }
}

#[tactic(auto, unfolding(crate::specs::Targets::two_parts))]
fn two_parts(routes: Routes, first: &str, second: &str) -> Option<Place>
    ensures { result ≡ two_parts routes first.now second.now }
{
    match first {
        "jobs" => job_place(second),
        "publish" => publish_place(second),
        "draw" => draw_place(second),
        "publications" => publication_place(second),
        "worker" => worker_place(routes, second),
        _ => None,
    }
}

#[tactic(auto, unfolding(crate::specs::Targets::edit_place))]
fn edit_place(alloc: Global, second: &str, third: &str) -> Result<Place, AskFault>
    ensures { Asks result (ok_or (edit_place second.now third.now) RouteFault.NoRoute) }
{
    let table = match table_in(alloc, second) {
        Ok(table) => table,
        Err(fault) => return Err(fault),
    };
    let Some(how) = how_in(third) else {
        return Err(AskFault::Refused(RouteFault::NoRoute));
    };
    if !are_edit_words(&table, how) {
        return Err(AskFault::Refused(RouteFault::NoRoute));
    }
    Ok(Place::Edit { table, how })
}

#[tactic(auto, unfolding(crate::specs::Targets::answer_place))]
fn answer_place(second: &str, third: &str) -> Option<Place>
    ensures { result ≡ answer_place second.now third.now }
{
    if third != "answer" {
        return None;
    }
    let job = number_in(second.as_bytes())?;
    Some(Place::Look(Look::Answer { job }))
}

// The place, or that no route has the target.
fn found(place: Option<Place>) -> Result<Place, AskFault>
    ensures { Asks result (ok_or place RouteFault.NoRoute) }
{
    match place {
        Some(place) => Ok(place),
        None => Err(AskFault::Refused(RouteFault::NoRoute)),
    }
}

#[tactic(auto, unfolding(crate::specs::Targets::three_parts))]
fn three_parts(alloc: Global, first: &str, second: &str, third: &str) -> Result<Place, AskFault>
    ensures { Asks result (ok_or (three_parts first.now second.now third.now) RouteFault.NoRoute) }
{
    match first {
        "edit" => edit_place(alloc, second, third),
        "jobs" => found(answer_place(second, third)),
        _ => Err(AskFault::Refused(RouteFault::NoRoute)),
    }
}

#[tactic(auto, unfolding(crate::specs::Targets::four_parts))]
fn four_parts(first: &str, second: &str, third: &str, fourth: &str) -> Option<Place>
    ensures { result ≡ four_parts first.now second.now third.now fourth.now }
{
    if first != "publications" {
        return None;
    }
    if third != "tickets" {
        return None;
    }
    let publication = number_in(second.as_bytes())?;
    let ticket = number_in(fourth.as_bytes())?;
    Some(Place::Look(Look::Ticket {
        publication,
        ticket,
    }))
}

// What the parts behind the first stroke are for.
fn place_in(alloc: Global, routes: Routes, text: &str) -> Result<Place, AskFault>
    ensures { Asks result (ok_or (place_in routes (parts_of text.now)) RouteFault.NoRoute) }
{
    let Some((first, rest)) = first_part(text) else {
        return found(one_part(text));
    };
    let Some((second, rest)) = first_part(rest) else {
        return found(two_parts(routes, first, rest));
    };
    let Some((third, rest)) = first_part(rest) else {
        return three_parts(alloc, first, second, rest);
    };
    match first_part(rest) {
        Some(_) => Err(AskFault::Refused(RouteFault::NoRoute)),
        None => found(four_parts(first, second, third, rest)),
    }
}

// What a text is for as a target.
#[tactic(auto, using(crate::proofs::PartLaws::behind_nothing))]
fn behind_stroke(alloc: Global, routes: Routes, text: &str) -> Result<Place, AskFault>
    ensures { Asks result (ok_or (behind_stroke routes (parts_of text.now)) RouteFault.NoRoute) }
{
    let Some((first, rest)) = first_part(text) else {
        return Err(AskFault::Refused(RouteFault::NoRoute));
    };
    if !first.is_empty() {
        return Err(AskFault::Refused(RouteFault::NoRoute));
    }
    place_in(alloc, routes, rest)
}

fn text_in(target: &[u8]) -> Option<&str>
    ensures none { IsNone result → is_utf8 target.now ≡ false }
    ensures some { IfSome result (λ text. is_utf8 target.now ≡ true) }
    ensures same { IfSome result (λ text. text.now ≡ target.now) }
{
    match str::from_utf8(target) {
        Ok(text) => Some(text),
        Err(_) => None,
    }
}

// What a target is for.
#[tactic(auto, unfolding(crate::specs::Targets::place_of))]
pub(crate) fn place_of(alloc: Global, routes: Routes, target: &[u8]) -> Result<Place, AskFault>
    ensures { Asks result (ok_or (place_of routes target.now) RouteFault.NoRoute) }
{
    let Some(text) = text_in(target) else {
        return Err(AskFault::Refused(RouteFault::NoRoute));
    };
    behind_stroke(alloc, routes, text)
}
