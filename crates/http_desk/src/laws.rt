// Laws of all sessions. The function does nothing: its clauses are the laws.

ghost use Rattle.std.specs.Prelude.{◌≡◌, ◌≤◌, List, All, Some, true, ℕ, Result};
ghost use Rattle.edge_io.specs.Counts.{Rose};
ghost use Rattle.http_messages.specs.Replies.{ReplyValue};
ghost use Rattle.http_stream.specs.Exchanges.{Exchange, Trail};
ghost use Rattle.http_stream.specs.declared.handler.HandleFault.{HandleFault};
ghost use Rattle.desk_keeper.specs.declared.words.Named.{Named};
ghost use Rattle.desk_history.specs.declared.requests.Request.TheVariants.{Do};
ghost use Rattle.desk_history.specs.Histories.{Earlier, History, edition, edits, kept};
ghost use Rattle.desk_history.specs.Looks.{told};
ghost use Rattle.desk_history.specs.Steps.{answered_by, is_chair, step};
ghost use Rattle.desk_routes.specs.declared.places.Asked.{Asked};
ghost use Rattle.desk_routes.specs.declared.places.Routes.{Routes};
ghost use Rattle.http_desk.specs.Hosts.{Passes};
ghost use Rattle.http_desk.specs.Laws.{Acknowledges, GoesOn, HasRow, IsDefined, RoseBy, replies_with};
ghost use Rattle.http_desk.specs.Sessions.{Serves, SessionValue};

use desk_history::history_laws;

/// What a session leaves behind. Its history goes on from the one before, and editions that were made stay as they are. Each command
/// whose reply had the status 200 was accepted and has its row; a repeat of an accepted command has the same reply and makes no entry.
/// There are no more replies with the status 503 than the keeper has failed. Where the keeper doesn't fail, the desk answers what its
/// step says, or that memory was wanting.
pub fn session_laws()
    ensures kept { (routes : Routes) (start : SessionValue) (trail : List Exchange) (end : SessionValue) → Trail (Passes Serves routes) start trail end → GoesOn start.desk.history end.desk.history }
    ensures stays { (H : History) (later : History) (n : ℕ) → GoesOn H later → n ≤ edits H → edition later n ≡ edition H n }
    ensures acknowledged { (routes : Routes) (start : SessionValue) (trail : List Exchange) (end : SessionValue) → Trail (Passes Serves routes) start trail end → All (Acknowledges end.desk.history routes) trail }
    ensures row { (H : History) (caller : List ℕ) (number : ℕ) (earlier : Earlier) → kept H caller number ≡ Some earlier → HasRow H caller number earlier }
    ensures repeated { (chairs : List (List ℕ)) (H : History) (its : Named) (earlier : Earlier) → is_chair chairs its.caller ≡ true → kept H its.caller its.number ≡ Some earlier → earlier.command ≡ its.command → step chairs H (Do its) ≡ told (answered_by earlier.reply) }
    ensures unavailable { (routes : Routes) (start : SessionValue) (trail : List Exchange) (end : SessionValue) → Trail (Passes Serves routes) start trail end → RoseBy start.faults (replies_with 503 trail) end.faults }
    ensures defined { (old : SessionValue) (asked : Asked) (answer : Result ReplyValue HandleFault) (new : SessionValue) (serves : Serves old asked answer new) → ¬ (Rose old.faults new.faults) → IsDefined serves }
{
    history_laws();
}
