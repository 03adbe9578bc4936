// What a chair looks at.

ghost use Rattle.std.specs.Prelude.{◌≡◌};
ghost use Rattle.http_desk.specs.Sessions.{look_of};

use desk_history::Look;

// The same look, as the desk has it.
pub(crate) fn look_of(what: desk_routes::Look) -> Look
    ensures { result ≡ look_of what }
{
    match what {
        desk_routes::Look::Edition => Look::Edition,
        desk_routes::Look::Rules => Look::Rules,
        desk_routes::Look::Job { job } => Look::Job { job },
        desk_routes::Look::Answer { job } => Look::Answer { job },
        desk_routes::Look::Publication { number } => Look::Publication { number },
        desk_routes::Look::Ticket {
            publication,
            ticket,
        } => Look::Ticket {
            publication,
            ticket,
        },
    }
}
