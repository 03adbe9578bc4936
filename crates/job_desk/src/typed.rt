// What requests keep by their types alone. The functions are laws: they do nothing.

ghost use Rattle.std.specs.Prelude.{◌<◌, ◌^◌};
ghost use Rattle.desk_keeper.specs.Rows.{IsSmall};
ghost use Rattle.desk_history.specs.Steps.{IsTyped, IsTypedAnswer, IsTypedWork};

use desk_history::{Request, Work};
use desk_keeper::Command;
use match_rules::Answer;

// A number has 64 bits.
fn is_short(number: u64)
    ensures { number < 2 ^ 64 }
{
    let _number = number;
}

// The number of a command has 64 bits.
fn is_small(command: &Command)
    ensures { IsSmall command.now }
{
    match command {
        Command::Edit { base, .. } => is_short(*base),
        Command::Submit { base, .. } => is_short(*base),
        Command::Publish { job } => is_short(*job),
        Command::Draw { publication, .. } => is_short(*publication),
    }
}

// A lottery keeps its pieces in order.
fn is_typed_answer(answer: &Answer)
    ensures { IsTypedAnswer answer.now }
{
    match answer {
        Answer::Lottery(winning) => {
            let _pieces = winning.lottery.pieces();
        }
        Answer::Infeasible(_) => {}
    }
}

// What a bench hands in has such an answer.
fn is_typed_work(work: &Work)
    ensures { IsTypedWork work.now }
{
    match work {
        Work::Answered(certificate) => is_typed_answer(&certificate.answer),
        Work::OutOfMemory => {}
    }
}

/// Every request is such as its type has.
pub fn is_typed(request: &Request)
    ensures { IsTyped request.now }
{
    match request {
        Request::Do(named) => {
            is_short(named.number);
            is_small(&named.command);
        }
        Request::Finish { work, .. } => is_typed_work(work),
        _ => {}
    }
}
