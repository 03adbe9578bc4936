// What a job came to, as members of an object.

ghost use Rattle.std.specs.Prelude.{◌≡◌, IfOk, codes};
ghost use Rattle.std.specs.Fmt.{signed_decimal};
ghost use Rattle.desk_replies.specs.Built.{members};
ghost use Rattle.desk_replies.specs.Objects.{with_text};
ghost use Rattle.desk_replies.specs.Outcomes.{outcome_word, with_outcome, with_reason, with_threshold, with_worth};

use crate::objects::Object;
use desk_history::{Grade, Outcome};
use itoa::Buffer;
use std::alloc::AllocError;

#[tactic(auto, unfolding(crate::specs::Outcomes::outcome_word))]
fn outcome_word(outcome: Outcome) -> &'static str
    ensures { result.now ≡ outcome_word outcome }
{
    match outcome {
        Outcome::Waiting => "waiting",
        Outcome::Taken => "taken",
        Outcome::Certified { level: _, total: _ } => "certified",
        Outcome::Infeasible { need: _, room: _ } => "infeasible",
        Outcome::Stale { later: _ } => "stale",
        Outcome::OutOfMemory => "out-of-memory",
    }
}

// The sides of a cut, or the edition that came later.
fn with_reason(object: Object, outcome: Outcome) -> Result<Object, AllocError>
    ensures { IfOk result (λ made. members made ≡ with_reason outcome (members object)) }
{
    match outcome {
        Outcome::Infeasible { need, room } => {
            let object = object.with_number("room", room)?;
            object.with_number("need", need)
        }
        Outcome::Stale { later } => object.with_number("later", later),
        _ => Ok(object),
    }
}

/// The object with an outcome as each reply has it.
pub fn with_outcome(object: Object, outcome: Outcome) -> Result<Object, AllocError>
    ensures { IfOk result (λ made. members made ≡ with_outcome outcome (members object)) }
{
    let object = with_reason(object, outcome)?;
    object.with_text("outcome", outcome_word(outcome))
}

fn with_threshold(object: Object, level: Grade) -> Result<Object, AllocError>
    ensures { IfOk result (λ made. members made ≡ with_threshold level (members object)) }
{
    match level {
        Grade::Unasked => object.with_text("threshold", "none"),
        Grade::Free => object.with_text("threshold", "free"),
        Grade::At { score } => object.with_integer("threshold", score),
    }
}

// The total as a text.
fn with_total(object: Object, total: i128) -> Result<Object, AllocError>
    ensures { IfOk result (λ made. members made ≡ with_text (codes "total") (signed_decimal total) (members object)) }
{
    let mut buffer = Buffer::new();
    object.with_text("total", buffer.format(total))
}

/// The object with the threshold and the total of a certified job; with no more where the outcome is another.
pub fn with_worth(object: Object, outcome: Outcome) -> Result<Object, AllocError>
    ensures { IfOk result (λ made. members made ≡ with_worth outcome (members object)) }
{
    match outcome {
        Outcome::Certified { level, total } => {
            let object = with_total(object, total)?;
            with_threshold(object, level)
        }
        _ => Ok(object),
    }
}
