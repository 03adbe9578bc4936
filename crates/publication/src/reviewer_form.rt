// Lines of reviewers in the text of rules.
ghost use Rattle.std.specs.Prelude.{◌≡◌, Bool, List, Result, Ok};
ghost use Rattle.std.specs.Option.{option_map};
ghost use Rattle.text_lines.specs.Reading.{GivesLine};
ghost use Rattle.publication.specs.RulesReading.{id_of, institution_of, loads_of, reviewer_of, is_reviewer_behind};

use match_rules::{IdFault, Institution, MOST_LOAD, ReviewerId, RuleReviewer};
use std::alloc::Global;
use text_lines::{LineCode, LineError, LineForm, is_canonical, number_from, three_or_four_fields};

/// Lines of an id, a least and a greatest load, and an institution where there is one.
#[derive(Drop)]
pub struct ReviewerForm;

impl LineForm for ReviewerForm {
    type Item = RuleReviewer;

    ghost ready = { λ form before. Unit {0} };

    ghost reads = { λ form before line. reviewer_of before line };

    #[tactic(auto, unfolding(crate::specs::RulesReading::reviewer_of))]
    fn read(
        &mut self,
        alloc: Global,
        before: &[RuleReviewer],
        line: &str,
    ) -> Result<RuleReviewer, LineError> {
        let Some((id, least, greatest, institution)) = three_or_four_fields(line) else {
            return Err(LineError::Code(LineCode::Form));
        };
        let (least, greatest) = read_loads(least, greatest)?;
        let id = read_id(alloc, id)?;
        let institution = read_institution(alloc, institution)?;
        if !is_reviewer_behind(before, &id) {
            return Err(LineError::Code(LineCode::Order));
        }
        Ok(RuleReviewer {
            id,
            institution,
            least,
            greatest,
        })
    }
}

// The least and the greatest load of two fields.
fn read_loads(least: &str, greatest: &str) -> Result<(u32, u32), LineCode>
    ensures { result ≡ loads_of least.now greatest.now }
{
    if !is_canonical(least.as_bytes()) {
        return Err(LineCode::Number);
    }
    let greatest = number_from(greatest, 0, MOST_LOAD)?;
    let least = number_from(least, 0, greatest)?;
    Ok((least, greatest))
}

fn read_id(alloc: Global, field: &str) -> Result<ReviewerId, LineError>
    ensures { GivesLine result (id_of field.now) }
{
    match ReviewerId::read(alloc, field) {
        Ok(id) => Ok(id),
        Err(IdFault::BadId) => Err(LineError::Code(LineCode::Id)),
        Err(IdFault::Memory) => Err(LineError::Memory),
    }
}

// The institution of a field, where there is one.
fn read_institution(alloc: Global, field: Option<&str>) -> Result<Option<Institution>, LineError>
    ensures { GivesLine result (institution_of (option_map (λ text. text.now) field.entry)) }
{
    let Some(field) = field else {
        return Ok(None);
    };
    match Institution::read(alloc, field) {
        Ok(institution) => Ok(Some(institution)),
        Err(IdFault::BadId) => Err(LineError::Code(LineCode::Id)),
        Err(IdFault::Memory) => Err(LineError::Memory),
    }
}

fn is_reviewer_behind(before: &[RuleReviewer], id: &ReviewerId) -> bool
    ensures { result ≡ is_reviewer_behind before.now id.now }
{
    match before.last() {
        Some(last) => last.id.cmp(id).is_lt(),
        None => true,
    }
}
