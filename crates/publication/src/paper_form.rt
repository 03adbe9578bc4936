// Lines of papers in the text of rules.
ghost use Rattle.std.specs.Prelude.{◌≡◌, ◌+◌, ◌≤◌, ℕ, List, Result, Ok};
ghost use Rattle.match_rules.specs.Rules.{demand_total};
ghost use Rattle.text_lines.specs.Reading.{GivesLine};
ghost use Rattle.publication.specs.RulesReading.{id_of, paper_of, is_paper_behind};

use match_rules::{IdFault, MOST_DEMAND, MOST_DEMAND_IN_ALL, PaperId, RulePaper};
use std::alloc::Global;
use text_lines::{LineCode, LineError, LineForm, number_from, two_fields};

/// Lines of an id and a demand, with the demands of the papers before.
#[derive(Drop)]
pub struct PaperForm {
    demands: u32,
}

impl PaperForm {
    pub fn new() -> PaperForm
        ensures { result.demands ≡ 0 }
    {
        PaperForm { demands: 0 }
    }
}

impl LineForm for PaperForm {
    ghost use Rattle.match_rules.specs.declared.rules.TheConstants.{MOST_DEMAND_IN_ALL};

    type Item = RulePaper;

    ghost ready = { λ form before. (form.demands ≡ demand_total before) × (form.demands ≤ MOST_DEMAND_IN_ALL) };

    ghost reads = { λ form before line. paper_of before line };

    #[tactic(auto, unfolding(crate::specs::RulesReading::paper_of))]
    fn read(
        &mut self,
        alloc: Global,
        before: &[RulePaper],
        line: &str,
    ) -> Result<RulePaper, LineError> {
        let Some((id, demand)) = two_fields(line) else {
            return Err(LineError::Code(LineCode::Form));
        };
        let demand = number_from(demand, 0, MOST_DEMAND)?;
        if self.demands + demand > MOST_DEMAND_IN_ALL {
            return Err(LineError::Code(LineCode::Range));
        }
        let id = read_id(alloc, id)?;
        if !is_paper_behind(before, &id) {
            return Err(LineError::Code(LineCode::Order));
        }
        self.demands += demand;
        Ok(RulePaper { id, demand })
    }
}

fn read_id(alloc: Global, field: &str) -> Result<PaperId, LineError>
    ensures { GivesLine result (id_of field.now) }
{
    match PaperId::read(alloc, field) {
        Ok(id) => Ok(id),
        Err(IdFault::BadId) => Err(LineError::Code(LineCode::Id)),
        Err(IdFault::Memory) => Err(LineError::Memory),
    }
}

fn is_paper_behind(before: &[RulePaper], id: &PaperId) -> bool
    ensures { result ≡ is_paper_behind before.now id.now }
{
    match before.last() {
        Some(last) => last.id.cmp(id).is_lt(),
        None => true,
    }
}
