// The lines of the mode and of the threshold.
ghost use Rattle.std.specs.Prelude.{◌≡◌, List, Result, Ok};
ghost use Rattle.text_lines.specs.Reading.{GivesLine};
ghost use Rattle.publication.specs.AskedForms.{mode_of, score_of, threshold_of, mode_of_level};

use match_rules::{Level, MOST_SCORE, Mode};
use std::alloc::Global;
use text_lines::{LineCode, LineError, LineForm, integer_from, two_fields};

/// What an answer was asked for: its mode and, in the mode fair, its threshold.
#[derive(Clone, Copy)]
pub enum Asked {
    /// The mode whole, without a threshold.
    Whole,
    /// The mode fair, where the locked pairs suffice.
    Free,
    /// The mode fair, with the least score, in 10^-6.
    At { score: i64 },
}

#[tactic(auto, unfolding(crate::specs::AskedForms::mode_of))]
fn mode_of(line: &str) -> Result<Mode, LineCode>
    ensures { result ≡ mode_of line.now }
{
    if line == "mode whole" {
        return Ok(Mode::Whole);
    }
    if line == "mode fair" {
        return Ok(Mode::Fair);
    }
    Err(LineCode::Form)
}

#[tactic(auto, unfolding(crate::specs::AskedForms::score_of))]
fn score_of(line: &str) -> Result<Asked, LineCode>
    ensures { result ≡ score_of line.now }
{
    let Some((word, number)) = two_fields(line) else {
        return Err(LineCode::Form);
    };
    if word != "threshold" {
        return Err(LineCode::Form);
    }
    match integer_from(number, MOST_SCORE) {
        Ok(score) => Ok(Asked::At { score }),
        Err(_) => Err(LineCode::Form),
    }
}

#[tactic(auto, unfolding(crate::specs::AskedForms::threshold_of))]
fn threshold_of(mode: Mode, line: &str) -> Result<Asked, LineCode>
    ensures { result ≡ threshold_of mode line.now }
{
    match mode {
        Mode::Whole => {
            if line == "threshold none" {
                return Ok(Asked::Whole);
            }
            Err(LineCode::Form)
        }
        Mode::Fair => {
            if line == "threshold free" {
                return Ok(Asked::Free);
            }
            score_of(line)
        }
    }
}

/// The mode with a level: whole exactly where no threshold was asked for.
pub(crate) fn mode_of_level(level: &Level) -> Mode
    ensures { result ≡ mode_of_level level.now }
{
    match level {
        Level::Unasked => Mode::Whole,
        Level::Free => Mode::Fair,
        Level::At { .. } => Mode::Fair,
    }
}

/// The line of the mode.
#[derive(Drop)]
pub struct ModeLine {}

impl LineForm for ModeLine {
    type Item = Mode;

    ghost ready = { λ form before. Unit {0} };

    ghost reads = { λ form before line. mode_of line };

    fn read(&mut self, _alloc: Global, _before: &[Mode], line: &str) -> Result<Mode, LineError> {
        Ok(mode_of(line)?)
    }
}

/// The line of the threshold, in a mode.
#[derive(Drop)]
pub struct ThresholdLine {
    pub mode: Mode,
}

impl LineForm for ThresholdLine {
    type Item = Asked;

    ghost ready = { λ form before. Unit {0} };

    ghost reads = { λ form before line. threshold_of form.mode line };

    fn read(&mut self, _alloc: Global, _before: &[Asked], line: &str) -> Result<Asked, LineError> {
        Ok(threshold_of(self.mode, line)?)
    }
}
