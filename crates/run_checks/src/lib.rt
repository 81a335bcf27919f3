// The checks of a run behind refusals 10 and 11.
#![tactic(auto)]

ghost use Rattle.std.specs.Prelude.{◌≡◌};
ghost use Rattle.figures.specs.Refusals.{check_says};
ghost use Rattle.signals.specs.Truth.{lowest_stray};
ghost use Rattle.run_checks.specs.RunChecks.{found_step, run_checked};

use figures::{ConditionCount, Refusal, StepCount, StepNumber, StepPlace};
use lengths::Run;

#[tactic(auto, using(laws::proofs::Lowest::passed_all))]
pub fn lowest_stray(run: &[u32], conditions: ConditionCount) -> Option<StepNumber>
    ensures { found_step result ≡ lowest_stray conditions.0 run.now }
{
    for (i, word) in run.iter().enumerate() {
        if !signals::word_sound(*word, conditions) {
            return Some(StepNumber(i));
        }
    }
    None
}

// Refusals 10 and 11 of a lone run.
pub fn check_run(run: &[u32], conditions: ConditionCount) -> Result<(), Refusal>
    ensures { check_says result ≡ run_checked conditions.0 run.now }
{
    Run::new(StepCount(run.len()))?;
    match lowest_stray(run, conditions) {
        Some(i) => Err(Refusal::StrayBit(StepPlace::Lone(i))),
        None => Ok(()),
    }
}
