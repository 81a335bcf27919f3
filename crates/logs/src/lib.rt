// The checks of an encoder log, behind refusals 10 and 17.
#![tactic(auto)]

ghost use Rattle.std.specs.Prelude.{◌≡◌, ◌≤◌};
ghost use Rattle.lengths.specs.Lengths.{most_steps};
ghost use Rattle.encoder.specs.Log.{lowest_half_turn, steps_in};
ghost use Rattle.figures.specs.Refusals.{◌then◌};
ghost use Rattle.figures.specs.Refusals.Outcome.{gives};
ghost use Rattle.logs.specs.declared.LogRefusal.TheVariants.{Listed};
ghost use Rattle.logs.specs.LogRefusals.{log_number, log_of, log_place, log_says, step_says, turns_of};

use encoder::{Difference, EncoderCount};
use figures::{Place, Refusal, RefusalNumber, StepCount, StepNumber};
use lengths::Run;

// Why a log is refused: one of document 01's refusals, or 17 at the later step.
#[derive(Clone, Copy)]
pub enum LogRefusal {
    Listed(Refusal),
    HalfTurn(StepNumber),
}

impl From<Refusal> for LogRefusal {
    ghost from_gives = { λ refusal log_refusal. log_refusal ≡ Listed refusal };

    fn from(refusal: Refusal) -> LogRefusal {
        LogRefusal::Listed(refusal)
    }
}

impl LogRefusal {
    pub fn number(self) -> RefusalNumber
        ensures { result.0 ≡ log_number self }
    {
        match self {
            LogRefusal::Listed(r) => r.number(),
            LogRefusal::HalfTurn(_) => RefusalNumber(17),
        }
    }

    pub fn place(self) -> Place
        ensures { result ≡ log_place self }
    {
        match self {
            LogRefusal::Listed(r) => r.place(),
            LogRefusal::HalfTurn(step) => Place::Step(step),
        }
    }
}

// The lowest step from which the encoder went on by exactly half a turn, so that nobody can tell which way.
pub fn lowest_half_turn(log: &[u8]) -> Option<StepNumber>
    requires { steps_in log.now ≤ most_steps }
    ensures { step_says result ≡ lowest_half_turn log.now }
{
    let steps = log.len() / EncoderCount::BYTES;
    for k in 0..steps.saturating_sub(1) {
        let difference = encoder::difference_at(log, StepNumber(k));
        if difference.0 == Difference::HALF_TURN {
            return Some(StepNumber(k));
        }
    }
    None
}

// Refusal 17 at the later step, or the number of steps.
fn check_turns(log: &[u8], steps: StepCount) -> Result<StepCount, LogRefusal>
    requires { steps_in log.now ≤ most_steps }
    ensures { log_says result ≡ (turns_of (lowest_half_turn log.now) then λ _. gives steps.0) }
{
    match lowest_half_turn(log) {
        Some(k) => Err(LogRefusal::HalfTurn(StepNumber(k.0 + 1))),
        None => Ok(steps),
    }
}

// Refusals 10 and 17 of a log, or its number of steps.
pub fn check_log(log: &[u8]) -> Result<StepCount, LogRefusal>
    ensures { log_says result ≡ log_of log.now }
{
    if log.len() % EncoderCount::BYTES != 0 {
        return Err(LogRefusal::Listed(Refusal::RunLength));
    }
    let run = Run::new(StepCount(log.len() / EncoderCount::BYTES))?;
    check_turns(log, run.0)
}
