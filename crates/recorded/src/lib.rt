// Taking in a recorded run: an encoder log and the conditions' limits made into a lone run of words. All of it is in encoder counts, none
// of it in millimetres or inches.
#![tactic(auto)]

ghost use Rattle.std.specs.Prelude.{◌≡◌, ◌++◌, ◌≤◌, length, drop};
ghost use Rattle.limits.specs.Limits.{most_conditions};
ghost use Rattle.lengths.specs.Lengths.{most_steps};
ghost use Rattle.figures.specs.Outputs.{lent_after};
ghost use Rattle.encoder.specs.Log.{steps_in};
ghost use Rattle.recorded.specs.Recorded.{room_for, run_made, taken_of, taken_says};

use encoder::{EncoderCount, Travel};
use figures::{ConditionCount, Refusal, StepCount, StepNumber};
use limits::Suite;
use logs::LogRefusal;

// Writes the words of a log's steps to the front of what is lent.
fn put_words(log: &[u8], limits: &[i32], out: &mut [u32])
    requires { (length limits.now ≤ most_conditions) × (steps_in log.now ≤ most_steps) × (steps_in log.now ≤ length out.old) }
    ensures { out.new ≡ run_made limits.now log.now ++ drop (steps_in log.now) out.old }
{
    let mut travel = Travel(0);
    for i in 0..log.len() / EncoderCount::BYTES {
        out[i] = log_words::word_of(limits, travel);
        // After the last step this reads past the log's end, and the travel is not used.
        travel = encoder::travel_after(log, StepNumber(i), travel);
    }
}

// Refusal 14, or the words of a log whose steps were counted.
fn put_run(
    log: &[u8],
    limits: &[i32],
    steps: StepCount,
    out: &mut [u32],
) -> Result<StepCount, LogRefusal>
    requires { (length limits.now ≤ most_conditions) × (steps_in log.now ≤ most_steps) × (steps_in log.now ≡ steps.0) }
    ensures result_value { taken_says result ≡ room_for steps.0 (length out.old) }
    ensures out_after { out.new ≡ lent_after (room_for steps.0 (length out.old)) (run_made limits.now log.now) out.old }
{
    if out.len() < steps.0 {
        return Err(LogRefusal::Listed(Refusal::ShortOutput));
    }
    put_words(log, limits, out);
    Ok(steps)
}

// The run that a log and the conditions' limits make, a word a step, or the first refusal of 3, 10, 17 and 14: how many words were
// written, one a step, or why none was.
pub fn take_in(log: &[u8], limits: &[i32], out: &mut [u32]) -> Result<StepCount, LogRefusal>
    ensures result_value { taken_says result ≡ taken_of log.now limits.now (length out.old) }
    ensures out_after { out.new ≡ lent_after (taken_of log.now limits.now (length out.old)) (run_made limits.now log.now) out.old }
{
    Suite::lone(ConditionCount(limits.len()))?;
    let steps = logs::check_log(log)?;
    put_run(log, limits, steps, out)
}
