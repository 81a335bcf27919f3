// One step's word of a recorded run: which conditions hold, by their limits and the travel at the step, all in encoder counts.
#![tactic(auto)]

ghost use Rattle.std.specs.Prelude.{◌≡◌, ◌≤◌, cond, length};
ghost use Rattle.limits.specs.Limits.{most_conditions};
ghost use Rattle.log_words.specs.StepWord.{holds_at, word_by};

use encoder::Travel;

// The travel from which on a condition holds, in encoder counts.
#[derive(Clone, Copy)]
pub struct Limit(pub i32);

// Whether a condition holds at a step, by its limit and the travel at that step.
pub fn holds(limit: Limit, travel: Travel) -> bool
    ensures { result ≡ holds_at limit.0 travel.0 }
{
    limit.0 <= travel.0
}

// The lowest bit of a word, for a condition that holds or not.
fn low_bit(holds: bool) -> u32
    ensures { result ≡ cond holds 1 0 }
{
    u32::from(holds)
}

// The word of a step: bit c is condition c, so the last limit comes first.
pub fn word_of(limits: &[i32], travel: Travel) -> u32
    requires { length limits.now ≤ most_conditions }
    ensures { result ≡ word_by limits.now travel.0 }
{
    let mut word = 0;
    for c in (0..limits.len()).rev() {
        word = low_bit(holds(Limit(limits[c]), travel)) + 2 * word;
    }
    word
}
