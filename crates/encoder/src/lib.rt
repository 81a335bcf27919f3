// An encoder log: counts, differences and travel, all in encoder counts, none of it in millimetres or inches.
#![tactic(auto)]

ghost use Rattle.std.specs.Prelude.{◌≡◌, suc, ◌*◌, ◌<◌, ◌≤◌, ◌+ℤ◌, unsigned_abs};
ghost use Rattle.lengths.specs.Lengths.{most_steps};
ghost use Rattle.encoder.specs.Log.{count_in, difference_in, half_turn, signed, travel, wrapped};

use figures::StepNumber;

// One reading of the encoder, in encoder counts; it wraps after 65,535.
#[derive(Clone, Copy)]
pub struct EncoderCount(pub u16);

// How many encoder counts the encoder went on from one step to the next, wrapped: 65,535 is one count back.
#[derive(Clone, Copy)]
pub struct Difference(pub u16);

// How many encoder counts the lift has gone since step 0, negative for back.
#[derive(Clone, Copy)]
pub struct Travel(pub i32);

impl EncoderCount {
    // The bytes of a count in a log.
    pub const BYTES: usize = 2;
}

impl Difference {
    // Half of the 65,536 counts after which the encoder wraps: from here on a difference is read as negative.
    pub const HALF_TURN: u16 = 32768;
}

impl Travel {
    // The counts after which the encoder wraps.
    pub const TURN: i32 = 65536;
}

// The count of a step; past the log's end 0 is read.
pub fn count_at(log: &[u8], step: StepNumber) -> EncoderCount
    requires { step.0 ≤ most_steps }
    ensures { result.0 ≡ count_in log.now step.0 }
{
    let i = step.0;
    EncoderCount(little::two_at(log, EncoderCount::BYTES * i) as u16)
}

// How far the encoder went on from one count to another, wrapped.
pub fn wrapped(from: EncoderCount, to: EncoderCount) -> Difference
    ensures { result.0 ≡ wrapped from.0 to.0 }
{
    Difference(std::num::wrapping_sub_u16(to.0, from.0))
}

// A difference read as a signed number; 32,768, which refusal 17 keeps out, is read as -32,768.
pub fn signed(difference: Difference) -> Travel
    ensures { result.0 ≡ signed difference.0 }
{
    let d = difference.0;
    if d < Difference::HALF_TURN {
        Travel(d as i32)
    } else {
        Travel(d as i32 - Travel::TURN)
    }
}

// The difference that the step after this one adds.
pub fn difference_at(log: &[u8], step: StepNumber) -> Difference
    requires { step.0 < most_steps }
    ensures { result.0 ≡ difference_in log.now step.0 }
{
    let from = count_at(log, step);
    let to = count_at(log, StepNumber(step.0 + 1));
    wrapped(from, to)
}

// The travel after one difference more.
fn add(travel: Travel, difference: Difference) -> Travel
    requires { unsigned_abs travel.0 ≤ half_turn * most_steps }
    ensures { result.0 ≡ travel.0 +ℤ signed difference.0 }
{
    let more = signed(difference);
    Travel(travel.0 + more.0)
}

// The travel at the step after this one, from the travel at this one.
pub fn travel_after(log: &[u8], step: StepNumber, gone: Travel) -> Travel
    requires step_lt_most_steps { step.0 < most_steps }
    requires gone_value { gone.0 ≡ travel log.now step.0 }
    ensures { result.0 ≡ travel log.now (suc step.0) }
{
    add(gone, difference_at(log, step))
}
