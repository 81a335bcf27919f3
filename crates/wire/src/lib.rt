// What an operation answered, as the one C struct that every exported function returns.
#![tactic(auto)]

ghost use Rattle.std.specs.Prelude.{◌≡◌};
ghost use Rattle.figures.specs.Refusals.{number_of, place_of};
ghost use Rattle.figures.specs.Outputs.{output_says};
ghost use Rattle.truth.specs.Answers.{verdict_says};
ghost use Rattle.cover.specs.Answers.{witness_says};
ghost use Rattle.recorded.specs.Recorded.{taken_says};
ghost use Rattle.wire.specs.Wire.{unit_of, refused_answer, given_answer, truth_answer, written_answer, witness_answer, taken_answer};

use figures::{ByteCount, Place, PrintedPlace, Refusal, RefusalNumber, StepCount};
use logs::LogRefusal;

// Which kind of answer it is. An answer that nobody filled in reads as a refusal, with a number that none has.
#[repr(C)]
#[derive(Clone, Copy)]
pub struct AnswerKind(pub u32);

impl AnswerKind {
    pub const REFUSED: u32 = 0;

    pub const HOLDS: u32 = 1;

    pub const FAILS: u32 = 2;

    pub const WRITTEN: u32 = 3;

    pub const COVERED: u32 = 4;

    pub const UNCOVERED: u32 = 5;

    pub const TAKEN: u32 = 6;
}

// What a printed place is a number of.
#[repr(C)]
#[derive(Clone, Copy)]
pub struct PlaceUnit(pub u32);

impl PlaceUnit {
    pub const NONE: u32 = 0;

    pub const BYTE: u32 = 1;

    pub const ROW: u32 = 2;

    pub const STEP: u32 = 3;
}

// What every exported function returns: a field that an answer does not have is 0.
#[repr(C)]
#[derive(Clone, Copy)]
pub struct Answer {
    pub kind: AnswerKind,
    pub unit: PlaceUnit,
    pub refusal: RefusalNumber,
    pub place: PrintedPlace,
    pub written: ByteCount,
    pub steps: StepCount,
}

fn unit_of(place: Place) -> PlaceUnit
    ensures { result.0 ≡ unit_of place }
{
    match place {
        Place::None => PlaceUnit(PlaceUnit::NONE),
        Place::Byte(_) => PlaceUnit(PlaceUnit::BYTE),
        Place::Row(_) => PlaceUnit(PlaceUnit::ROW),
        Place::Step(_) => PlaceUnit(PlaceUnit::STEP),
    }
}

// The answer of a refusal, by its number and its place: a log's refusals are another enum than a suite's.
fn refused_by(refusal: RefusalNumber, at: Place) -> Answer
    ensures { result ≡ refused_answer refusal.0 at }
{
    let unit = unit_of(at);
    let place = at.printed();
    Answer {
        kind: AnswerKind(AnswerKind::REFUSED),
        unit,
        refusal,
        place,
        written: ByteCount(0),
        steps: StepCount(0),
    }
}

fn refused(r: Refusal) -> Answer
    ensures { result ≡ refused_answer (number_of r) (place_of r) }
{
    refused_by(r.number(), r.place())
}

fn given(kind: u32, written: ByteCount, steps: StepCount) -> Answer
    ensures { result ≡ given_answer kind written.0 steps.0 }
{
    Answer {
        kind: AnswerKind(kind),
        unit: PlaceUnit(PlaceUnit::NONE),
        refusal: RefusalNumber(0),
        place: PrintedPlace(0),
        written,
        steps,
    }
}

impl From<Result<bool, Refusal>> for Answer {
    ghost from_gives = { λ verdict answer. answer ≡ truth_answer (verdict_says verdict) };

    fn from(verdict: Result<bool, Refusal>) -> Answer {
        match verdict {
            Ok(true) => given(AnswerKind::HOLDS, ByteCount(0), StepCount(0)),
            Ok(false) => given(AnswerKind::FAILS, ByteCount(0), StepCount(0)),
            Err(r) => refused(r),
        }
    }
}

impl From<Result<ByteCount, Refusal>> for Answer {
    ghost from_gives = { λ written answer. answer ≡ written_answer (output_says written) };

    fn from(written: Result<ByteCount, Refusal>) -> Answer {
        match written {
            Ok(bytes) => given(AnswerKind::WRITTEN, bytes, StepCount(0)),
            Err(r) => refused(r),
        }
    }
}

impl From<Result<Option<ByteCount>, Refusal>> for Answer {
    ghost from_gives = { λ witnessed answer. answer ≡ witness_answer (witness_says witnessed) };

    fn from(witnessed: Result<Option<ByteCount>, Refusal>) -> Answer {
        match witnessed {
            Ok(Some(bytes)) => given(AnswerKind::COVERED, bytes, StepCount(0)),
            Ok(None) => given(AnswerKind::UNCOVERED, ByteCount(0), StepCount(0)),
            Err(r) => refused(r),
        }
    }
}

impl From<Result<StepCount, LogRefusal>> for Answer {
    ghost from_gives = { λ taken answer. answer ≡ taken_answer (taken_says taken) };

    fn from(taken: Result<StepCount, LogRefusal>) -> Answer {
        match taken {
            Ok(steps) => given(AnswerKind::TAKEN, ByteCount(0), steps),
            Err(r) => refused_by(r.number(), r.place()),
        }
    }
}
