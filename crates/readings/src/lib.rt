// What a row reads at a step.
#![tactic(auto)]

ghost use Rattle.std.specs.Prelude.{◌≡◌};
ghost use Rattle.signals.specs.Column.{read_of, reads_at};

use figures::{ConditionNumber, RowNumber, StepNumber};
use signals::Reads;

// What a row that reads a condition reads at a step.
#[inline]
pub fn read(reads: Reads, condition: ConditionNumber, r: RowNumber) -> bool
    ensures { result ≡ read_of reads condition.0 r.0 }
{
    match reads.own {
        Some((flipped, value)) if r.0 == flipped.0 => value,
        _ => signals::bit_of(reads.word, condition),
    }
}

// What the condition rows read at step i: past the end of the sequence a flipped row reads false.
pub fn reads_at(word: u32, flip: Option<RowNumber>, sequence: &[u8], i: StepNumber) -> Reads
    ensures { result ≡ reads_at word flip sequence.now i.0 }
{
    let value = sequence.get(i.0).is_some_and(|byte| *byte != 0);
    Reads {
        word,
        own: flip.map(|flipped| (flipped, value)),
    }
}
