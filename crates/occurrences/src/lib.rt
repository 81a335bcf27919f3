// The occurrences of a requirement: how many, and the row of each.
#![tactic(auto)]

ghost use Rattle.std.specs.Prelude.{◌≡◌, length, slice_get};
ghost use Rattle.rows.specs.Checks.{found_row, occurrences, occurrence_says, occurrence_of};

use figures::{OccurrenceCount, OccurrenceNumber, Refusal, RowNumber};

pub fn occurrence_count(rows: &[[u16; 3]]) -> OccurrenceCount
    ensures { result.0 ≡ length (occurrences rows.now) }
{
    OccurrenceCount(
        rows.iter()
            .filter(|row| rows::is_condition_row(**row))
            .count(),
    )
}

// The row of an occurrence.
#[tactic(auto, using(laws::proofs::Below::found_none), unfolding(figures::specs::Numbers::below))]
pub fn occurrence_row(rows: &[[u16; 3]], occurrence: OccurrenceNumber) -> Option<RowNumber>
    ensures { found_row result ≡ slice_get (occurrences rows.now) occurrence.0 }
{
    let mut seen = 0;
    for (r, row) in rows.iter().enumerate() {
        if rows::is_condition_row(*row) {
            if seen == occurrence.0 {
                return Some(RowNumber(r));
            }
            seen += 1;
        }
    }
    None
}

// The row of an occurrence, or refusal 12.
pub fn occurrence_of(rows: &[[u16; 3]], occurrence: OccurrenceNumber) -> Result<RowNumber, Refusal>
    ensures { occurrence_says result ≡ occurrence_of rows.now occurrence.0 }
{
    occurrence_row(rows, occurrence).ok_or(Refusal::NoSuch)
}
