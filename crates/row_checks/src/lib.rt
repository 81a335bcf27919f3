// Refusals 3, 7, 8 and 9 of a lone table or requirement.
#![tactic(auto)]

ghost use Rattle.std.specs.Prelude.{◌≡◌};
ghost use Rattle.figures.specs.Refusals.{check_says};
ghost use Rattle.rows.specs.Checks.{lowest_unsound, found_row, sized, rows_checked, requirement_checked, requirement_rows};

use figures::{ByteCount, ConditionCount, Refusal, RowNumber, RowPlace};
use lengths::Rows;
use limits::Suite;

#[tactic(auto, using(laws::proofs::Lowest::passed_all))]
pub fn lowest_unsound(rows: &[[u16; 3]], conditions: ConditionCount) -> Option<RowNumber>
    ensures { found_row result ≡ lowest_unsound conditions.0 rows.now }
{
    for (r, row) in rows.iter().enumerate() {
        if !rows::row_sound(*row, RowNumber(r), conditions) {
            return Some(RowNumber(r));
        }
    }
    None
}

// Refusals 3 and 7 of a lone table of so many bytes, which may have at most MOST rows.
pub fn check_size<const MOST: usize>(
    bytes: ByteCount,
    conditions: ConditionCount,
) -> Result<(), Refusal>
    ensures { check_says result ≡ sized MOST conditions.0 bytes.0 }
{
    Suite::lone(conditions)?;
    Rows::<MOST>::new(bytes)?;
    Ok(())
}

// Refusal 8 of a lone table, at the lowest unsound row.
pub fn check_rows(rows: &[[u16; 3]], conditions: ConditionCount) -> Result<(), Refusal>
    ensures { check_says result ≡ rows_checked conditions.0 rows.now }
{
    match lowest_unsound(rows, conditions) {
        Some(r) => Err(Refusal::UnsoundRow(RowPlace::Lone(r))),
        None => Ok(()),
    }
}

// Refusal 9 of a lone requirement, at the lowest row that is not as required.
pub fn check_required(rows: &[[u16; 3]]) -> Result<(), Refusal>
    ensures { check_says result ≡ requirement_checked rows.now }
{
    match required::lowest_unrequired(rows) {
        Some(r) => Err(Refusal::NotRequirement(RowPlace::Lone(r))),
        None => Ok(()),
    }
}

// Refusals 8 and 9 of a lone requirement, 8 over all its rows before 9.
pub fn check_requirement_rows(rows: &[[u16; 3]], conditions: ConditionCount) -> Result<(), Refusal>
    ensures { check_says result ≡ requirement_rows conditions.0 rows.now }
{
    check_rows(rows, conditions)?;
    check_required(rows)
}
