// Rows as a requirement has them: the check behind refusal 9.
#![tactic(auto)]

ghost use Rattle.std.specs.Prelude.{◌≡◌, length, ◌&&◌, ◌<◌};
ghost use Rattle.rows.specs.Rows.{named};
ghost use Rattle.rows.specs.Checks.{found_row, times, namings, named_once, not_over_condition, lowest_unrequired};

use figures::RowNumber;
use rows::{Fields, Kind};

// How often a row names row k.
fn times_named(row: [u16; 3], k: RowNumber) -> usize
    ensures { result ≡ times k.0 (named row) }
{
    let first = usize::from(k.0 == usize::from(row[1]));
    let second = usize::from(k.0 == usize::from(row[2]));
    match Kind::from(row[0]).fields() {
        Fields::OneRow => first,
        Fields::TwoRows => first + second,
        Fields::Neither | Fields::Condition | Fields::Unknown => 0,
    }
}

// How often the rows of a table name row k.
#[tactic(auto, using(rows::proofs::Named::at_most_two), unfolding(rows::specs::Checks::namings))]
fn namings(rows: &[[u16; 3]], k: RowNumber) -> usize
    ensures { result ≡ namings rows.now k.0 (length rows.now) }
{
    let mut count = 0;
    for row in rows {
        count += times_named(*row, k);
    }
    count
}

// Whether a row is as a requirement has it: 9 is given where it is not.
fn row_required(rows: &[[u16; 3]], r: RowNumber) -> bool
    requires { r.0 < length rows.now }
    ensures { result ≡ (named_once rows.now r.0 && not_over_condition rows.now r.0) }
{
    let row = rows[r.0];
    let below_last = r.0 + 1 < rows.len();
    let once = namings(rows, r) == 1;
    let over_condition = rows::is_condition(rows, RowNumber(usize::from(row[1])));
    (!below_last | once) & (!rows::is_not_row(row) | over_condition)
}

#[tactic(auto, using(laws::proofs::Lowest::passed_all))]
pub fn lowest_unrequired(rows: &[[u16; 3]]) -> Option<RowNumber>
    ensures { found_row result ≡ lowest_unrequired rows.now }
{
    for r in 0..rows.len() {
        if !row_required(rows, RowNumber(r)) {
            return Some(RowNumber(r));
        }
    }
    None
}
