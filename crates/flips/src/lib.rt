// One occurrence of a requirement, flipped at every step of a run: whether the pair is covered.
#![tactic(auto)]

ghost use Rattle.std.specs.Prelude.{◌≡◌, cond, ◌&&◌, ◌++◌, ◌≤◌, ◌<◌, eqb, length, drop, replicate};
ghost use Rattle.rows.specs.Rows.{first};
ghost use Rattle.rows.specs.Checks.{is_not};
ghost use Rattle.signals.specs.Truth.{reads_of};
ghost use Rattle.coverage.specs.Coverage.{witness_bit, covered};
ghost use Rattle.flips.specs.Pair.{Pair};

use figures::{RowNumber, StepCount};
use lengths::Run;

// Whether a row is "not", kind 3, over row p.
fn negates(row: [u16; 3], p: RowNumber) -> bool
    ensures { result ≡ (is_not row && eqb (first row) p.0) }
{
    rows::is_not_row(row) && usize::from(row[1]) == p.0
}

// Whether "not" stands over row p.
pub fn under_not(rows: &[[u16; 3]], p: RowNumber) -> bool
    ensures { result ≡ witness_bit rows.now p.0 }
{
    rows.iter().any(|row| negates(*row, p))
}

// The byte that a witness of the occurrence at row p has at every step.
pub fn witness_byte(rows: &[[u16; 3]], p: RowNumber) -> u8
    ensures { result ≡ cond (witness_bit rows.now p.0) 1 0 }
{
    u8::from(under_not(rows, p))
}

// Writes one value at the front of what is lent, a byte a step.
pub fn fill(out: &mut [u8], steps: StepCount, value: u8)
    requires { steps.0 ≤ length out.old }
    ensures { out.new ≡ replicate steps.0 value ++ drop steps.0 out.old }
{
    out[..steps.0].fill(value);
}

// Whether a run covers the occurrence at row p: where any sequence makes the requirement false the witness does, so no other is tried.
pub fn covers(rows: &[[u16; 3]], run: &[u32], p: RowNumber) -> bool
    requires { Pair rows.now run.now p.0 }
    ensures { result ≡ covered rows.now (reads_of rows.now run.now) (length run.now) p.0 }
{
    if !columns::judge(rows, run, None, b"") {
        return false;
    }
    let sequence = [witness_byte(rows, p); Run::STEPS];
    !columns::judge(rows, run, Some(p), &sequence[..run.len()])
}
