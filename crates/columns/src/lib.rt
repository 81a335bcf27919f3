// The column engine: all rows at one step, from the last step to the first.
#![tactic(auto)]

ghost use Rattle.std.specs.Prelude.{◌≡◌, ℕ, ◌<◌, ◌≤◌, length, get_or};
ghost use Rattle.lengths.specs.Lengths.{most_table_rows};
ghost use Rattle.rows.specs.declared.Kind.TheVariants.{False, Condition};
ghost use Rattle.rows.specs.Rows.{kind, row_at};
ghost use Rattle.signals.specs.Truth.{verdict_of};
ghost use Rattle.signals.specs.Column.{Cells, Fit, own_by, read_of, reading_of};

use figures::{ConditionNumber, RowNumber, StepNumber};
use lengths::TABLE_ROWS;
use rows::Kind;
use signals::Reads;

// The kind of each row, read once and not at each step.
fn kinds_of(rows: &[[u16; 3]]) -> [Kind; TABLE_ROWS]
    requires { length rows.now ≤ most_table_rows }
    ensures { (r : ℕ) → r < length rows.now → get_or result r False ≡ kind (row_at rows.now r) }
{
    let mut kinds = [Kind::Unknown; TABLE_ROWS];
    for (r, row) in rows.iter().enumerate() {
        kinds[r] = Kind::from(row[0]);
    }
    kinds
}

// What a condition row reads at a step. Of another row nothing is read: its value does not hang on this.
#[inline]
fn own_of(kind: Kind, reads: Reads, condition: ConditionNumber, r: RowNumber) -> bool
    ensures { kind ≡ Condition → result ≡ read_of reads condition.0 r.0 }
{
    kind == Kind::Condition && readings::read(reads, condition, r)
}

// The column of the step in hand, from what is read at it and the column of the step after it.
fn column(
    rows: &[[u16; 3]],
    kinds: &[Kind; TABLE_ROWS],
    reads: Reads,
    after: &[bool; TABLE_ROWS],
    last: bool,
    here: &mut [bool; TABLE_ROWS],
)
    requires fit { Fit rows.now }
    requires kinds { (r : ℕ) → r < length rows.now → get_or kinds.now r False ≡ kind (row_at rows.now r) }
    requires here_len { length here.old ≡ most_table_rows }
    ensures here_len_2 { length here.new ≡ most_table_rows }
    ensures cells { Cells rows.now (own_by rows.now reads) after.now last here.new (length rows.now) }
{
    for (r, row) in rows.iter().enumerate() {
        let first = usize::from(row[1]);
        let second = usize::from(row[2]);
        let own = own_of(kinds[r], reads, ConditionNumber(first), RowNumber(r));
        here[r] = signals::cell(
            kinds[r],
            own,
            here[first],
            here[second],
            after[first],
            after[r],
            last,
        );
    }
}

// The verdict of a formula over a run, from the last step to the first; one row may read a lent sequence, a byte a step, not 0
// for true.
pub fn judge(rows: &[[u16; 3]], run: &[u32], flip: Option<RowNumber>, sequence: &[u8]) -> bool
    requires { Fit rows.now × (0 < length rows.now) × (0 < length run.now) }
    ensures { result ≡ verdict_of rows.now (reading_of rows.now run.now flip sequence.now) (length run.now) }
{
    let steps = run.len();
    let kinds = kinds_of(rows);
    let mut here = [false; TABLE_ROWS];
    let mut after = [false; TABLE_ROWS];
    for i in (0..steps).rev() {
        let reads = readings::reads_at(run[i], flip, sequence, StepNumber(i));
        column(rows, &kinds, reads, &after, i + 1 == steps, &mut here);
        after = here;
    }
    after[rows.len() - 1]
}
