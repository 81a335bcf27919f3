// Notes: which occurrences of a suite mattered in some run.
#![tactic(auto)]

ghost use Rattle.std.specs.Prelude.{◌≡◌, ◌≤◌, ◌<◌};
ghost use Rattle.lengths.specs.Lengths.{most_requirement_rows};
ghost use Rattle.limits.specs.Limits.{most_runs, most_requirements};
ghost use Rattle.signals.specs.Signals.{some};
ghost use Rattle.bench.specs.Tables.{marked, RowNoted};

use bench::{Marks, Notes};
use figures::{RequirementNumber, RowCount, RowNumber, RunCount};
use limits::Suite;

// Whether one of the marks of row p is set.
fn any_mark(marks: &Marks, p: RowNumber, runs: RunCount) -> bool
    requires { (p.0 < most_requirement_rows) × (runs.0 ≤ most_runs) }
    ensures { result ≡ some runs.0 0 (marked marks.now.cells p.0) }
{
    let row = Suite::RUNS * p.0;
    marks.cells[row..row + runs.0].iter().any(|mark| *mark)
}

// Notes of each row of requirement q whether one of its marks is set.
pub fn note_marks(
    marks: &Marks,
    rows: RowCount,
    runs: RunCount,
    q: RequirementNumber,
    notes: &mut Notes,
)
    requires { (rows.0 ≤ most_requirement_rows) × (runs.0 ≤ most_runs) × (q.0 < most_requirements) }
    ensures { RowNoted marks.now.cells runs.0 q.0 rows.0 notes.old.cells notes.new.cells }
{
    for p in 0..rows.0 {
        let mark = any_mark(marks, RowNumber(p), runs);
        notes.note(q, RowNumber(p), mark);
    }
}
