// The rows of a suite file, read where they stand.
#![tactic(auto)]

ghost use Rattle.std.specs.Prelude.{◌≡◌, ◌≤◌, ◌<◌, length};
ghost use Rattle.lengths.specs.Lengths.{most_requirement_rows};
ghost use Rattle.rows.specs.Rows.{row_at};
ghost use Rattle.rows.specs.Checks.{condition_at};
ghost use Rattle.layout.specs.Layout.{form1, requirements_in};
ghost use Rattle.layout.specs.Checks.{requirement_rows_in};
ghost use Rattle.bench.specs.Coverage.{reads_condition};
ghost use Rattle.bench.specs.Files.{bench_of, RequirementsReady};

use bench::Requirements;
use figures::{ConditionNumber, RequirementNumber, RowCount, RowNumber};
use lengths::ROW_BYTES;

// How many rows requirement q of a file has.
pub fn row_count(requirements: Requirements, q: RequirementNumber) -> RowCount
    requires { q.0 < requirements.many.0 }
    ensures { (result.0 ≡ length (requirement_rows_in form1 requirements.entry.file.now q.0)) × (result.0 ≤ most_requirement_rows) }
{
    let body = suite::requirement_bytes(requirements.file, q);
    RowCount(body.len() / ROW_BYTES)
}

// Row p of requirement q.
fn row_of(file: &[u8], q: RequirementNumber, p: RowNumber) -> [u16; 3]
    requires { (q.0 < 256) × (p.0 < length (requirement_rows_in form1 file.now q.0)) }
    ensures { result ≡ row_at (requirement_rows_in form1 file.now q.0) p.0 }
{
    let body = suite::requirement_bytes(file, q);
    codec::row_of(&body[ROW_BYTES * p.0..])
}

// Whether row p of requirement q is an occurrence.
pub fn is_occurrence(file: &[u8], q: RequirementNumber, p: RowNumber) -> bool
    requires { (q.0 < 256) × (p.0 < length (requirement_rows_in form1 file.now q.0)) }
    ensures { result ≡ condition_at (requirement_rows_in form1 file.now q.0) p.0 }
{
    rows::is_condition_row(row_of(file, q, p))
}

// Whether row p of requirement q is an occurrence that reads condition c.
pub fn reads_condition(file: &[u8], q: RequirementNumber, p: RowNumber, c: ConditionNumber) -> bool
    requires { (q.0 < 256) × (p.0 < length (requirement_rows_in form1 file.now q.0)) }
    ensures { result ≡ reads_condition (bench_of file.now file.now) c.0 q.0 p.0 }
{
    let row = row_of(file, q, p);
    rows::is_condition_row(row) && usize::from(row[1]) == c.0
}
