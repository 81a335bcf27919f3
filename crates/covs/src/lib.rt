// The `cov` lines of the sheet, from a table of marks.
#![tactic(auto)]

ghost use Rattle.std.specs.Prelude.{◌≡◌, cond, [], ◌++◌, ◌+◌, ◌*◌, ◌≤◌, ◌<◌, length};
ghost use Rattle.arrayvec.specs.ArrayVec.{array_vec_len};
ghost use Rattle.lengths.specs.Lengths.{most_requirement_rows};
ghost use Rattle.limits.specs.Limits.{most_runs};
ghost use Rattle.bench.specs.Longest.{cov_line_most, cov_lines_most};
ghost use Rattle.rows.specs.Checks.{occurrences};
ghost use Rattle.lines.specs.Texts.{in_order};
ghost use Rattle.bench.specs.Coverage.{row_of_occurrence};
ghost use Rattle.bench.specs.Tables.{marked};
ghost use Rattle.bench.specs.Sheet.{cov_line, cov_lines};

use bench::Marks;
use figures::{OccurrenceNumber, RequirementNumber, RowNumber, RunCount, RunNumber};
use lines::{Field, Page};

// The row of an occurrence that is there.
pub fn row_of(rows: &[[u16; 3]], o: OccurrenceNumber) -> RowNumber
    requires { o.0 < length (occurrences rows.now) }
    ensures { (result.0 ≡ row_of_occurrence rows.now o.0) × (result.0 < length rows.now) }
{
    occurrences::occurrence_row(rows, o).unwrap()
}

fn put_cov_line<const MOST: usize>(
    q: RequirementNumber,
    o: OccurrenceNumber,
    j: RunNumber,
    page: &mut Page<MOST>,
)
    requires { (q.0 < 100) × (o.0 < 100) × (j.0 < 100) × (array_vec_len page.old.text + cov_line_most ≤ MOST) }
    ensures puts { page.new.text.items ≡ page.old.text.items ++ cov_line q.0 o.0 j.0 }
    ensures ends { array_vec_len page.new.text ≤ array_vec_len page.old.text + cov_line_most }
{
    page.put_word(b"cov", b' ');
    page.put_number(Field(q.0), b' ');
    page.put_number(Field(o.0), b' ');
    page.put_number(Field(j.0), b'\n')
}

// A `cov` line where the pair is marked, and nothing where it is not.
fn put_cov_if<const MOST: usize>(
    mark: bool,
    q: RequirementNumber,
    o: OccurrenceNumber,
    j: RunNumber,
    page: &mut Page<MOST>,
)
    requires { (q.0 < 100) × (o.0 < 100) × (j.0 < 100) × (array_vec_len page.old.text + cov_line_most ≤ MOST) }
    ensures puts { page.new.text.items ≡ page.old.text.items ++ cond mark (cov_line q.0 o.0 j.0) [] }
    ensures ends { array_vec_len page.new.text ≤ array_vec_len page.old.text + cov_line_most }
{
    if mark {
        put_cov_line(q, o, j, page)
    }
}

// The `cov` lines of one occurrence, which stands in row p: a line a marked run.
fn put_covs_of<const MOST: usize>(
    q: RequirementNumber,
    o: OccurrenceNumber,
    p: RowNumber,
    marks: &Marks,
    runs: RunCount,
    page: &mut Page<MOST>,
)
    requires { (q.0 < 100) × (o.0 < 100) × (p.0 < most_requirement_rows) × (runs.0 ≤ most_runs) × (array_vec_len page.old.text + cov_line_most * runs.0 ≤ MOST) }
    ensures puts { page.new.text.items ≡ page.old.text.items ++ in_order runs.0 (λ j. cond (marked marks.now.cells p.0 j) (cov_line q.0 o.0 j) []) }
    ensures ends { array_vec_len page.new.text ≤ array_vec_len page.old.text + cov_line_most * runs.0 }
{
    for j in 0..runs.0 {
        put_cov_if(marks.is_marked(p, RunNumber(j)), q, o, RunNumber(j), page);
    }
}

// The `cov` lines of a requirement, by occurrence and then by run.
pub fn put_covs<const MOST: usize>(
    q: RequirementNumber,
    rows: &[[u16; 3]],
    marks: &Marks,
    runs: RunCount,
    page: &mut Page<MOST>,
)
    requires { (q.0 < 100) × (length rows.now ≤ most_requirement_rows) × (runs.0 ≤ most_runs) × (array_vec_len page.old.text + cov_lines_most * length rows.now ≤ MOST) }
    ensures puts { page.new.text.items ≡ page.old.text.items ++ cov_lines rows.now runs.0 (marked marks.now.cells) q.0 }
    ensures ends { array_vec_len page.new.text ≤ array_vec_len page.old.text + cov_lines_most * length rows.now }
{
    for o in 0..occurrences::occurrence_count(rows).0 {
        let p = row_of(rows, OccurrenceNumber(o));
        put_covs_of(q, OccurrenceNumber(o), p, marks, runs, page);
    }
}
