// All occurrences of a suite, and those that mattered, counted.
#![tactic(auto)]

ghost use Rattle.std.specs.Prelude.{◌≡◌, ◌≤◌, ◌<◌, length};
ghost use Rattle.lengths.specs.Lengths.{most_requirement_rows};
ghost use Rattle.bench.specs.Longest.{note_count};
ghost use Rattle.rows.specs.Checks.{occurrences};
ghost use Rattle.layout.specs.Layout.{form1};
ghost use Rattle.layout.specs.Checks.{requirement_rows_in};
ghost use Rattle.bench.specs.Coverage.{size, sum};
ghost use Rattle.bench.specs.Tables.{noted};

use bench::{Notes, Requirements};
use figures::{OccurrenceCount, RequirementNumber, RowNumber};

// How many occurrences requirement q has.
fn occurrences_of(requirements: Requirements, q: RequirementNumber) -> usize
    requires { q.0 < requirements.many.0 }
    ensures { (result ≡ length (occurrences (requirement_rows_in form1 requirements.entry.file.now q.0))) × (result ≤ most_requirement_rows) }
{
    let many = file_rows::row_count(requirements, q).0;
    (0..many)
        .filter(|p| file_rows::is_occurrence(requirements.file, q, RowNumber(*p)))
        .count()
}

// How many rows of requirement q are noted.
fn noted_of(requirements: Requirements, q: RequirementNumber, notes: &Notes) -> usize
    requires { q.0 < requirements.many.0 }
    ensures { (result ≡ size (length (requirement_rows_in form1 requirements.entry.file.now q.0)) (noted notes.now.cells q.0)) × (result ≤ most_requirement_rows) }
{
    let many = file_rows::row_count(requirements, q).0;
    (0..many)
        .filter(|p| notes.is_noted(q, RowNumber(*p)))
        .count()
}

// How many occurrences a file's requirements have together.
pub fn all_occurrences(requirements: Requirements) -> OccurrenceCount
    ensures { (result.0 ≡ sum requirements.entry.many.0 (λ q. length (occurrences (requirement_rows_in form1 requirements.entry.file.now q)))) × (result.0 ≤ note_count) }
{
    let mut total = 0;
    for q in 0..requirements.many.0 {
        total += occurrences_of(requirements, RequirementNumber(q));
    }
    OccurrenceCount(total)
}

// How many rows of a file's requirements are noted.
pub fn all_noted(requirements: Requirements, notes: &Notes) -> OccurrenceCount
    ensures { (result.0 ≡ sum requirements.entry.many.0 (λ q. size (length (requirement_rows_in form1 requirements.entry.file.now q)) (noted notes.now.cells q))) × (result.0 ≤ note_count) }
{
    let mut total = 0;
    for q in 0..requirements.many.0 {
        total += noted_of(requirements, RequirementNumber(q), notes);
    }
    OccurrenceCount(total)
}
