// What the sheet answers of a condition: yes, no or unused.
#![tactic(auto)]

ghost use Rattle.std.specs.Prelude.{◌≡◌, ◌&&◌, ◌<◌, length};
ghost use Rattle.signals.specs.Signals.{some};
ghost use Rattle.layout.specs.Layout.{form1};
ghost use Rattle.layout.specs.Checks.{requirement_rows_in};
ghost use Rattle.bench.specs.Coverage.{reads_condition};
ghost use Rattle.bench.specs.Sheet.{answer_by};
ghost use Rattle.bench.specs.Tables.{noted};
ghost use Rattle.bench.specs.Files.{bench_of};

use bench::{ConditionAnswer, Notes, Requirements};
use figures::{ConditionNumber, RequirementNumber, RowNumber};

// Whether a row of requirement q reads condition c.
fn read_in(requirements: Requirements, q: RequirementNumber, c: ConditionNumber) -> bool
    requires { q.0 < requirements.many.0 }
    ensures { result ≡ some (length (requirement_rows_in form1 requirements.entry.file.now q.0)) 0 (reads_condition (bench_of requirements.entry.file.now requirements.entry.file.now) c.0 q.0) }
{
    let many = file_rows::row_count(requirements, q).0;
    (0..many).any(|p| file_rows::reads_condition(requirements.file, q, RowNumber(p), c))
}

// Whether a noted row of requirement q reads condition c.
fn noted_in(
    requirements: Requirements,
    q: RequirementNumber,
    c: ConditionNumber,
    notes: &Notes,
) -> bool
    requires { q.0 < requirements.many.0 }
    ensures { result ≡ some (length (requirement_rows_in form1 requirements.entry.file.now q.0)) 0 (λ p. reads_condition (bench_of requirements.entry.file.now requirements.entry.file.now) c.0 q.0 p && noted notes.now.cells q.0 p) }
{
    let many = file_rows::row_count(requirements, q).0;
    (0..many).any(|p| {
        file_rows::reads_condition(requirements.file, q, RowNumber(p), c)
            && notes.is_noted(q, RowNumber(p))
    })
}

// Whether a requirement reads condition c.
fn condition_read(requirements: Requirements, c: ConditionNumber) -> bool
    ensures { result ≡ some requirements.entry.many.0 0 (λ q. some (length (requirement_rows_in form1 requirements.entry.file.now q)) 0 (reads_condition (bench_of requirements.entry.file.now requirements.entry.file.now) c.0 q)) }
{
    (0..requirements.many.0).any(|q| read_in(requirements, RequirementNumber(q), c))
}

// Whether a noted row of a requirement reads condition c.
fn condition_noted(requirements: Requirements, c: ConditionNumber, notes: &Notes) -> bool
    ensures { result ≡ some requirements.entry.many.0 0 (λ q. some (length (requirement_rows_in form1 requirements.entry.file.now q)) 0 (λ p. reads_condition (bench_of requirements.entry.file.now requirements.entry.file.now) c.0 q p && noted notes.now.cells q p)) }
{
    (0..requirements.many.0).any(|q| noted_in(requirements, RequirementNumber(q), c, notes))
}

// What the sheet says of condition c.
pub fn answer(requirements: Requirements, c: ConditionNumber, notes: &Notes) -> ConditionAnswer
    ensures { result ≡ answer_by (some requirements.entry.many.0 0 (λ q. some (length (requirement_rows_in form1 requirements.entry.file.now q)) 0 (reads_condition (bench_of requirements.entry.file.now requirements.entry.file.now) c.0 q))) (some requirements.entry.many.0 0 (λ q. some (length (requirement_rows_in form1 requirements.entry.file.now q)) 0 (λ p. reads_condition (bench_of requirements.entry.file.now requirements.entry.file.now) c.0 q p && noted notes.now.cells q p))) }
{
    if condition_read(requirements, c) {
        if condition_noted(requirements, c, notes) {
            ConditionAnswer::Yes
        } else {
            ConditionAnswer::No
        }
    } else {
        ConditionAnswer::Unused
    }
}
