// The bench sheet composed line by line: the blocks of the requirements, the `cond` lines, the whole.
#![tactic(auto)]

ghost use Rattle.std.specs.Prelude.{◌≡◌, ◌++◌, ◌&&◌, ◌+◌, ◌*◌, ◌≤◌, ◌<◌, length};
ghost use Rattle.limits.specs.Limits.{most_requirements};
ghost use Rattle.bench.specs.Longest.{cond_line_most, block_most, sheet_most};
ghost use Rattle.arrayvec.specs.ArrayVec.{array_vec_len};
ghost use Rattle.layout.specs.Layout.{form1, requirements_in, runs_in};
ghost use Rattle.layout.specs.Checks.{requirement_rows_in, run_words_in};
ghost use Rattle.signals.specs.Signals.{some};
ghost use Rattle.lines.specs.Texts.{in_order};
ghost use Rattle.bench.specs.Coverage.{reads_condition, condition_read};
ghost use Rattle.bench.specs.Sheet.{block_from, block_of, cond_line, answer_by, sheet_text};
ghost use Rattle.bench.specs.Tables.{noted, RequirementNoted, SuiteNoted};
ghost use Rattle.bench.specs.Files.{bench_of, RowsReady};

use bench::{Marks, Notes, Requirements, Runs};
use figures::{ConditionNumber, RequirementNumber, RowCount};
use lines::Page;

// The block of requirement q, from its rows; and of each row, whether it is an occurrence that mattered, is noted.
fn put_block_of<const MOST: usize>(
    rows: &[[u16; 3]],
    runs: Runs,
    q: RequirementNumber,
    notes: &mut Notes,
    page: &mut Page<MOST>,
)
    requires { RowsReady rows.now × (q.0 < most_requirements) × (array_vec_len page.old.text + block_most ≤ MOST) }
    ensures puts { page.new.text.items ≡ page.old.text.items ++ block_from rows.now runs.entry.many.0 (run_words_in form1 runs.entry.file.now) q.0 }
    ensures ends { array_vec_len page.new.text ≤ array_vec_len page.old.text + block_most }
    ensures requirement_noted { RequirementNoted rows.now runs.entry.many.0 (run_words_in form1 runs.entry.file.now) q.0 notes.old.cells notes.new.cells }
{
    let mut marks = Marks::new();
    let held = marking::mark_runs(rows, runs, &mut marks);
    noting::note_marks(&marks, RowCount(rows.len()), runs.many, q, notes);
    printing::put_req_line(q, occurrences::occurrence_count(rows), held, page);
    covs::put_covs(q, rows, &marks, runs.many, page)
}

// The block of requirement q of one file over the runs of another.
fn put_block<const MOST: usize>(
    requirements: Requirements,
    runs: Runs,
    q: RequirementNumber,
    notes: &mut Notes,
    page: &mut Page<MOST>,
)
    requires { (q.0 < requirements.many.0) × (array_vec_len page.old.text + block_most ≤ MOST) }
    ensures puts { page.new.text.items ≡ page.old.text.items ++ block_of (bench_of requirements.entry.file.now runs.entry.file.now) q.0 }
    ensures ends { array_vec_len page.new.text ≤ array_vec_len page.old.text + block_most }
    ensures requirement_noted { RequirementNoted (requirement_rows_in form1 requirements.entry.file.now q.0) (runs_in runs.entry.file.now) (run_words_in form1 runs.entry.file.now) q.0 notes.old.cells notes.new.cells }
{
    let rows = codec::decode(suite::requirement_bytes(requirements.file, q));
    put_block_of(&rows, runs, q, notes, page)
}

// The blocks of all requirements.
fn put_blocks<const MOST: usize>(
    requirements: Requirements,
    runs: Runs,
    notes: &mut Notes,
    page: &mut Page<MOST>,
)
    requires { array_vec_len page.old.text + block_most * requirements.many.0 ≤ MOST }
    ensures puts { page.new.text.items ≡ page.old.text.items ++ in_order requirements.entry.many.0 (block_of (bench_of requirements.entry.file.now runs.entry.file.now)) }
    ensures ends { array_vec_len page.new.text ≤ array_vec_len page.old.text + block_most * requirements.entry.many.0 }
    ensures suite_noted { SuiteNoted (bench_of requirements.entry.file.now runs.entry.file.now) requirements.entry.many.0 notes.new.cells }
{
    for q in 0..requirements.many.0 {
        put_block(requirements, runs, RequirementNumber(q), notes, page);
    }
}

// The `cond` lines of all conditions, from the notes.
fn put_conds<const MOST: usize>(requirements: Requirements, notes: &Notes, page: &mut Page<MOST>)
    requires { array_vec_len page.old.text + cond_line_most * requirements.conditions.0 ≤ MOST }
    ensures puts { page.new.text.items ≡ page.old.text.items ++ in_order requirements.entry.conditions.0 (λ c. cond_line c (answer_by (condition_read (bench_of requirements.entry.file.now requirements.entry.file.now) c) (some (requirements_in requirements.entry.file.now) 0 (λ q. some (length (requirement_rows_in form1 requirements.entry.file.now q)) 0 (λ p. reads_condition (bench_of requirements.entry.file.now requirements.entry.file.now) c q p && noted notes.now.cells q p))))) }
    ensures ends { array_vec_len page.new.text ≤ array_vec_len page.old.text + cond_line_most * requirements.entry.conditions.0 }
{
    for c in 0..requirements.conditions.0 {
        let answer = conditions::answer(requirements, ConditionNumber(c), notes);
        cond_lines::put_cond_line(ConditionNumber(c), answer, page);
    }
}

// The whole sheet of one file's requirements over the runs of another, today the same file.
pub fn put_sheet<const MOST: usize>(requirements: Requirements, runs: Runs, page: &mut Page<MOST>)
    requires { array_vec_len page.old.text + sheet_most ≤ MOST }
    ensures { page.new.text.items ≡ page.old.text.items ++ sheet_text (bench_of requirements.entry.file.now runs.entry.file.now) }
{
    let mut notes = Notes::new();
    printing::put_suite_line(requirements.many, runs.many, page);
    put_blocks(requirements, runs, &mut notes, page);
    put_conds(requirements, &notes, page);
    let some = counting::all_noted(requirements, &notes);
    let all = counting::all_occurrences(requirements);
    printing::put_total_line(some, all, page)
}
