// The table of marks of one requirement over the runs of a file, and how many of the runs it holds of: one pass over each run.
#![tactic(auto)]

ghost use Rattle.std.specs.Prelude.{◌≡◌, ◌≤◌, ◌<◌, length};
ghost use Rattle.limits.specs.Limits.{most_runs};
ghost use Rattle.lengths.specs.Lengths.{most_requirement_rows};
ghost use Rattle.signals.specs.Truth.{holds};
ghost use Rattle.layout.specs.Layout.{form1};
ghost use Rattle.layout.specs.Checks.{words_of, run_words_in};
ghost use Rattle.row_lines.specs.RowLines.{block_words};
ghost use Rattle.bench.specs.Coverage.{held_of};
ghost use Rattle.bench.specs.Tables.{Marked, ColumnMarked};
ghost use Rattle.bench.specs.Files.{RowsReady, RunReady};
ghost use Rattle.marking.specs.Flipped.{Keeps, Witnesses, Flips};

use bench::{Marks, Runs};
use figures::{RowNumber, RunCount, RunNumber};
use lanes::Lane;
use lengths::REQUIREMENT_ROWS;
use row_lines::Block;
use signals::Values;

// The lanes in which each row reads the run: an occurrence does not in the lane of its number.
#[tactic(auto, unfolding(figures::specs::Numbers::below))]
fn keep_of(rows: &[[u16; 3]]) -> [u64; REQUIREMENT_ROWS]
    requires { length rows.now ≤ most_requirement_rows }
    ensures { Keeps rows.now result (length rows.now) }
{
    let mut keep = [0u64; REQUIREMENT_ROWS];
    let mut o = 0;
    for (r, row) in rows.iter().enumerate() {
        let reads = rows::is_condition_row(*row);
        keep[r] = u64::in_all(!reads) | lanes::all_but(Lane(o));
        o += usize::from(reads);
    }
    keep
}

// What each row reads where it does not read the run.
fn flips_of(rows: &[[u16; 3]]) -> [u64; REQUIREMENT_ROWS]
    requires { length rows.now ≤ most_requirement_rows }
    ensures { Witnesses rows.now result (length rows.now) }
{
    let mut flips = [0u64; REQUIREMENT_ROWS];
    for r in 0..rows.len() {
        flips[r] = u64::in_all(flips::under_not(rows, RowNumber(r)));
    }
    flips
}

// Marks every row for run j, and says whether the requirement holds of it.
#[tactic(auto, unfolding(figures::specs::Numbers::below))]
fn mark_run(
    rows: &[[u16; 3]],
    keep: &[u64; REQUIREMENT_ROWS],
    flips: &[u64; REQUIREMENT_ROWS],
    run: &[u8],
    j: RunNumber,
    lines: &mut [u64; Block::WORDS],
    marks: &mut Marks,
) -> bool
    requires { RowsReady rows.now × Flips rows.now keep.now flips.now × RunReady (words_of run.now) × (j.0 < most_runs) × (length lines.old ≡ block_words) }
    ensures value { result ≡ holds rows.now (words_of run.now) }
    ensures column_marked { ColumnMarked rows.now (words_of run.now) j.0 marks.old.cells marks.new.cells }
    ensures lines_len { length lines.new ≡ block_words }
{
    let verdicts = blocks::judge(rows, keep, flips, run, lines);
    let held = lanes::in_lane(verdicts, Lane(Lane::LAST));
    let mut o = 0;
    for (p, row) in rows.iter().enumerate() {
        let reads = rows::is_condition_row(*row);
        let mark = reads & (held & !lanes::in_lane(verdicts, Lane(o)));
        marks.mark(RowNumber(p), j, mark);
        o += usize::from(reads);
    }
    held
}

// The marks of a requirement's rows for the runs of a file, and how many of the runs it holds of.
#[tactic(auto, unfolding(figures::specs::Numbers::below))]
pub fn mark_runs(rows: &[[u16; 3]], runs: Runs, marks: &mut Marks) -> RunCount
    requires { RowsReady rows.now }
    ensures result_value { (result.0 ≡ held_of rows.now runs.entry.many.0 (run_words_in form1 runs.entry.file.now)) × (result.0 ≤ runs.entry.many.0) }
    ensures marked { Marked rows.now (run_words_in form1 runs.entry.file.now) runs.entry.many.0 marks.new.cells }
{
    let keep = keep_of(rows);
    let flips = flips_of(rows);
    let mut lines = [0u64; Block::WORDS];
    let mut count = 0;
    for j in 0..runs.many.0 {
        let run = suite::run_bytes(runs.file, RunNumber(j));
        let held = mark_run(rows, &keep, &flips, run, RunNumber(j), &mut lines, marks);
        count += usize::from(held);
    }
    RunCount(count)
}
