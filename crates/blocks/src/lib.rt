// All readings of a run judged in one pass from its last step to its first, a block of steps at a time, and each block row by row.
#![tactic(auto)]

ghost use Rattle.std.specs.Prelude.{◌≡◌, ℕ, ◌+◌, ◌/◌, ◌<◌, ◌≤◌, length, get_or};
ghost use Rattle.lengths.specs.Lengths.{most_requirement_rows};
ghost use Rattle.signals.specs.Truth.{verdict_of};
ghost use Rattle.signals.specs.Column.{FitIn};
ghost use Rattle.layout.specs.Layout.{word_size};
ghost use Rattle.layout.specs.Checks.{words_of};
ghost use Rattle.lanes.specs.Lanes.{lane_count, lane};
ghost use Rattle.row_lines.specs.RowLines.{block_steps, block_words, line_at, Fits, Lined};
ghost use Rattle.blocks.specs.Blocks.{lane_reads, BlockTrue};

use layout::Form;
use lengths::REQUIREMENT_ROWS;
use row_lines::{Block, Line};
use rows::Kind;

// The line of a row of a kind, with a loop for each kind: the compiler makes them of the one of `row_lines`, so that no step asks for the kind.
fn line_by_kind(
    kind: Kind,
    line: Line,
    words: &[u32; Block::STEPS],
    steps: usize,
    lines: &mut [u64; Block::WORDS],
)
    requires { Fits line × (steps ≤ block_steps) × (length lines.old ≡ block_words) }
    ensures { Lined kind line words.now steps lines.old lines.new }
{
    match kind {
        Kind::False => row_lines::put_line(Kind::False, line, words, steps, lines),
        Kind::True => row_lines::put_line(Kind::True, line, words, steps, lines),
        Kind::Condition => row_lines::put_line(Kind::Condition, line, words, steps, lines),
        Kind::Not => row_lines::put_line(Kind::Not, line, words, steps, lines),
        Kind::And => row_lines::put_line(Kind::And, line, words, steps, lines),
        Kind::Or => row_lines::put_line(Kind::Or, line, words, steps, lines),
        Kind::StrongNext => row_lines::put_line(Kind::StrongNext, line, words, steps, lines),
        Kind::WeakNext => row_lines::put_line(Kind::WeakNext, line, words, steps, lines),
        Kind::Until => row_lines::put_line(Kind::Until, line, words, steps, lines),
        Kind::Release => row_lines::put_line(Kind::Release, line, words, steps, lines),
        Kind::Finally => row_lines::put_line(Kind::Finally, line, words, steps, lines),
        Kind::Globally => row_lines::put_line(Kind::Globally, line, words, steps, lines),
        Kind::WeakUntil => row_lines::put_line(Kind::WeakUntil, line, words, steps, lines),
        Kind::Unknown => row_lines::put_line(Kind::Unknown, line, words, steps, lines),
    }
}

// The lines of all rows over a block.
fn put_lines(
    rows: &[[u16; 3]],
    keep: &[u64; REQUIREMENT_ROWS],
    flips: &[u64; REQUIREMENT_ROWS],
    after: &[u64; REQUIREMENT_ROWS],
    last: bool,
    words: &[u32; Block::STEPS],
    steps: usize,
    lines: &mut [u64; Block::WORDS],
)
    requires { FitIn most_requirement_rows rows.now × (steps ≤ block_steps) × (length lines.old ≡ block_words) }
    ensures lines_len { length lines.new ≡ block_words }
    ensures block_true { BlockTrue rows.now keep.now flips.now after.now last words.now steps lines.new (length rows.now) }
{
    for (r, row) in rows.iter().enumerate() {
        let first = usize::from(row[1]);
        let line = Line {
            row: r,
            first,
            second: usize::from(row[2]),
            keep: keep[r],
            flips: flips[r],
            first_after: after[first],
            row_after: after[r],
            last,
        };
        line_by_kind(Kind::from(row[0]), line, words, steps, lines);
    }
}

// The words of a block of a run.
fn block_words(run: &[u8], from: usize, steps: usize) -> [u32; Block::STEPS]
    requires { (steps ≤ block_steps) × (from + steps ≤ length run.now / word_size) }
    ensures { (t : ℕ) → t < steps → get_or result t 0 ≡ get_or (words_of run.now) (from + t) 0 }
{
    let mut words = [0u32; Block::STEPS];
    for t in 0..steps {
        words[t] = little::word_of(&run[Form::WORD_BYTES * (from + t)..]);
    }
    words
}

// The column of a block's first step.
fn first_column(lines: &[u64; Block::WORDS]) -> [u64; REQUIREMENT_ROWS]
    ensures { (r : ℕ) → r < most_requirement_rows → get_or result r 0 ≡ line_at lines.now r 0 }
{
    let mut column = [0u64; REQUIREMENT_ROWS];
    for r in 0..REQUIREMENT_ROWS {
        column[r] = lines[Block::STEPS * r];
    }
    column
}

// The steps of the block that ends before a step.
fn steps_before(i: usize) -> usize
    requires { 0 < i }
    ensures { (0 < result) × (result ≤ i) × (result ≤ block_steps) }
{
    i.min(Block::STEPS)
}

// The verdict of a requirement over a run in each lane.
pub fn judge(
    rows: &[[u16; 3]],
    keep: &[u64; REQUIREMENT_ROWS],
    flips: &[u64; REQUIREMENT_ROWS],
    run: &[u8],
    lines: &mut [u64; Block::WORDS],
) -> u64
    requires { FitIn most_requirement_rows rows.now × (0 < length rows.now) × (0 < length (words_of run.now)) × (length lines.old ≡ block_words) }
    ensures by_index { (k : ℕ) → k < lane_count → lane result k ≡ verdict_of rows.now (lane_reads rows.now keep.now flips.now (words_of run.now) k) (length (words_of run.now)) }
    ensures lines_len { length lines.new ≡ block_words }
{
    let steps = run.len() / Form::WORD_BYTES;
    let mut after = [0u64; REQUIREMENT_ROWS];
    let mut i = steps;
    while 0 < i {
        let last = i == steps;
        let count = steps_before(i);
        i -= count;
        let words = block_words(run, i, count);
        put_lines(rows, keep, flips, &after, last, &words, count, lines);
        after = first_column(lines);
    }
    after[rows.len() - 1]
}
