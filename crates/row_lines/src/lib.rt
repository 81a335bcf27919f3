// A block of steps, and one row over it: the row's words at the block's steps, written from the last step to the first.
#![tactic(auto)]

ghost use Rattle.std.specs.Prelude.{◌≡◌, cond, ℕ, ◌<◌, ◌≤◌, length};
ghost use Rattle.lanes.specs.Lanes.{lane_count, lane};
ghost use Rattle.signals.specs.Truth.{bit};
ghost use Rattle.row_lines.specs.RowLines.{block_steps, block_words, Fits, Lined};

use figures::ConditionNumber;
use rows::Kind;
use signals::Values;

// A block of steps. The words of a row at its steps are the row's line; the lines of all rows stand one after another.
#[derive(Clone, Copy)]
pub struct Block(pub usize);

impl Block {
    // The most steps of a block, and the words of its lines.
    pub const STEPS: usize = 64;

    pub const WORDS: usize = 2048;
}

// A row to be judged over a block: its number, its fields, in which lanes it reads the run and what it reads in the others, what its first
// child and the row itself have at the step after the block, and whether there is no such step.
#[derive(Clone, Copy)]
pub struct Line {
    pub row: usize,
    pub first: usize,
    pub second: usize,
    pub keep: u64,
    pub flips: u64,
    pub first_after: u64,
    pub row_after: u64,
    pub last: bool,
}

// What a row that reads a condition reads at a step: its condition in the lanes that it keeps, its own value in the others.
fn own_lanes(word: u32, condition: ConditionNumber, keep: u64, flips: u64) -> u64
    ensures { (k : ℕ) → k < lane_count → lane result k ≡ cond (lane keep k) (bit word condition.0) (lane flips k) }
{
    let recorded = u64::in_all(signals::bit_of(word, condition));
    (keep & recorded) | (!keep & flips)
}

// The line of a row of a kind, from the block's last step to its first.
pub fn put_line(
    kind: Kind,
    line: Line,
    words: &[u32; Block::STEPS],
    steps: usize,
    lines: &mut [u64; Block::WORDS],
)
    requires { Fits line × (steps ≤ block_steps) × (length lines.old ≡ block_words) }
    ensures { Lined kind line words.now steps lines.old lines.new }
{
    let mut a_next = line.first_after;
    let mut next = line.row_after;
    let mut ends = u64::in_all(line.last);
    for t in (0..steps).rev() {
        let a = lines[Block::STEPS * line.first + t];
        let b = lines[Block::STEPS * line.second + t];
        let own = own_lanes(words[t], ConditionNumber(line.first), line.keep, line.flips);
        next = signals::cell(kind, own, a, b, a_next, next, ends);
        ends = 0;
        lines[Block::STEPS * line.row + t] = next;
        a_next = a;
    }
}
