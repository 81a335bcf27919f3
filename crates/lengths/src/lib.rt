// The lengths of tables and runs: each limit named once, and the constructors that apply them.
#![tactic(auto)]

ghost use Rattle.std.specs.Prelude.{◌≡◌};
ghost use Rattle.limits.specs.Limits.{within};
ghost use Rattle.lengths.specs.Lengths.{rows_within, rows_say, run_says, rows_of, run_of};

use figures::{ByteCount, Refusal, RowCount, StepCount};

// The bytes of a row.
pub const ROW_BYTES: usize = 3;

fn rows_within(most: usize, bytes: usize) -> bool
    ensures { result ≡ rows_within most bytes }
{
    bytes % Table::ROW_BYTES == 0 && limits::within(1, most, bytes / Table::ROW_BYTES)
}

// A table's number of rows, which is at most MOST.
#[derive(Clone, Copy)]
pub struct Rows<const MOST: usize>(pub RowCount);

// A formula table, and a requirement, each by the most rows that it may have.
pub const TABLE_ROWS: usize = 224;

pub const REQUIREMENT_ROWS: usize = 32;

pub type Table = Rows<TABLE_ROWS>;

pub type Requirement = Rows<REQUIREMENT_ROWS>;

// A run's number of steps, within its limits.
#[derive(Clone, Copy)]
pub struct Run(pub StepCount);

impl Rows<TABLE_ROWS> {
    // The most rows of a formula table, and the bytes of a row.
    pub const ROWS: usize = TABLE_ROWS;

    pub const ROW_BYTES: usize = ROW_BYTES;
}

impl Rows<REQUIREMENT_ROWS> {
    // The most rows of a requirement.
    pub const ROWS: usize = REQUIREMENT_ROWS;
}

const _: () = prove!(Table::ROWS == TABLE_ROWS);

const _: () = prove!(Requirement::ROWS == REQUIREMENT_ROWS);

impl<const MOST: usize> Rows<MOST> {
    #[tactic(auto, unfolding(crate::specs::Lengths::rows_of))]
    pub fn new(bytes: ByteCount) -> Result<Self, Refusal>
        ensures { rows_say result ≡ rows_of MOST bytes.0 }
    {
        if rows_within(MOST, bytes.0) {
            Ok(Rows(RowCount(bytes.0 / ROW_BYTES)))
        } else {
            Err(Refusal::TableLength)
        }
    }
}

impl Run {
    // The most steps of a run.
    pub const STEPS: usize = 4096;

    #[tactic(auto, unfolding(crate::specs::Lengths::run_of))]
    pub fn new(steps: StepCount) -> Result<Self, Refusal>
        ensures { run_says result ≡ run_of steps.0 }
    {
        if limits::within(1, Self::STEPS, steps.0) {
            Ok(Run(steps))
        } else {
            Err(Refusal::RunLength)
        }
    }
}
