// What the list and the sheet count and say: definitions, and laws about them.
#![tactic(auto)]

ghost use Rattle.std.specs.Prelude.{◌≡◌, false, ℕ, ◌<◌};
ghost use Rattle.lengths.specs.Lengths.{most_requirement_rows};
ghost use Rattle.limits.specs.Limits.{most_requirements, most_runs};
ghost use Rattle.figures.specs.Refusals.Outcome.{gives};
ghost use Rattle.layout.specs.Layout.{form1, conditions_in, requirements_in, runs_in};
ghost use Rattle.layout.specs.Checks.{file_says};
ghost use Rattle.bench.specs.Longest.{mark_count, note_count};
ghost use Rattle.bench.specs.Tables.{marked, noted, CellSet};
ghost use Rattle.bench.specs.Files.{RequirementsReady, RunsReady, requirements_ready_prop};

use figures::{
    ConditionCount, RequirementCount, RequirementNumber, RowNumber, RunCount, RunNumber,
};
use lengths::REQUIREMENT_ROWS;
use limits::Suite;
use lines::Page;

// The requirements of a file that passed its checks, and how many conditions and requirements it has.
#[derive(Clone, Copy)]
pub struct Requirements<'a> {
    pub file: &'a [u8],
    pub conditions: ConditionCount,
    pub many: RequirementCount,
    ghost ready: { RequirementsReady file.now } by { requirements_ready_prop file.now },
    ghost conditions_counted: { conditions.0 ≡ conditions_in file.now },
    ghost counted: { many.0 ≡ requirements_in file.now },
}

// The runs of a file that passed its checks, and how many it has.
#[derive(Clone, Copy)]
pub struct Runs<'a> {
    pub file: &'a [u8],
    pub many: RunCount,
    ghost ready: { RunsReady file.now },
    ghost counted: { many.0 ≡ runs_in file.now },
}

impl<'a> Requirements<'a> {
    // The requirements of a file whose checks gave these counts.
    pub fn of(file: &'a [u8], counts: Suite) -> Self
        requires { file_says form1 file.now ≡ gives counts }
        ensures { result.file.now ≡ file.now }
    {
        Requirements {
            file,
            conditions: counts.conditions,
            many: counts.requirements,
        }
    }
}

impl<'a> Runs<'a> {
    // The runs of a file whose checks gave these counts.
    pub fn of(file: &'a [u8], counts: Suite) -> Self
        requires { file_says form1 file.now ≡ gives counts }
        ensures { result.file.now ≡ file.now }
    {
        Runs {
            file,
            many: counts.runs,
        }
    }
}

// The engine's table of one requirement: a mark for each of its rows and each run.
#[derive(Clone, Copy)]
pub struct Marks {
    pub cells: [bool; Marks::MANY],
}

impl Marks {
    pub const MANY: usize = REQUIREMENT_ROWS * Suite::RUNS;

    // No mark set.
    pub fn new() -> Self
        ensures unmarked { (p j : ℕ) → marked result.cells p j ≡ false }
        ensures many { Marks.MANY ≡ mark_count }
    {
        Marks {
            cells: [false; Marks::MANY],
        }
    }

    // Whether the pair of the occurrence in row p and run j is marked.
    pub fn is_marked(&self, p: RowNumber, j: RunNumber) -> bool
        requires { (p.0 < most_requirement_rows) × (j.0 < most_runs) }
        ensures { result ≡ marked self.now.cells p.0 j.0 }
    {
        self.cells[Suite::RUNS * p.0 + j.0]
    }

    // Sets the mark of row p for run j.
    #[tactic(auto, using(crate::proofs::Cells::cell_set))]
    pub fn mark(&mut self, p: RowNumber, j: RunNumber, value: bool)
        requires { (p.0 < most_requirement_rows) × (j.0 < most_runs) }
        ensures { CellSet most_runs p.0 j.0 value self.old.cells self.new.cells }
    {
        self.cells[Suite::RUNS * p.0 + j.0] = value;
    }
}

// The engine's table of a suite: a note for each requirement and each of its rows.
#[derive(Clone, Copy)]
pub struct Notes {
    pub cells: [bool; Notes::MANY],
}

impl Notes {
    pub const MANY: usize = Suite::REQUIREMENTS * REQUIREMENT_ROWS;

    // No note made.
    pub fn new() -> Self
        ensures blank { (q p : ℕ) → noted result.cells q p ≡ false }
        ensures many { Notes.MANY ≡ note_count }
    {
        Notes {
            cells: [false; Notes::MANY],
        }
    }

    // Whether row p of requirement q is noted.
    pub fn is_noted(&self, q: RequirementNumber, p: RowNumber) -> bool
        requires { (q.0 < most_requirements) × (p.0 < most_requirement_rows) }
        ensures { result ≡ noted self.now.cells q.0 p.0 }
    {
        self.cells[REQUIREMENT_ROWS * q.0 + p.0]
    }

    // Notes row p of requirement q, or takes its note away.
    #[tactic(auto, using(crate::proofs::Cells::cell_set))]
    pub fn note(&mut self, q: RequirementNumber, p: RowNumber, value: bool)
        requires { (q.0 < most_requirements) × (p.0 < most_requirement_rows) }
        ensures { CellSet most_requirement_rows q.0 p.0 value self.old.cells self.new.cells }
    {
        self.cells[REQUIREMENT_ROWS * q.0 + p.0] = value;
    }
}

// What the sheet says of a condition.
#[derive(Clone, Copy)]
pub enum ConditionAnswer {
    Yes,
    No,
    Unused,
}

// The most bytes of a sheet, line by line: the longest `suite` line, the longest block of each requirement, the longest `cond` line
// of each condition, the longest `total` line.
#[derive(Clone, Copy)]
pub struct Longest(pub usize);

impl Longest {
    pub const SUITE_LINE: usize = 12;

    pub const REQ_LINE: usize = 22;

    pub const COV_LINE: usize = 13;

    pub const COND_LINE: usize = 15;

    pub const TOTAL_LINE: usize = 14;

    pub const BLOCK: usize = Self::REQ_LINE + Self::COV_LINE * Suite::RUNS * REQUIREMENT_ROWS;

    pub const SHEET: usize = Self::SUITE_LINE
        + Self::BLOCK * Suite::REQUIREMENTS
        + Self::COND_LINE * Suite::CONDITIONS
        + Self::TOTAL_LINE;
}

// A page that any sheet fits on.
pub type Sheet = Page<{ Longest::SHEET }>;
