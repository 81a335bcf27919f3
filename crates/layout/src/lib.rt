// The form of a suite file.
#![tactic(auto)]

ghost use Rattle.std.specs.Prelude.{◌≡◌};
ghost use Rattle.layout.specs.Checks.{range_of, of_suite};

use figures::RequirementCount;
use limits::Suite;

// How many requirements a file may have.
#[derive(Clone, Copy)]
pub struct RequirementRange {
    pub least: RequirementCount,
    pub most: RequirementCount,
}

// Form 1: its number, the bytes of the head, of an entry, and of a step.
#[derive(Clone, Copy)]
pub struct Form(pub usize);

impl Form {
    pub const ONE: usize = 1;

    pub const HEAD_BYTES: usize = 4;

    pub const ENTRY_BYTES: usize = 4;

    pub const WORD_BYTES: usize = 4;
}

impl RequirementRange {
    // A suite has at least one.
    pub fn of_suite() -> Self
        ensures { range_of result ≡ of_suite }
    {
        RequirementRange {
            least: RequirementCount(1),
            most: RequirementCount(Suite::REQUIREMENTS),
        }
    }
}
