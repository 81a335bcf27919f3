// The limits of a suite, each named once, and the constructors that apply them.
#![tactic(auto)]

ghost use Rattle.std.specs.Prelude.{◌≡◌};
ghost use Rattle.figures.specs.Refusals.{check_says};
ghost use Rattle.limits.specs.Limits.{within, counts_within, suite_says, suite_of, file_of};

use figures::{ByteCount, ConditionCount, Refusal, RequirementCount, RunCount};

// The one test of a limit.
pub fn within(least: usize, most: usize, n: usize) -> bool
    ensures { result ≡ within least most n }
{
    (least..=most).contains(&n)
}

fn counts_within(conditions: usize, requirements: usize, runs: usize) -> bool
    ensures { result ≡ counts_within conditions requirements runs }
{
    within(1, Suite::CONDITIONS, conditions)
        && within(1, Suite::REQUIREMENTS, requirements)
        && within(1, Suite::RUNS, runs)
}

// A suite's counts, within their limits.
#[derive(Clone, Copy)]
pub struct Suite {
    pub conditions: ConditionCount,
    pub requirements: RequirementCount,
    pub runs: RunCount,
}

impl Suite {
    // The most conditions, requirements and runs of a suite, and the least and most bytes of its file.
    pub const CONDITIONS: usize = 32;

    pub const REQUIREMENTS: usize = 16;

    pub const RUNS: usize = 64;

    pub const LEAST_BYTES: usize = 4;

    pub const BYTES: usize = 65535;

    #[tactic(auto, unfolding(crate::specs::Limits::suite_of))]
    pub fn new(
        conditions: ConditionCount,
        requirements: RequirementCount,
        runs: RunCount,
    ) -> Result<Suite, Refusal>
        ensures { suite_says result ≡ suite_of conditions.0 requirements.0 runs.0 }
    {
        if counts_within(conditions.0, requirements.0, runs.0) {
            Ok(Suite {
                conditions,
                requirements,
                runs,
            })
        } else {
            Err(Refusal::Counts)
        }
    }

    // A lone table or run is read as of a suite with one requirement and one run, so that only the conditions can be refused.
    pub fn lone(conditions: ConditionCount) -> Result<Suite, Refusal>
        ensures { suite_says result ≡ suite_of conditions.0 1 1 }
    {
        Suite::new(conditions, RequirementCount(1), RunCount(1))
    }

    // Refusal 1 of a file of so many bytes.
    #[tactic(auto, unfolding(crate::specs::Limits::file_of))]
    pub fn file(bytes: ByteCount) -> Result<(), Refusal>
        ensures { check_says result ≡ file_of bytes.0 }
    {
        if within(Self::LEAST_BYTES, Self::BYTES, bytes.0) {
            Ok(())
        } else {
            Err(Refusal::FileBytes)
        }
    }
}
