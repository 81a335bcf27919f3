// The operations for programs in C and Rust: `bin/build-proved exports` makes the archive, include/occov.h is its header. Each function
// promises what its operation promises. Names begin with `occov`, for occurrence coverage, since a C name is the whole program's.
#![tactic(auto)]

ghost use Rattle.std.specs.Prelude.{◌≡◌, length, get_or};
ghost use Rattle.figures.specs.Outputs.{lent_after};
ghost use Rattle.codec.specs.Codec.{rows_of};
ghost use Rattle.rows.specs.Checks.{occurrences};
ghost use Rattle.truth.specs.Answers.{truth_says};
ghost use Rattle.trap.specs.Answers.{trap_of, trap_lent};
ghost use Rattle.cover.specs.Answers.{witness_of};
ghost use Rattle.coverage.specs.Coverage.{witness_bytes};
ghost use Rattle.cover.specs.Answers as cover;
ghost use Rattle.listing.specs.Answers.{list_of, listed};
ghost use Rattle.sheets.specs.Answers.{sheet_of, sheet_of_file};
ghost use Rattle.recorded.specs.Recorded.{run_made, taken_of};
ghost use Rattle.wire.specs.Wire.{truth_answer, written_answer, witness_answer, taken_answer};

use figures::{ConditionCount, OccurrenceNumber, RequirementNumber};
use wire::Answer;

// `truth::truth`: whether a lone formula table holds of a lone run.
#[unsafe(no_mangle)]
pub extern "C" fn occov_truth(table: &[u8], run: &[u32], conditions: ConditionCount) -> Answer
    ensures { result ≡ truth_answer (truth_says table.now run.now conditions.0) }
{
    truth::truth(table, run, conditions).into()
}

// `trap::trap`: the trap table of an occurrence of a lone requirement.
#[unsafe(no_mangle)]
pub extern "C" fn occov_trap(
    requirement: &[u8],
    conditions: ConditionCount,
    occurrence: OccurrenceNumber,
    out: &mut [u8],
) -> Answer
    ensures value { result ≡ written_answer (trap_of requirement.now conditions.0 occurrence.0 (length out.old)) }
    ensures out_after { out.new ≡ trap_lent requirement.now conditions.0 occurrence.0 out.old }
{
    trap::trap(requirement, conditions, occurrence, out).into()
}

// `cover::witness`: whether a lone run covers an occurrence of a lone requirement, with a witness.
#[unsafe(no_mangle)]
pub extern "C" fn occov_witness(
    requirement: &[u8],
    run: &[u32],
    conditions: ConditionCount,
    occurrence: OccurrenceNumber,
    out: &mut [u8],
) -> Answer
    ensures value { result ≡ witness_answer (witness_of requirement.now run.now conditions.0 occurrence.0 (length out.old)) }
    ensures out_after { out.new ≡ cover.lent_after (witness_of requirement.now run.now conditions.0 occurrence.0 (length out.old)) (witness_bytes (rows_of requirement.now) (get_or (occurrences (rows_of requirement.now)) occurrence.0 0) (length run.now)) out.old }
{
    cover::witness(requirement, run, conditions, occurrence, out).into()
}

// `listing::list`: the covered pairs of one requirement of a suite file.
#[unsafe(no_mangle)]
pub extern "C" fn occov_list(file: &[u8], requirement: RequirementNumber, out: &mut [u8]) -> Answer
    ensures value { result ≡ written_answer (list_of file.now requirement.0 (length out.old)) }
    ensures out_after { out.new ≡ lent_after (list_of file.now requirement.0 (length out.old)) (listed file.now requirement.0) out.old }
{
    listing::list(file, requirement, out).into()
}

// `sheets::sheet`: the bench sheet of a suite file.
#[unsafe(no_mangle)]
pub extern "C" fn occov_sheet(file: &[u8], out: &mut [u8]) -> Answer
    ensures value { result ≡ written_answer (sheet_of file.now (length out.old)) }
    ensures out_after { out.new ≡ lent_after (sheet_of file.now (length out.old)) (sheet_of_file file.now) out.old }
{
    sheets::sheet(file, out).into()
}

// `recorded::take_in`: the run that an encoder log and the conditions' limits make, all in encoder counts.
#[unsafe(no_mangle)]
pub extern "C" fn occov_take_in(log: &[u8], limits: &[i32], out: &mut [u32]) -> Answer
    ensures value { result ≡ taken_answer (taken_of log.now limits.now (length out.old)) }
    ensures out_after { out.new ≡ lent_after (taken_of log.now limits.now (length out.old)) (run_made limits.now log.now) out.old }
{
    recorded::take_in(log, limits, out).into()
}
