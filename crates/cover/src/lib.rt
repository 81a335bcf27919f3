// The operation `witness`.
#![tactic(auto)]

ghost use Rattle.std.specs.Prelude.{◌≡◌, ◌≤◌, ◌<◌, length, get_or};
ghost use Rattle.limits.specs.Limits.{most_conditions};
ghost use Rattle.lengths.specs.Lengths.{most_requirement_rows};
ghost use Rattle.rows.specs.Rows.{first};
ghost use Rattle.codec.specs.Codec.{rows_of};
ghost use Rattle.rows.specs.Checks.{occurrences};
ghost use Rattle.flips.specs.Pair.{Pair};
ghost use Rattle.cover.specs.Answers.{witness_says, pair_says, rows_witness, witness_of, lent_after, Falsified};
ghost use Rattle.coverage.specs.Coverage.{witness_bytes};

use figures::{ByteCount, ConditionCount, OccurrenceNumber, Refusal, RowNumber, StepCount};
use lengths::REQUIREMENT_ROWS;

// The answer for the occurrence at row p: the room is asked for only where the run covers it.
fn witness_of_pair(
    rows: &[[u16; 3]],
    run: &[u32],
    p: RowNumber,
    out: &mut [u8],
) -> Result<Option<ByteCount>, Refusal>
    requires { Pair rows.now run.now p.0 }
    ensures result_value { witness_says result ≡ pair_says rows.now run.now (length out.old) p.0 }
    ensures out_after { out.new ≡ lent_after (pair_says rows.now run.now (length out.old) p.0) (witness_bytes rows.now p.0 (length run.now)) out.old }
{
    if !flips::covers(rows, run, p) {
        return Ok(None);
    }
    let steps = run.len();
    if out.len() < steps {
        return Err(Refusal::ShortOutput);
    }
    flips::fill(out, StepCount(steps), flips::witness_byte(rows, p));
    Ok(Some(ByteCount(steps)))
}

// The answer for decoded rows, or the first refusal of 8 to 12 and 14.
fn witness_of_rows(
    rows: &[[u16; 3]],
    run: &[u32],
    conditions: ConditionCount,
    occurrence: OccurrenceNumber,
    out: &mut [u8],
) -> Result<Option<ByteCount>, Refusal>
    requires { (0 < length rows.now) × (length rows.now ≤ most_requirement_rows) × (conditions.0 ≤ most_conditions) }
    ensures result_value { witness_says result ≡ rows_witness rows.now run.now conditions.0 occurrence.0 (length out.old) }
    ensures out_after { out.new ≡ lent_after (rows_witness rows.now run.now conditions.0 occurrence.0 (length out.old)) (witness_bytes rows.now (get_or (occurrences rows.now) occurrence.0 0) (length run.now)) out.old }
{
    row_checks::check_requirement_rows(rows, conditions)?;
    run_checks::check_run(run, conditions)?;
    let p = occurrences::occurrence_of(rows, occurrence)?;
    witness_of_pair(rows, run, p, out)
}

// Whether a lone run covers an occurrence of a lone requirement: how many bytes of a witness were written, or none where it does not;
// or the first refusal of 3, 7 to 12 and 14.
#[tactic(auto, unfolding(crate::specs::Answers::witness_of))]
pub fn witness(
    requirement: &[u8],
    run: &[u32],
    conditions: ConditionCount,
    occurrence: OccurrenceNumber,
    out: &mut [u8],
) -> Result<Option<ByteCount>, Refusal>
    ensures result_value { witness_says result ≡ witness_of requirement.now run.now conditions.0 occurrence.0 (length out.old) }
    ensures out_after { out.new ≡ lent_after (witness_of requirement.now run.now conditions.0 occurrence.0 (length out.old)) (witness_bytes (rows_of requirement.now) (get_or (occurrences (rows_of requirement.now)) occurrence.0 0) (length run.now)) out.old }
    ensures falsified { Falsified result requirement.now run.now occurrence.0 out.new }
{
    row_checks::check_size::<REQUIREMENT_ROWS>(ByteCount(requirement.len()), conditions)?;
    let rows = codec::decode(requirement);
    witness_of_rows(&rows, run, conditions, occurrence, out)
}
