// The trap formula of an occurrence: the way up to the last row, and the operation `trap`.
#![tactic(auto)]

ghost use Rattle.std.specs.Prelude.{◌≡◌, ◌++◌, ◌+◌, ◌*◌, ◌≤◌, ◌<◌, length};
ghost use Rattle.lengths.specs.Lengths.{most_requirement_rows};
ghost use Rattle.codec.specs.Codec.{bytes_of};
ghost use Rattle.rows.specs.Checks.{occurrences};
ghost use Rattle.rules.specs.TrapRows.{added, trap_table};
ghost use Rattle.trap.specs.Answers.{trap_says, trap_for, rows_trap, rows_lent, trap_of, trap_lent, lent_after, table_written};

use figures::{ByteCount, ConditionCount, OccurrenceNumber, Refusal, RowNumber};
use lengths::{REQUIREMENT_ROWS, ROW_BYTES, TABLE_ROWS};

// Writes the copied rows, and lends the rest of the buffer, from their end on, to be written with the added ones.
#[tactic(auto, using(crate::proofs::Output::both_written))]
fn write_table(rows: &[[u16; 3]], more: &[[u16; 3]], out: &mut [u8])
    requires { 3 * (length rows.now + length more.now) ≤ length out.old }
    ensures { out.new ≡ table_written (rows.now ++ more.now) out.old }
{
    let _ = codec::encode(rows, out);
    let end = ROW_BYTES * rows.len();
    let _ = codec::encode(more, &mut out[end..]);
}

// The trap table of the occurrence at row p, or refusal 13 or 14.
#[tactic(auto, using(crate::proofs::Output::too_many, crate::proofs::Output::too_short, crate::proofs::Output::all_written))]
fn trap_at(rows: &[[u16; 3]], p: RowNumber, out: &mut [u8]) -> Result<ByteCount, Refusal>
    requires { (length rows.now ≤ most_requirement_rows) × (p.0 < length rows.now) }
    ensures result_value { trap_says result ≡ trap_for rows.now (length out.old) p.0 }
    ensures out_after { out.new ≡ lent_after (trap_for rows.now (length out.old) p.0) (bytes_of (trap_table rows.now p.0)) out.old }
{
    let more = ways::go_up(rows, p.0 as u16);
    let total = rows.len() + more.len();
    if TABLE_ROWS < total {
        return Err(Refusal::TrapRows);
    }
    if out.len() / ROW_BYTES < total {
        return Err(Refusal::ShortOutput);
    }
    write_table(rows, &more, out);
    Ok(ByteCount(ROW_BYTES * total))
}

// The trap table of an occurrence of decoded rows, or the first refusal of 8, 9, 12, 13 and 14.
fn trap_of_rows(
    rows: &[[u16; 3]],
    conditions: ConditionCount,
    occurrence: OccurrenceNumber,
    out: &mut [u8],
) -> Result<ByteCount, Refusal>
    requires { length rows.now ≤ most_requirement_rows }
    ensures result_value { trap_says result ≡ rows_trap rows.now conditions.0 occurrence.0 (length out.old) }
    ensures out_after { out.new ≡ rows_lent rows.now conditions.0 occurrence.0 out.old }
{
    row_checks::check_requirement_rows(rows, conditions)?;
    let p = occurrences::occurrence_of(rows, occurrence)?;
    trap_at(rows, p, out)
}

// Writes the trap table of an occurrence of a lone requirement, or gives the first refusal of 3, 7, 8, 9, 12, 13 and 14.
#[tactic(auto, unfolding(crate::specs::Answers::trap_of))]
pub fn trap(
    requirement: &[u8],
    conditions: ConditionCount,
    occurrence: OccurrenceNumber,
    out: &mut [u8],
) -> Result<ByteCount, Refusal>
    ensures result_value { trap_says result ≡ trap_of requirement.now conditions.0 occurrence.0 (length out.old) }
    ensures out_after { out.new ≡ trap_lent requirement.now conditions.0 occurrence.0 out.old }
{
    row_checks::check_size::<REQUIREMENT_ROWS>(ByteCount(requirement.len()), conditions)?;
    let rows = codec::decode(requirement);
    trap_of_rows(&rows, conditions, occurrence, out)
}
