// The operation `truth`: the verdict of a formula table over a run.
#![tactic(auto)]

ghost use Rattle.std.specs.Prelude.{◌≡◌, ◌≤◌, ◌<◌, length};
ghost use Rattle.lengths.specs.Lengths.{most_table_rows};
ghost use Rattle.limits.specs.Limits.{most_conditions};
ghost use Rattle.truth.specs.Answers.{verdict_says, rows_say, truth_says};

use figures::{ByteCount, ConditionCount, Refusal};
use lengths::TABLE_ROWS;

// The verdict of decoded rows over a lone run, or the first refusal of 8, 10 and 11.
fn truth_of_rows(
    rows: &[[u16; 3]],
    run: &[u32],
    conditions: ConditionCount,
) -> Result<bool, Refusal>
    requires { (0 < length rows.now) × (length rows.now ≤ most_table_rows) × (conditions.0 ≤ most_conditions) }
    ensures { verdict_says result ≡ rows_say rows.now run.now conditions.0 }
{
    row_checks::check_rows(rows, conditions)?;
    run_checks::check_run(run, conditions)?;
    Ok(columns::judge(rows, run, None, b""))
}

// The verdict of a lone formula table over a lone run, or the first refusal of 3, 7, 8, 10 and 11.
#[tactic(auto, unfolding(crate::specs::Answers::truth_says))]
pub fn truth(table: &[u8], run: &[u32], conditions: ConditionCount) -> Result<bool, Refusal>
    ensures { verdict_says result ≡ truth_says table.now run.now conditions.0 }
{
    row_checks::check_size::<TABLE_ROWS>(ByteCount(table.len()), conditions)?;
    let rows = codec::decode(table);
    truth_of_rows(&rows, run, conditions)
}
