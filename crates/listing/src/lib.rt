// The operation `list`: the covered pairs of one requirement of a suite.
#![tactic(auto)]

ghost use Rattle.std.specs.Prelude.{◌≡◌, ◌*◌, ◌<◌, length};
ghost use Rattle.layout.specs.Layout.{form1, runs_in};
ghost use Rattle.layout.specs.Checks.{requirement_rows_in, run_words_in};
ghost use Rattle.bench.specs.Files.{RowsReady};
ghost use Rattle.figures.specs.Outputs.{output_says, lent_after};
ghost use Rattle.listing.specs.Answers.{pairs_of, rows_listed, list_from, list_of, listed};

use bench::{Marks, Requirements, Runs};
use figures::{ByteCount, Refusal, RequirementNumber};

// The pairs of decoded rows over the runs of a file, or 14.
fn list_rows(rows: &[[u16; 3]], runs: Runs, out: &mut [u8]) -> Result<ByteCount, Refusal>
    requires { RowsReady rows.now }
    ensures result_value { output_says result ≡ rows_listed rows.now runs.entry.many.0 (run_words_in form1 runs.entry.file.now) (length out.old) }
    ensures out_after { out.new ≡ lent_after (rows_listed rows.now runs.entry.many.0 (run_words_in form1 runs.entry.file.now) (length out.old)) (pairs_of rows.now runs.entry.many.0 (run_words_in form1 runs.entry.file.now)) out.old }
{
    let many = occurrences::occurrence_count(rows).0;
    if out.len() < 2 * (many * runs.many.0) {
        return Err(Refusal::ShortOutput);
    }
    let mut marks = Marks::new();
    marking::mark_runs(rows, runs, &mut marks);
    let pairs = pairs::list_pairs(rows, &marks, runs.many);
    out[..pairs.len()].copy_from_slice(&pairs);
    Ok(ByteCount(pairs.len()))
}

// The pairs of requirement q of one file over the runs of another, today the same file; or 12 or 14.
fn list_from(
    requirements: Requirements,
    runs: Runs,
    q: RequirementNumber,
    out: &mut [u8],
) -> Result<ByteCount, Refusal>
    ensures result_value { output_says result ≡ list_from requirements.entry.file.now runs.entry.file.now q.0 (length out.old) }
    ensures out_after { out.new ≡ lent_after (list_from requirements.entry.file.now runs.entry.file.now q.0 (length out.old)) (pairs_of (requirement_rows_in form1 requirements.entry.file.now q.0) (runs_in runs.entry.file.now) (run_words_in form1 runs.entry.file.now)) out.old }
{
    if requirements.many.0 <= q.0 {
        return Err(Refusal::NoSuch);
    }
    let rows = codec::decode(suite::requirement_bytes(requirements.file, q));
    list_rows(&rows, runs, out)
}

// The covered pairs of requirement q of a suite, or the first refusal of 1 to 6, 8, 9, 11, 12 and 14.
pub fn list(file: &[u8], q: RequirementNumber, out: &mut [u8]) -> Result<ByteCount, Refusal>
    ensures result_value { output_says result ≡ list_of file.now q.0 (length out.old) }
    ensures out_after { out.new ≡ lent_after (list_of file.now q.0 (length out.old)) (listed file.now q.0) out.old }
{
    let counts = suite::check(file)?;
    list_from(
        Requirements::of(file, counts),
        Runs::of(file, counts),
        q,
        out,
    )
}
