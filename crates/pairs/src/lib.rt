// The covered pairs of one requirement, two bytes a pair, from a table of marks.
#![tactic(auto)]

ghost use Rattle.std.specs.Prelude.{◌≡◌, cond, [], ◌∷◌, ◌++◌, ◌+◌, ◌≤◌, ◌<◌, length};
ghost use Rattle.arrayvec.specs.ArrayVec.{array_vec_len};
ghost use Rattle.lengths.specs.Lengths.{most_requirement_rows};
ghost use Rattle.limits.specs.Limits.{most_runs};
ghost use Rattle.bench.specs.Coverage.{pairs_listed, pair_bytes};
ghost use Rattle.bench.specs.Tables.{marked};

use arrayvec::ArrayVec;
use bench::Marks;
use figures::{OccurrenceNumber, RunCount, RunNumber};
use lengths::REQUIREMENT_ROWS;
use limits::Suite;

// The most bytes of a list: two for each row and run.
pub const LIST_BYTES: usize = 2 * REQUIREMENT_ROWS * Suite::RUNS;

// A pair, occurrence and then run, where it is marked, and nothing where it is not.
fn put_pair_if(mark: bool, o: OccurrenceNumber, j: RunNumber, pairs: &mut ArrayVec<u8, LIST_BYTES>)
    requires { (o.0 < 100) × (j.0 < 100) × (array_vec_len pairs.old + 2 ≤ 4096) }
    ensures { pairs.new.items ≡ pairs.old.items ++ cond mark (o.0 ∷ j.0 ∷ []) [] }
{
    if mark {
        pairs.push(o.0 as u8);
        pairs.push(j.0 as u8);
    }
}

// The pairs of a requirement, by occurrence and then by run.
pub fn list_pairs(rows: &[[u16; 3]], marks: &Marks, runs: RunCount) -> ArrayVec<u8, LIST_BYTES>
    requires { (length rows.now ≤ most_requirement_rows) × (runs.0 ≤ most_runs) }
    ensures { result.items ≡ pairs_listed rows.now runs.0 (marked marks.now.cells) pair_bytes }
{
    let occs = occurrences::occurrence_count(rows).0;
    let mut pairs = ArrayVec::new();
    for n in 0..occs * runs.0 {
        let o = OccurrenceNumber(n / runs.0);
        let j = RunNumber(n % runs.0);
        let mark = marks.is_marked(covs::row_of(rows, o), j);
        put_pair_if(mark, o, j, &mut pairs);
    }
    pairs
}
