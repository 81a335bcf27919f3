// The `suite`, `req` and `total` lines of the sheet.
#![tactic(auto)]

ghost use Rattle.std.specs.Prelude.{◌≡◌, ◌++◌, ◌+◌, ◌≤◌, ◌<◌};
ghost use Rattle.arrayvec.specs.ArrayVec.{array_vec_len};
ghost use Rattle.bench.specs.Longest.{suite_line_most, req_line_most, total_line_most};
ghost use Rattle.bench.specs.Sheet.{suite_line, req_line, total_line};

use figures::{OccurrenceCount, RequirementCount, RequirementNumber, RunCount};
use lines::{Field, Page};

pub fn put_suite_line<const MOST: usize>(
    requirements: RequirementCount,
    runs: RunCount,
    page: &mut Page<MOST>,
)
    requires { (requirements.0 < 100) × (runs.0 < 100) × (array_vec_len page.old.text + suite_line_most ≤ MOST) }
    ensures puts { page.new.text.items ≡ page.old.text.items ++ suite_line requirements.0 runs.0 }
    ensures ends { array_vec_len page.new.text ≤ array_vec_len page.old.text + suite_line_most }
{
    page.put_word(b"suite", b' ');
    page.put_number(Field(requirements.0), b' ');
    page.put_number(Field(runs.0), b'\n')
}

pub fn put_req_line<const MOST: usize>(
    q: RequirementNumber,
    many: OccurrenceCount,
    held: RunCount,
    page: &mut Page<MOST>,
)
    requires { (q.0 < 100) × (many.0 < 100) × (held.0 < 100) × (array_vec_len page.old.text + req_line_most ≤ MOST) }
    ensures puts { page.new.text.items ≡ page.old.text.items ++ req_line q.0 many.0 held.0 }
    ensures ends { array_vec_len page.new.text ≤ array_vec_len page.old.text + req_line_most }
{
    page.put_word(b"req", b' ');
    page.put_number(Field(q.0), b' ');
    page.put_word(b"occ", b' ');
    page.put_number(Field(many.0), b' ');
    page.put_word(b"held", b' ');
    page.put_number(Field(held.0), b'\n')
}

pub fn put_total_line<const MOST: usize>(
    some: OccurrenceCount,
    all: OccurrenceCount,
    page: &mut Page<MOST>,
)
    requires { (some.0 < 1000) × (all.0 < 1000) × (array_vec_len page.old.text + total_line_most ≤ MOST) }
    ensures puts { page.new.text.items ≡ page.old.text.items ++ total_line some.0 all.0 }
    ensures ends { array_vec_len page.new.text ≤ array_vec_len page.old.text + total_line_most }
{
    page.put_word(b"total", b' ');
    page.put_number(Field(some.0), b' ');
    page.put_number(Field(all.0), b'\n')
}
