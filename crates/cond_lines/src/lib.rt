// The `cond` lines of the sheet.
#![tactic(auto)]

ghost use Rattle.std.specs.Prelude.{◌≡◌, [], ◌∷◌, ◌++◌, ◌+◌, ◌≤◌, ◌<◌};
ghost use Rattle.arrayvec.specs.ArrayVec.{array_vec_len};
ghost use Rattle.bench.specs.Longest.{answer_most, cond_line_most};
ghost use Rattle.lines.specs.Lines.{line};
ghost use Rattle.bench.specs.Sheet.{cond_line, answer_word};

use bench::ConditionAnswer;
use figures::ConditionNumber;
use lines::{Field, Page};

fn put_answer<const MOST: usize>(answer: ConditionAnswer, page: &mut Page<MOST>)
    requires { array_vec_len page.old.text + answer_most ≤ MOST }
    ensures puts { page.new.text.items ≡ page.old.text.items ++ line (answer_word answer ∷ []) }
    ensures ends { array_vec_len page.new.text ≤ array_vec_len page.old.text + answer_most }
{
    match answer {
        ConditionAnswer::Yes => page.put_word(b"yes", b'\n'),
        ConditionAnswer::No => page.put_word(b"no", b'\n'),
        ConditionAnswer::Unused => page.put_word(b"unused", b'\n'),
    }
}

pub fn put_cond_line<const MOST: usize>(
    c: ConditionNumber,
    answer: ConditionAnswer,
    page: &mut Page<MOST>,
)
    requires { (c.0 < 100) × (array_vec_len page.old.text + cond_line_most ≤ MOST) }
    ensures puts { page.new.text.items ≡ page.old.text.items ++ cond_line c.0 answer }
    ensures ends { array_vec_len page.new.text ≤ array_vec_len page.old.text + cond_line_most }
{
    page.put_word(b"cond", b' ');
    page.put_number(Field(c.0), b' ');
    put_answer(answer, page)
}
