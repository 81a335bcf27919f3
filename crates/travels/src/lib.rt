// The travel of a log as text: a line for each step, or the line of the log's refusal, put into lent bytes.
#![tactic(auto)]

ghost use Rattle.std.specs.Prelude.{◌≡◌, [], ◌++◌, ◌+◌, ◌*◌, ◌≤◌, nat_abs, length};
ghost use Rattle.arrayvec.specs.ArrayVec.{array_vec_len};
ghost use Rattle.lengths.specs.Lengths.{most_steps};
ghost use Rattle.figures.specs.Outputs.{output_says, lent_after};
ghost use Rattle.lines.specs.Texts.{in_order};
ghost use Rattle.encoder.specs.Log.{half_turn, travel};
ghost use Rattle.travels.specs.Travels.{travel_line, travel_page, travel_page_of};
ghost use Rattle.travels.specs.Room.{travel_line_most, travel_page_most};

use encoder::Travel;
use figures::{ByteCount, Refusal, StepCount, StepNumber};
use lengths::Run;
use lines::{Field, Page};

// The most bytes of a travel's line, which is a sign, nine digits and a line feed, and of a page, which has a line for each step.
#[derive(Clone, Copy)]
pub struct Longest(pub usize);

impl Longest {
    pub const LINE: usize = 11;

    pub const PAGE: usize = Self::LINE * Run::STEPS;
}

// A page that the travel of any log fits on.
pub type Travels = Page<{ Longest::PAGE }>;

// How many counts a travel is, back or forth.
fn distance(travel: Travel) -> Field
    requires { nat_abs travel.0 ≤ half_turn * most_steps }
    ensures { result.0 ≡ nat_abs travel.0 }
{
    Field(travel.0.unsigned_abs() as usize)
}

// The line of one step's travel.
fn put_travel<const MOST: usize>(travel: Travel, page: &mut Page<MOST>)
    requires { (nat_abs travel.0 ≤ half_turn * most_steps) × (array_vec_len page.old.text + travel_line_most ≤ MOST) }
    ensures puts { page.new.text.items ≡ page.old.text.items ++ travel_line travel.0 }
    ensures ends { array_vec_len page.new.text ≤ array_vec_len page.old.text + travel_line_most }
{
    if travel.0 < 0 {
        page.put_word(b"", b'-');
    }
    page.put_number(distance(travel), b'\n')
}

// The lines of all steps. The travel is carried on from step to step; that after the last step is not used.
fn put_travels<const MOST: usize>(log: &[u8], steps: StepCount, page: &mut Page<MOST>)
    requires { (steps.0 ≤ most_steps) × (array_vec_len page.old.text + travel_line_most * steps.0 ≤ MOST) }
    ensures { page.new.text.items ≡ page.old.text.items ++ in_order steps.0 (λ i. travel_line (travel log.now i)) }
{
    let mut gone = Travel(0);
    for k in 0..steps.0 {
        let next = encoder::travel_after(log, StepNumber(k), gone);
        put_travel(gone, page);
        gone = next;
    }
}

// The program's whole output for a log: the travel at each step, or the line of the first refusal.
pub fn put_page<const MOST: usize>(log: &[u8], page: &mut Page<MOST>)
    requires { array_vec_len page.old.text + travel_page_most ≤ MOST }
    ensures { page.new.text.items ≡ page.old.text.items ++ travel_page log.now }
{
    match logs::check_log(log) {
        Err(r) => page.put_refusal_line(r.number(), r.place()),
        Ok(steps) => put_travels(log, steps, page),
    }
}

// An empty page, with just the room that the longest travel takes.
pub fn blank() -> Page<{ Longest::PAGE }>
    ensures empty { result.text.items ≡ [] }
    ensures room { travel_page_most ≡ Longest.PAGE }
{
    Travels::new()
}

// The program's whole output for a log, or 14 where it does not fit.
pub fn page(log: &[u8], out: &mut [u8]) -> Result<ByteCount, Refusal>
    ensures result_value { output_says result ≡ travel_page_of log.now (length out.old) }
    ensures out_after { out.new ≡ lent_after (travel_page_of log.now (length out.old)) (travel_page log.now) out.old }
{
    let mut page = blank();
    put_page(log, &mut page);
    page.copy_to(out)
}
