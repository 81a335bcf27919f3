// The contents of a suite file: its head and its entries, and the checks behind refusals 1 to 6.
#![tactic(auto)]

ghost use Rattle.std.specs.Prelude.{◌≡◌, ◌&&◌, ◌+◌, ◌*◌, ◌≤◌, ◌<◌, eqb, leb, length};
ghost use Rattle.limits.specs.Limits.{within, suite_says};
ghost use Rattle.figures.specs.Numbers.{lowest};
ghost use Rattle.layout.specs.Layout.{form1, form_in, items_in, contents_end, start_in, count_in, unit_of, most_of, body_size, entry_right};
ghost use Rattle.layout.specs.Checks.{range_of, counts_right, counts_of, contents_found, contents_of_file};

use figures::{ByteCount, ByteOffset, ConditionCount, Refusal, RequirementCount, RunCount};
use layout::{Form, RequirementRange};
use lengths::{REQUIREMENT_ROWS, ROW_BYTES, Run};
use limits::Suite;

// Where entry k says that its body starts.
pub fn start_of(file: &[u8], k: usize) -> usize
    requires { k < 512 }
    ensures { (result ≡ start_in form1 file.now k) × (result ≤ 65535) }
{
    little::two_at(file, Form::HEAD_BYTES + Form::ENTRY_BYTES * k)
}

// How many rows or steps entry k says that its body has.
fn count_of(file: &[u8], k: usize) -> usize
    requires { k < 512 }
    ensures { (result ≡ count_in form1 file.now k) × (result ≤ 65535) }
{
    little::two_at(file, Form::HEAD_BYTES + Form::ENTRY_BYTES * k + 2)
}

// The bytes of a row where item k is a requirement, else of a step.
fn unit_of(file: &[u8], k: usize) -> usize
    ensures { (result ≡ unit_of form1 file.now k) × (result ≤ 4) }
{
    if k < little::byte_at(file, 2) {
        ROW_BYTES
    } else {
        Form::WORD_BYTES
    }
}

// The most rows or steps of item k.
fn most_of(file: &[u8], k: usize) -> usize
    ensures { result ≡ most_of form1 file.now k }
{
    if k < little::byte_at(file, 2) {
        REQUIREMENT_ROWS
    } else {
        Run::STEPS
    }
}

pub fn body_size(file: &[u8], k: usize) -> usize
    requires { k < 512 }
    ensures { (result ≡ body_size form1 file.now k) × (result ≤ 262140) }
{
    unit_of(file, k) * count_of(file, k)
}

// Whether entry k is right, its body having to begin at a place.
fn entry_right(file: &[u8], k: usize, begin: usize) -> bool
    requires { k < 512 }
    ensures { result ≡ (eqb (start_in form1 file.now k) begin && within 1 (most_of form1 file.now k) (count_in form1 file.now k)) }
{
    let count = count_of(file, k);
    start_of(file, k) == begin && limits::within(1, most_of(file, k), count)
}

fn items_of(file: &[u8]) -> usize
    ensures { (result ≡ items_in file.now) × (result < 512) }
{
    little::byte_at(file, 2) + little::byte_at(file, 3)
}

fn contents_end(file: &[u8]) -> usize
    ensures { (result ≡ contents_end form1 file.now) × (result ≤ 2048) }
{
    Form::HEAD_BYTES + Form::ENTRY_BYTES * items_of(file)
}

// Goes through the entries: each body must begin where the one before it ended.
#[tactic(auto, using(laws::proofs::Lowest::passed_all), unfolding(layout::specs::Layout::must_begin))]
fn contents_of(file: &[u8]) -> Result<ByteOffset, Refusal>
    ensures { result ≡ contents_found form1 file.now (lowest (items_in file.now) 0 (entry_right form1 file.now)) }
{
    let mut begin = contents_end(file);
    for k in 0..items_of(file) {
        if !entry_right(file, k, begin) {
            return Err(Refusal::Entry(ByteOffset(Form::HEAD_BYTES + Form::ENTRY_BYTES * k)));
        }
        begin += body_size(file, k);
    }
    Ok(ByteOffset(begin))
}

// Whether the counts in the head are within their limits.
fn counts_right(file: &[u8], range: RequirementRange) -> bool
    ensures { result ≡ counts_right (range_of range) file.now }
{
    limits::within(1, Suite::CONDITIONS, little::byte_at(file, 1))
        && limits::within(range.least.0, range.most.0, little::byte_at(file, 2))
        && limits::within(1, Suite::RUNS, little::byte_at(file, 3))
}

// The counts in the head.
fn counts_of(file: &[u8]) -> Suite
    ensures { result ≡ counts_of file.now }
{
    Suite {
        conditions: ConditionCount(little::byte_at(file, 1)),
        requirements: RequirementCount(little::byte_at(file, 2)),
        runs: RunCount(little::byte_at(file, 3)),
    }
}

fn form_right(file: &[u8]) -> bool
    ensures { result ≡ eqb (form_in file.now) 1 }
{
    little::byte_at(file, 0) == Form::ONE
}

fn contents_inside(file: &[u8]) -> bool
    ensures { result ≡ leb (contents_end form1 file.now) (length file.now) }
{
    contents_end(file) <= file.len()
}

fn ends_at(file: &[u8], end: ByteOffset) -> bool
    ensures { result ≡ eqb (length file.now) end.0 }
{
    file.len() == end.0
}

// Refusals 1 to 6 of a file, else the counts in its head.
#[tactic(auto, unfolding(layout::specs::Checks::contents_of_file))]
pub fn check_contents(file: &[u8], range: RequirementRange) -> Result<Suite, Refusal>
    ensures { suite_says result ≡ contents_of_file form1 (range_of range) file.now }
{
    Suite::file(ByteCount(file.len()))?;
    if !form_right(file) {
        return Err(Refusal::Form);
    }
    if !counts_right(file, range) {
        return Err(Refusal::Counts);
    }
    if !contents_inside(file) {
        return Err(Refusal::ContentsCut);
    }
    let end = contents_of(file)?;
    if !ends_at(file, end) {
        return Err(Refusal::FileEnd);
    }
    Ok(counts_of(file))
}
