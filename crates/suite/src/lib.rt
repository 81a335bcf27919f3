// The suite file: the checks behind 8, 9 and 11, all checks in order, and its parts, which come as parts of the lent slice.
#![tactic(auto)]

ghost use Rattle.std.specs.Prelude.{◌≡◌, ◌+◌, ◌*◌, ◌≤◌, ◌<◌, length, take, drop};
ghost use Rattle.limits.specs.Limits.{suite_says};
ghost use Rattle.lengths.specs.Lengths.{most_table_rows, most_steps};
ghost use Rattle.figures.specs.Refusals.{check_says};
ghost use Rattle.signals.specs.Truth.{lowest_stray};
ghost use Rattle.run_checks.specs.RunChecks.{found_step};
ghost use Rattle.layout.specs.Layout.{form1, requirements_in, count_in, body_in};
ghost use Rattle.layout.specs.Checks.{words_of, requirement_from, run_from, requirement_of_file, run_of_file, requirements_of_file, runs_of_file, file_says, FewRows, FewSteps};

use arrayvec::ArrayVec;
use figures::{
    ByteOffset, ConditionCount, Refusal, RequirementNumber, RowPlace, RunNumber, StepNumber,
    StepPlace,
};
use layout::{Form, RequirementRange};
use lengths::{ROW_BYTES, Run};
use limits::Suite;

// So many bytes of a slice from a place on, as far as there are any.
fn part(bytes: &[u8], at: usize, many: usize) -> &[u8]
    ensures { result.now ≡ take many (drop at bytes.now) }
{
    let from = at.min(bytes.len());
    let to = from + many.min(bytes.len() - from);
    &bytes[from..to]
}

// The body of item k.
fn body_of(file: &[u8], k: usize) -> &[u8]
    requires { k < 512 }
    ensures { result.now ≡ body_in form1 file.now k }
{
    part(
        file,
        contents::start_of(file, k),
        contents::body_size(file, k),
    )
}

// The bytes of requirement q.
pub fn requirement_bytes(file: &[u8], q: RequirementNumber) -> &[u8]
    requires { q.0 < 256 }
    ensures { result.now ≡ body_in form1 file.now q.0 }
{
    body_of(file, q.0)
}

// The bytes of run j.
pub fn run_bytes(file: &[u8], j: RunNumber) -> &[u8]
    requires { j.0 < 256 }
    ensures { result.now ≡ body_in form1 file.now (requirements_in file.now + j.0) }
{
    body_of(file, little::byte_at(file, 2) + j.0)
}

// The words of a run's bytes, or as many as the longest run has.
pub fn words_of(bytes: &[u8]) -> ArrayVec<u32, { Run::STEPS }>
    ensures { result.items ≡ take most_steps (words_of bytes.now) }
{
    let mut words = ArrayVec::new();
    for i in 0..(bytes.len() / Form::WORD_BYTES).min(Run::STEPS) {
        words.push(little::word_of(&bytes[Form::WORD_BYTES * i..]));
    }
    words
}

// Refusals 8 and 9 of a requirement whose body begins at a place of a file.
#[tactic(auto, using(suite_laws::proofs::Searched::found_inside))]
fn check_rows_from(
    rows: &[[u16; 3]],
    conditions: ConditionCount,
    from: ByteOffset,
) -> Result<(), Refusal>
    requires { (from.0 ≤ 65535) × (length rows.now ≤ most_table_rows) }
    ensures { check_says result ≡ requirement_from conditions.0 from.0 3 rows.now }
{
    if let Some(r) = row_checks::lowest_unsound(rows, conditions) {
        return Err(Refusal::UnsoundRow(RowPlace::File(ByteOffset(from.0 + ROW_BYTES * r.0))));
    }
    if let Some(r) = required::lowest_unrequired(rows) {
        return Err(Refusal::NotRequirement(RowPlace::File(ByteOffset(from.0 + ROW_BYTES * r.0))));
    }
    Ok(())
}

// The first step of a run's bytes whose word has a stray bit. The words are read one by one and not kept: an array of the longest run
// would cost a short run more than its own steps.
fn lowest_stray_of(body: &[u8], conditions: ConditionCount) -> Option<StepNumber>
    ensures { found_step result ≡ lowest_stray conditions.0 (words_of body.now) }
{
    for i in 0..body.len() / Form::WORD_BYTES {
        let word = little::word_of(&body[Form::WORD_BYTES * i..]);
        if !signals::word_sound(word, conditions) {
            return Some(StepNumber(i));
        }
    }
    None
}

// Refusal 11 of a run whose body begins at a place of a file.
#[tactic(auto, using(suite_laws::proofs::Searched::found_inside))]
fn check_words_from(
    body: &[u8],
    conditions: ConditionCount,
    from: ByteOffset,
) -> Result<(), Refusal>
    requires { (from.0 ≤ 65535) × (length (words_of body.now) ≤ most_steps) }
    ensures { check_says result ≡ run_from conditions.0 from.0 (words_of body.now) }
{
    if let Some(i) = lowest_stray_of(body, conditions) {
        return Err(Refusal::StrayBit(StepPlace::File(ByteOffset(from.0 + Form::WORD_BYTES * i.0))));
    }
    Ok(())
}

// Refusals 8 and 9 of requirement q.
#[tactic(auto, using(suite_laws::proofs::Sizes::rows_whole))]
fn check_requirement(file: &[u8], q: RequirementNumber) -> Result<(), Refusal>
    requires { (q.0 < 256) × (q.0 < requirements_in file.now) × (count_in form1 file.now q.0 ≤ most_table_rows) }
    ensures { check_says result ≡ requirement_of_file form1 file.now q.0 }
{
    let body = requirement_bytes(file, q);
    let rows = codec::decode(body);
    let from = ByteOffset(contents::start_of(file, q.0));
    check_rows_from(&rows, ConditionCount(little::byte_at(file, 1)), from)
}

// Refusal 11 of run j.
#[tactic(auto, using(suite_laws::proofs::Sizes::words_few))]
fn check_run(file: &[u8], j: RunNumber) -> Result<(), Refusal>
    requires { (j.0 < 256) × (count_in form1 file.now (requirements_in file.now + j.0) ≤ most_steps) }
    ensures { check_says result ≡ run_of_file form1 file.now j.0 }
{
    let body = run_bytes(file, j);
    let from = ByteOffset(contents::start_of(file, little::byte_at(file, 2) + j.0));
    check_words_from(body, ConditionCount(little::byte_at(file, 1)), from)
}

// Refusals 8 and 9 of each requirement in turn.
#[tactic(auto, using(suite_laws::proofs::Turn::turn_all))]
fn check_requirements(file: &[u8]) -> Result<(), Refusal>
    requires { FewRows form1 file.now }
    ensures { check_says result ≡ requirements_of_file form1 file.now }
{
    for q in 0..little::byte_at(file, 2) {
        check_requirement(file, RequirementNumber(q))?;
    }
    Ok(())
}

// Refusal 11 of each run in turn.
#[tactic(auto, using(suite_laws::proofs::Turn::turn_all))]
fn check_runs(file: &[u8]) -> Result<(), Refusal>
    requires { FewSteps form1 file.now }
    ensures { check_says result ≡ runs_of_file form1 file.now }
{
    for j in 0..little::byte_at(file, 3) {
        check_run(file, RunNumber(j))?;
    }
    Ok(())
}

// The first refusal of a suite file, else its counts.
#[tactic(auto, unfolding(layout::specs::Checks::file_says))]
pub fn check(file: &[u8]) -> Result<Suite, Refusal>
    ensures { suite_says result ≡ file_says form1 file.now }
{
    let counts = contents::check_contents(file, RequirementRange::of_suite())?;
    check_requirements(file)?;
    check_runs(file)?;
    Ok(counts)
}
