// Cases on standard input, each an operation and its inputs, answered on standard output: what the operation answers, and every lent byte
// after it (docs/OUTSIDE.md has the layout of both). The programs `worked`, on stored vectors, and `answers` are this.
#![tactic(auto)]

ghost use Rattle.std.specs.Prelude.{◌≡◌, length};

use cases::{Case, Operation};
use figures::{OccurrenceNumber, RequirementNumber};
use wire::{Answer, AnswerKind};

// 70,000 zeros, for a case's bytes: more than a file may have.
fn body_space() -> [u8; 70000]
    ensures { 70000 ≡ length result }
{
    [0; 70000]
}

// 262,144 zeros, for the lent bytes: more than any sheet has.
fn lent_space() -> [u8; 262144]
    ensures { 262144 ≡ length result }
{
    [0; 262144]
}

fn of_truth(case: Case, table: &[u8], run: &[u8]) -> Answer {
    let mut words = [0u32; Case::WORDS];
    let count = cases::words_into(run, &mut words);
    truth::truth(table, &words[..count], case.conditions).into()
}

fn of_trap(case: Case, requirement: &[u8], lent: &mut [u8]) -> Answer {
    let occurrence = OccurrenceNumber(case.which);
    trap::trap(requirement, case.conditions, occurrence, lent).into()
}

fn of_witness(case: Case, requirement: &[u8], run: &[u8], lent: &mut [u8]) -> Answer {
    let mut words = [0u32; Case::WORDS];
    let count = cases::words_into(run, &mut words);
    let occurrence = OccurrenceNumber(case.which);
    cover::witness(
        requirement,
        &words[..count],
        case.conditions,
        occurrence,
        lent,
    )
    .into()
}

fn take_words(log: &[u8], limits: &[u8], words: &mut [u32]) -> Answer {
    let mut given = [0i32; Case::LIMITS];
    let count = cases::limits_into(limits, &mut given);
    recorded::take_in(log, &given[..count], words).into()
}

// The lent bytes are lent as words; bytes that make no whole word stay as they are.
fn of_recorded(log: &[u8], limits: &[u8], lent: &mut [u8]) -> Answer {
    let mut words = [0u32; Case::WORDS];
    let count = cases::words_into(lent, &mut words);
    let answer = take_words(log, limits, &mut words[..count]);
    cases::words_back(&words, lent);
    answer
}

// An answer has only one of a refusal's number, the bytes written and the steps written; the others are 0.
fn write_answer(a: Answer) {
    let number = a.refusal.0 | a.written.0 | a.steps.0;
    let kind = a.kind.0;
    let kind = if kind == AnswerKind::TAKEN {
        AnswerKind::WRITTEN
    } else {
        kind
    };
    cases::write_head(kind as usize, number, a.unit.0 as usize, a.place.0);
}

// The answer of a case's operation, of which `first` is the table, file or log, `second` the run or the limits.
fn answer_of(
    operation: Operation,
    case: Case,
    first: &[u8],
    second: &[u8],
    lent: &mut [u8],
) -> Answer {
    match operation {
        Operation::Truth => of_truth(case, first, second),
        Operation::Trap => of_trap(case, first, lent),
        Operation::Witness => of_witness(case, first, second, lent),
        Operation::List => listing::list(first, RequirementNumber(case.which), lent).into(),
        Operation::Sheet => sheets::sheet(first, lent).into(),
        Operation::SheetPage => sheets::page(first, lent).into(),
        Operation::TakeIn => of_recorded(first, second, lent),
        Operation::TravelPage => travels::page(first, lent).into(),
    }
}

// Calls the operation of a case and writes its answer; a number that no operation has is answered by 6.
fn answer(case: Case, first: &[u8], second: &[u8], lent: &mut [u8]) {
    match Operation::try_from(case.operation) {
        Ok(operation) => write_answer(answer_of(operation, case, first, second, lent)),
        Err(_) => cases::write_head(6, 0, 0, 0),
    }
}

// Fills the lent bytes, calls, and writes the answer and then all of the lent bytes.
fn run_case(case: Case, bytes: &[u8], lent: &mut [u8]) -> bool {
    cases::fill(lent, case.pattern);
    let first = cases::within(case.first, bytes);
    answer(case, &bytes[..first], &bytes[first..], lent);
    io::write_all(Case::OUTPUT, lent)
}

// A case whose head is read: its bytes follow. Lengths beyond the space are cut to it.
fn take_case(case: Case, body: &mut [u8], space: &mut [u8]) -> bool {
    let asked = cases::within(case.bytes, body);
    io::read_full(Case::INPUT, &mut body[..asked]);
    let end = cases::within(case.bytes, body);
    let room = cases::within(case.room, space);
    run_case(case, &body[..end], &mut space[..room])
}

fn next_case(body: &mut [u8], space: &mut [u8]) -> bool {
    let mut head = [0u8; Case::HEAD];
    if io::read_full(Case::INPUT, &mut head) < Case::HEAD {
        return false;
    }
    take_case(cases::case_of(&head), body, space)
}

// A proved loop has to end, and nothing says that the input does: the loop has a last turn, which no run comes to.
fn all_cases(body: &mut [u8], space: &mut [u8]) {
    for _ in 0..u64::MAX {
        if !next_case(body, space) {
            return;
        }
    }
}

// Answers every case on standard input.
pub fn answer_all() {
    let mut body = body_space();
    let mut space = lent_space();
    all_cases(&mut body, &mut space);
}
