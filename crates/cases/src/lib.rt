// The bytes of a case and of an answer, for a program that reads cases and writes what the operations answer (docs/OUTSIDE.md has the
// layout of both): heads of four-byte numbers, words and limits.
#![tactic(auto)]

ghost use Rattle.std.specs.Prelude.{◌≡◌, ◌+◌, ◌≤◌, ◌<◌, length, take};
ghost use Rattle.io.specs.Counts.{IsPrefixLen};

use figures::ConditionCount;

// A case's head: which operation, the byte that fills the lent bytes before it, how many bytes follow and how many of them are the
// table, file or log (the others are the run or the limits), how many conditions, which occurrence or requirement, and how many bytes
// are lent.
#[derive(Clone, Copy)]
pub struct Case {
    pub operation: usize,
    pub pattern: u8,
    pub bytes: usize,
    pub first: usize,
    pub conditions: ConditionCount,
    pub which: usize,
    pub room: usize,
}

// The operations that a case may ask for.
#[derive(Clone, Copy)]
pub enum Operation {
    Truth,
    Trap,
    Witness,
    List,
    Sheet,
    SheetPage,
    TakeIn,
    TravelPage,
}

// A number that no operation has.
#[derive(Clone, Copy)]
pub struct NoOperation(pub usize);

impl TryFrom<usize> for Operation {
    type Error = NoOperation;

    fn try_from(number: usize) -> Result<Operation, NoOperation> {
        match number {
            1 => Ok(Operation::Truth),
            2 => Ok(Operation::Trap),
            3 => Ok(Operation::Witness),
            4 => Ok(Operation::List),
            5 => Ok(Operation::Sheet),
            6 => Ok(Operation::SheetPage),
            7 => Ok(Operation::TakeIn),
            8 => Ok(Operation::TravelPage),
            _ => Err(NoOperation(number)),
        }
    }
}

impl Case {
    // The bytes of a case's head, and of an answer's.
    pub const HEAD: usize = 28;

    pub const ANSWER: usize = 16;

    // The words of a run, and the limits of a log: more than either may have.
    pub const WORDS: usize = 4200;

    pub const LIMITS: usize = 64;

    // The numbers of the files that a program is started with: standard input and standard output.
    pub const INPUT: i32 = 0;

    pub const OUTPUT: i32 = 1;
}

// So many of the bytes, or all where there are fewer.
pub fn within(n: usize, bytes: &[u8]) -> usize
    ensures { IsPrefixLen result bytes.now }
{
    n.min(bytes.len())
}

// The bytes of the four-byte number at a place.
fn four_at(bytes: &[u8], at: usize) -> [u8; 4]
    requires { at + 4 ≤ length bytes.now }
{
    [bytes[at], bytes[at + 1], bytes[at + 2], bytes[at + 3]]
}

// The four-byte number at a place.
fn number_at(bytes: &[u8], at: usize) -> usize
    requires { at + 4 ≤ length bytes.now }
    ensures { result < 4294967296 }
{
    u32::from_le_bytes(four_at(bytes, at)) as usize
}

// The head of a case.
pub fn case_of(head: &[u8; Case::HEAD]) -> Case {
    Case {
        operation: number_at(head, 0),
        pattern: head[4],
        bytes: number_at(head, 8),
        first: number_at(head, 12),
        conditions: ConditionCount(number_at(head, 16)),
        which: number_at(head, 20),
        room: number_at(head, 24),
    }
}

// The words of a run, four bytes each, and how many there are.
pub fn words_into(bytes: &[u8], words: &mut [u32]) -> usize
    ensures { IsPrefixLen result words.new }
{
    let count = (bytes.len() / 4).min(words.len());
    for i in 0..count {
        words[i] = u32::from_le_bytes(four_at(bytes, 4 * i));
    }
    count
}

// The limits of a log, four bytes each and signed, and how many there are.
pub fn limits_into(bytes: &[u8], limits: &mut [i32]) -> usize
    ensures { (result ≤ length limits.new) × (result ≡ length (take result limits.new)) }
{
    let count = (bytes.len() / 4).min(limits.len());
    for i in 0..count {
        limits[i] = i32::from_le_bytes(four_at(bytes, 4 * i));
    }
    count
}

// The words as bytes, four each, as far as both go; the bytes past them stay.
pub fn words_back(words: &[u32; Case::WORDS], bytes: &mut [u8]) {
    let count = (bytes.len() / 4).min(Case::WORDS);
    for i in 0..count {
        bytes[4 * i..4 * i + 4].copy_from_slice(&words[i].to_le_bytes());
    }
}

// Fills the lent bytes.
pub fn fill(lent: &mut [u8], pattern: u8) {
    lent.fill(pattern);
}

// A number of four bytes at a place of an answer's head.
fn put_number(n: usize, out: &mut [u8; Case::ANSWER], at: usize)
    requires { at ≤ 12 }
{
    out[at] = (n % 256) as u8;
    out[at + 1] = (n / 256 % 256) as u8;
    out[at + 2] = (n / 256 / 256 % 256) as u8;
    out[at + 3] = (n / 256 / 256 / 256 % 256) as u8;
}

fn write_out(out: &[u8; Case::ANSWER]) {
    io::write_all(Case::OUTPUT, out);
}

// Writes an answer's head: what it is, the refusal's number or how much was written, what the place is, the place.
pub fn write_head(kind: usize, number: usize, unit: usize, place: usize) {
    let mut out = [0u8; Case::ANSWER];
    put_number(kind, &mut out, 0);
    put_number(number, &mut out, 4);
    put_number(unit, &mut out, 8);
    put_number(place, &mut out, 12);
    write_out(&out);
}
