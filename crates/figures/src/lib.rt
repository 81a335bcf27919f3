// What every number counts, the places, and the refusals. A number crosses an interface only in one of these types; those marked
// `#[repr(C)]` cross the C interface too (room `exports`).
#![tactic(auto)]

ghost use Rattle.std.specs.Prelude.{◌≡◌};
ghost use Rattle.figures.specs.Refusals.{number_of, place_of, row_place_of, step_place_of, printed_place};

// Numbers: which one is meant. All count from 0.
#[derive(Clone, Copy)]
pub struct ConditionNumber(pub usize);

#[repr(C)]
#[derive(Clone, Copy)]
pub struct OccurrenceNumber(pub usize);

#[derive(Clone, Copy)]
pub struct StepNumber(pub usize);

#[derive(Clone, Copy)]
pub struct RowNumber(pub usize);

#[repr(C)]
#[derive(Clone, Copy)]
pub struct RequirementNumber(pub usize);

#[derive(Clone, Copy)]
pub struct RunNumber(pub usize);

// Bytes before the one meant, from byte 0 of a suite file.
#[derive(Clone, Copy)]
pub struct ByteOffset(pub usize);

// Counts: how many there are.
#[repr(C)]
#[derive(Clone, Copy)]
pub struct ConditionCount(pub usize);

#[derive(Clone, Copy)]
pub struct OccurrenceCount(pub usize);

#[repr(C)]
#[derive(Clone, Copy)]
pub struct StepCount(pub usize);

#[derive(Clone, Copy)]
pub struct RowCount(pub usize);

#[derive(Clone, Copy)]
pub struct RequirementCount(pub usize);

#[derive(Clone, Copy)]
pub struct RunCount(pub usize);

#[repr(C)]
#[derive(Clone, Copy)]
pub struct ByteCount(pub usize);

// Pairs of an occurrence and a run.
#[derive(Clone, Copy)]
pub struct PairCount(pub usize);

// Which line of document 01's table of refusals is meant, from 1.
#[repr(C)]
#[derive(Clone, Copy)]
pub struct RefusalNumber(pub usize);

// A place as a program prints it: the number of the byte, row or step, and 0 for none.
#[repr(C)]
#[derive(Clone, Copy)]
pub struct PrintedPlace(pub usize);

// Where a refusal points.
#[derive(Clone, Copy)]
pub enum Place {
    None,
    Byte(ByteOffset),
    Row(RowNumber),
    Step(StepNumber),
}

// A row of a lone table by its number, a row of a file by the offset where it starts.
#[derive(Clone, Copy)]
pub enum RowPlace {
    Lone(RowNumber),
    File(ByteOffset),
}

// A step of a lone run by its number, a word of a file by the offset where it starts.
#[derive(Clone, Copy)]
pub enum StepPlace {
    Lone(StepNumber),
    File(ByteOffset),
}

// The refusals 1 to 14 of document 01, in its order.
#[derive(Clone, Copy)]
pub enum Refusal {
    FileBytes,
    Form,
    Counts,
    ContentsCut,
    Entry(ByteOffset),
    FileEnd,
    TableLength,
    UnsoundRow(RowPlace),
    NotRequirement(RowPlace),
    RunLength,
    StrayBit(StepPlace),
    NoSuch,
    TrapRows,
    ShortOutput,
}

impl Place {
    // What is printed of a place.
    pub fn printed(self) -> PrintedPlace
        ensures { result.0 ≡ printed_place self }
    {
        match self {
            Place::None => PrintedPlace(0),
            Place::Byte(at) => PrintedPlace(at.0),
            Place::Row(at) => PrintedPlace(at.0),
            Place::Step(at) => PrintedPlace(at.0),
        }
    }
}

impl RowPlace {
    pub fn place(self) -> Place
        ensures { result ≡ row_place_of self }
    {
        match self {
            RowPlace::Lone(at) => Place::Row(at),
            RowPlace::File(at) => Place::Byte(at),
        }
    }
}

impl StepPlace {
    pub fn place(self) -> Place
        ensures { result ≡ step_place_of self }
    {
        match self {
            StepPlace::Lone(at) => Place::Step(at),
            StepPlace::File(at) => Place::Byte(at),
        }
    }
}

impl Refusal {
    pub fn number(self) -> RefusalNumber
        ensures { result.0 ≡ number_of self }
    {
        match self {
            Refusal::FileBytes => RefusalNumber(1),
            Refusal::Form => RefusalNumber(2),
            Refusal::Counts => RefusalNumber(3),
            Refusal::ContentsCut => RefusalNumber(4),
            Refusal::Entry(_) => RefusalNumber(5),
            Refusal::FileEnd => RefusalNumber(6),
            Refusal::TableLength => RefusalNumber(7),
            Refusal::UnsoundRow(_) => RefusalNumber(8),
            Refusal::NotRequirement(_) => RefusalNumber(9),
            Refusal::RunLength => RefusalNumber(10),
            Refusal::StrayBit(_) => RefusalNumber(11),
            Refusal::NoSuch => RefusalNumber(12),
            Refusal::TrapRows => RefusalNumber(13),
            Refusal::ShortOutput => RefusalNumber(14),
        }
    }

    pub fn place(self) -> Place
        ensures { result ≡ place_of self }
    {
        match self {
            Refusal::FileBytes => Place::None,
            Refusal::Form => Place::None,
            Refusal::Counts => Place::None,
            Refusal::ContentsCut => Place::None,
            Refusal::Entry(at) => Place::Byte(at),
            Refusal::FileEnd => Place::None,
            Refusal::TableLength => Place::None,
            Refusal::UnsoundRow(at) => at.place(),
            Refusal::NotRequirement(at) => at.place(),
            Refusal::RunLength => Place::None,
            Refusal::StrayBit(at) => at.place(),
            Refusal::NoSuch => Place::None,
            Refusal::TrapRows => Place::None,
            Refusal::ShortOutput => Place::None,
        }
    }
}
