// Formula rows: their kinds, and the check of one row behind refusal 8.
// A row is three numbers, as document 01 has them: kind, first, second.
#![tactic(auto)]

ghost use Rattle.std.specs.Prelude.{◌≡◌, ◌≤◌, ◌<◌};
ghost use Rattle.rows.specs.Rows.{kind_of, fields_of, row_at};
ghost use Rattle.rows.specs.Checks.{row_sound, is_condition, is_not};

use figures::{ConditionCount, RowNumber};

// "Kinds 0 to 12 are the only kinds": document 01's table, line by line, and what every other number is.
#[derive(Clone, Copy, PartialEq, Eq)]
pub enum Kind {
    False,
    True,
    Condition,
    Not,
    And,
    Or,
    StrongNext,
    WeakNext,
    Until,
    Release,
    Finally,
    Globally,
    WeakUntil,
    Unknown,
}

// What the two fields of a row hold, by its kind.
#[derive(Clone, Copy)]
pub enum Fields {
    Neither,
    Condition,
    OneRow,
    TwoRows,
    Unknown,
}

impl From<u16> for Kind {
    ghost from_gives = { λ number kind. kind ≡ kind_of number };

    #[inline]
    fn from(number: u16) -> Kind {
        match number {
            0 => Kind::False,
            1 => Kind::True,
            2 => Kind::Condition,
            3 => Kind::Not,
            4 => Kind::And,
            5 => Kind::Or,
            6 => Kind::StrongNext,
            7 => Kind::WeakNext,
            8 => Kind::Until,
            9 => Kind::Release,
            10 => Kind::Finally,
            11 => Kind::Globally,
            12 => Kind::WeakUntil,
            13..=u16::MAX => Kind::Unknown,
        }
    }
}

impl Kind {
    #[inline]
    pub fn fields(self) -> Fields
        ensures { result ≡ fields_of self }
    {
        match self {
            Kind::False | Kind::True => Fields::Neither,
            Kind::Condition => Fields::Condition,
            Kind::Not => Fields::OneRow,
            Kind::And | Kind::Or => Fields::TwoRows,
            Kind::StrongNext | Kind::WeakNext => Fields::OneRow,
            Kind::Until | Kind::Release => Fields::TwoRows,
            Kind::Finally | Kind::Globally => Fields::OneRow,
            Kind::WeakUntil => Fields::TwoRows,
            Kind::Unknown => Fields::Unknown,
        }
    }
}

// Whether a row may stand at this place of a table: 8 is given where it may not.
pub fn row_sound(row: [u16; 3], at: RowNumber, conditions: ConditionCount) -> bool
    ensures { result ≡ row_sound conditions.0 at.0 row }
{
    let first = usize::from(row[1]);
    let second = usize::from(row[2]);
    match Kind::from(row[0]).fields() {
        Fields::Neither => first == 0 && second == 0,
        Fields::Condition => first < conditions.0 && second == 0,
        Fields::OneRow => first < at.0 && second == 0,
        Fields::TwoRows => first < at.0 && second < at.0,
        Fields::Unknown => false,
    }
}

// Whether a row is a condition.
pub fn is_condition_row(row: [u16; 3]) -> bool
    ensures { result ≡ is_condition row }
{
    Kind::from(row[0]) == Kind::Condition
}

// Whether a row is "not".
pub fn is_not_row(row: [u16; 3]) -> bool
    ensures { result ≡ is_not row }
{
    matches!(Kind::from(row[0]), Kind::Not)
}

// Whether row r is a condition; past the last row nothing is.
pub fn is_condition(rows: &[[u16; 3]], r: RowNumber) -> bool
    ensures { result ≡ is_condition (row_at rows.now r.0) }
{
    rows.get(r.0).is_some_and(|row| is_condition_row(*row))
}
