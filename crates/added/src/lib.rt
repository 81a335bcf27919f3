// The rows that each kind adds, and how many.
#![tactic(auto)]

ghost use Rattle.std.specs.Prelude.{◌≡◌, ◌<◌, ◌≤◌, ◌+◌, ◌++◌};
ghost use Rattle.arrayvec.specs.ArrayVec.{array_vec_len};
ghost use Rattle.lengths.specs.Lengths.{most_table_rows};
ghost use Rattle.rules.specs.TrapRows.{added, added_count, side_of};

use rows::Kind;
use rules::{AddedRows, add, and_row, finally_row, globally_row, not_row, or_row, strong_next_row};

// How many rows a kind adds, by the side of the child on the way.
pub fn added_count(kind: Kind, left: bool) -> u16
    ensures { result ≡ added_count kind (side_of left) }
{
    match kind {
        Kind::False | Kind::True | Kind::Condition | Kind::Not | Kind::Unknown => 0,
        Kind::And => 1,
        Kind::Or => 2,
        Kind::StrongNext | Kind::WeakNext => 1,
        Kind::Until => if left { 4 } else { 5 },
        Kind::Release => if left { 5 } else { 3 },
        Kind::Finally => 4,
        Kind::Globally => 2,
        Kind::WeakUntil => if left { 4 } else { 6 },
    }
}

// Adds the rows that a kind adds: document 01's table, line by line. z is the first free row.
pub fn add_rows(
    kind: Kind,
    left: bool,
    s: u16,
    c: u16,
    o: u16,
    t: u16,
    z: u16,
    rows: &mut AddedRows,
)
    requires small { z < 60000 }
    requires room { array_vec_len rows.old + 6 ≤ most_table_rows }
    ensures { rows.new.items ≡ rows.old.items ++ added kind (side_of left) s c o t z }
{
    match kind {
        Kind::False | Kind::True | Kind::Condition | Kind::Not | Kind::Unknown => {}
        Kind::And => add(&[and_row(t, o)], rows),
        Kind::Or => add(&[not_row(o), and_row(t, z)], rows),
        Kind::StrongNext | Kind::WeakNext => add(&[strong_next_row(t)], rows),
        Kind::Until => rules::add_until(left, s, c, o, t, z, rows),
        Kind::Release => rules::add_release(left, s, c, o, t, z, rows),
        Kind::Finally => add(
            &[
                not_row(c),
                or_row(z, t),
                globally_row(z + 1),
                and_row(s, z + 2),
            ],
            rows,
        ),
        Kind::Globally => add(&[finally_row(t), and_row(s, z)], rows),
        Kind::WeakUntil => rules::add_weak_until(left, s, c, o, t, z, rows),
    }
}
