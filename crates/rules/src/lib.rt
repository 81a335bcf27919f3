// The trap rules: what they say, and the rows that until, release and weak until add.
#![tactic(auto)]

ghost use Rattle.std.specs.Prelude.{◌≡◌, ◌<◌, ◌≤◌, ◌+◌, ◌++◌, length};
ghost use Rattle.arrayvec.specs.ArrayVec.{array_vec_len};
ghost use Rattle.lengths.specs.Lengths.{most_table_rows};
ghost use Rattle.rows.specs.declared.Kind.TheVariants.{Until, Release, WeakUntil};
ghost use Rattle.rules.specs.TrapRows.{not_row, and_row, or_row, strong_next_row, until_row, release_row, finally_row, globally_row, added, side_of};

use arrayvec::ArrayVec;
use lengths::TABLE_ROWS;

// The rows added so far, which fit in a table.
pub type AddedRows = ArrayVec<[u16; 3], TABLE_ROWS>;

// The rows that are added, by their kind.
pub fn not_row(a: u16) -> [u16; 3]
    ensures { result ≡ not_row a }
{
    [3, a, 0]
}

pub fn and_row(a: u16, b: u16) -> [u16; 3]
    ensures { result ≡ and_row a b }
{
    [4, a, b]
}

pub fn or_row(a: u16, b: u16) -> [u16; 3]
    ensures { result ≡ or_row a b }
{
    [5, a, b]
}

pub fn strong_next_row(a: u16) -> [u16; 3]
    ensures { result ≡ strong_next_row a }
{
    [6, a, 0]
}

pub fn until_row(a: u16, b: u16) -> [u16; 3]
    ensures { result ≡ until_row a b }
{
    [8, a, b]
}

pub fn release_row(a: u16, b: u16) -> [u16; 3]
    ensures { result ≡ release_row a b }
{
    [9, a, b]
}

pub fn finally_row(a: u16) -> [u16; 3]
    ensures { result ≡ finally_row a }
{
    [10, a, 0]
}

pub fn globally_row(a: u16) -> [u16; 3]
    ensures { result ≡ globally_row a }
{
    [11, a, 0]
}

// Adds rows behind those added so far.
pub fn add(new: &[[u16; 3]], rows: &mut AddedRows)
    requires room { array_vec_len rows.old + length new.now ≤ most_table_rows }
    ensures { rows.new.items ≡ rows.old.items ++ new.now }
{
    rows.try_extend_from_slice(new).unwrap();
}

// Adds what until adds.
pub fn add_until(left: bool, s: u16, c: u16, o: u16, t: u16, z: u16, rows: &mut AddedRows)
    requires small { z < 60000 }
    requires room { array_vec_len rows.old + 6 ≤ most_table_rows }
    ensures { rows.new.items ≡ rows.old.items ++ added Until (side_of left) s c o t z }
{
    if left {
        add(
            &[
                not_row(o),
                and_row(t, z),
                until_row(z, z + 1),
                and_row(s, z + 2),
            ],
            rows,
        )
    } else {
        add(
            &[
                not_row(o),
                not_row(c),
                or_row(z + 1, t),
                release_row(z, z + 2),
                and_row(s, z + 3),
            ],
            rows,
        )
    }
}

// Adds what release adds.
pub fn add_release(left: bool, s: u16, c: u16, o: u16, t: u16, z: u16, rows: &mut AddedRows)
    requires small { z < 60000 }
    requires room { array_vec_len rows.old + 6 ≤ most_table_rows }
    ensures { rows.new.items ≡ rows.old.items ++ added Release (side_of left) s c o t z }
{
    if left {
        add(
            &[
                not_row(c),
                or_row(z, t),
                not_row(o),
                until_row(z + 1, z + 2),
                and_row(s, z + 3),
            ],
            rows,
        )
    } else {
        add(&[not_row(o), until_row(z, t), and_row(s, z + 1)], rows)
    }
}

// Adds what weak until adds.
pub fn add_weak_until(left: bool, s: u16, c: u16, o: u16, t: u16, z: u16, rows: &mut AddedRows)
    requires small { z < 60000 }
    requires room { array_vec_len rows.old + 6 ≤ most_table_rows }
    ensures { rows.new.items ≡ rows.old.items ++ added WeakUntil (side_of left) s c o t z }
{
    if left {
        add(
            &[
                not_row(o),
                and_row(z, t),
                until_row(z, z + 1),
                and_row(s, z + 2),
            ],
            rows,
        )
    } else {
        add(
            &[
                not_row(c),
                or_row(z, t),
                not_row(o),
                and_row(z + 2, z + 1),
                until_row(z + 1, z + 3),
                and_row(s, z + 4),
            ],
            rows,
        )
    }
}
