// The way from an occurrence up to the last row, and the rows that it adds.
#![tactic(auto)]

ghost use Rattle.std.specs.Prelude.{◌≡◌, cond, ◌+◌, ◌≤◌, length};
ghost use Rattle.arrayvec.specs.ArrayVec.{array_vec_len};
ghost use Rattle.lengths.specs.Lengths.{most_table_rows, most_requirement_rows};
ghost use Rattle.rows.specs.Rows.{first, second, named};
ghost use Rattle.rules.specs.TrapRows.{added, has, up_to, way};
ghost use Rattle.ways.specs.Climbing.{way_at, passed};

use rows::{Fields, Kind};
use rules::AddedRows;

// The way so far, beside the rows added: the row in hand, and the row that is its trap.
#[derive(Clone, Copy)]
pub struct Stand {
    pub at: u16,
    pub trap: u16,
}

// Whether a row names row k.
fn names(row: [u16; 3], k: u16) -> bool
    ensures { result ≡ has k (named row) }
{
    match Kind::from(row[0]).fields() {
        Fields::OneRow => k == row[1],
        Fields::TwoRows => k == row[1] || k == row[2],
        Fields::Neither | Fields::Condition | Fields::Unknown => false,
    }
}

// The field of a row that does not name the row in hand, by the side of the one that does.
fn other(row: [u16; 3], left: bool) -> u16
    ensures { result ≡ cond left (second row) (first row) }
{
    if left { row[2] } else { row[1] }
}

// Row s names the row in hand: it is the next one on the way, and its rows are added after those before them.
#[tactic(auto, using(crate::proofs::Upward::last_row))]
fn up_to(row: [u16; 3], s: u16, n: usize, stand: Stand, rows: &mut AddedRows) -> Stand
    requires few { n ≤ most_requirement_rows }
    requires room { array_vec_len rows.old + 6 ≤ most_table_rows }
    ensures { way_at result rows.new.items ≡ up_to added n s row (way_at stand rows.old.items) }
{
    let at = stand.at;
    let left = row[1] == at;
    let other = other(row, left);
    let done = rows.len();
    let z = (n + done) as u16;
    let kind = Kind::from(row[0]);
    added::add_rows(kind, left, s, at, other, stand.trap, z, rows);
    let trap = if rows.len() == done {
        s
    } else {
        (n + rows.len() - 1) as u16
    };
    Stand { at: s, trap }
}

// Passes row s: if it names the row in hand, the way goes up to it.
fn pass(row: [u16; 3], s: u16, n: usize, stand: Stand, rows: &mut AddedRows) -> Stand
    requires few { n ≤ most_requirement_rows }
    requires room { array_vec_len rows.old + 6 ≤ most_table_rows }
    ensures { way_at result rows.new.items ≡ passed n s row (way_at stand rows.old.items) }
{
    if names(row, stand.at) {
        up_to(row, s, n, stand, rows)
    } else {
        stand
    }
}

// The rows that the way from row p up to the last row adds.
#[tactic(auto, using(crate::proofs::Upward::upward_start, crate::proofs::Upward::upward_end))]
pub fn go_up(rows: &[[u16; 3]], p: u16) -> AddedRows
    requires { length rows.now ≤ most_requirement_rows }
    ensures { result.items ≡ (way added rows.now p).rows }
{
    let mut added = AddedRows::new();
    let mut stand = Stand { at: p, trap: p };
    for (s, row) in rows.iter().enumerate() {
        stand = pass(*row, s as u16, rows.len(), stand, &mut added);
    }
    added
}
