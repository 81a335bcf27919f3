// Formula rows decoded from bytes, and encoded back.
#![tactic(auto)]

ghost use Rattle.std.specs.Prelude.{◌≡◌, length, take, drop, ◌++◌, ◌≤◌};
ghost use Rattle.lengths.specs.Lengths.{most_table_rows};
ghost use Rattle.codec.specs.Codec.{rows_of, row_of, bytes_of_row, encoded_says, encode_of, encoded};

use arrayvec::ArrayVec;
use figures::{ByteCount, Refusal};
use lengths::{ROW_BYTES, TABLE_ROWS};

// The row that starts at the first byte lent.
pub fn row_of(bytes: &[u8]) -> [u16; 3]
    requires { 3 ≤ length bytes.now }
    ensures { result ≡ row_of bytes.now 0 }
{
    [
        u16::from(bytes[0]),
        u16::from(bytes[1]),
        u16::from(bytes[2]),
    ]
}

// The rows of a table's bytes, or as many as the longest table has.
pub fn decode(bytes: &[u8]) -> ArrayVec<[u16; 3], TABLE_ROWS>
    ensures { result.items ≡ take most_table_rows (rows_of bytes.now) }
{
    let mut rows = ArrayVec::new();
    for r in 0..(bytes.len() / ROW_BYTES).min(TABLE_ROWS) {
        rows.push(row_of(&bytes[ROW_BYTES * r..]));
    }
    rows
}

// Writes a row's three bytes at the front of what is lent.
fn put_row(row: [u16; 3], out: &mut [u8])
    requires { 3 ≤ length out.old }
    ensures { out.new ≡ bytes_of_row row ++ drop 3 out.old }
{
    out[0] = (row[0] % 256) as u8;
    out[1] = (row[1] % 256) as u8;
    out[2] = (row[2] % 256) as u8;
}

// Writes rows as bytes at the front of what is lent; 14 where they do not fit.
pub fn encode(rows: &[[u16; 3]], out: &mut [u8]) -> Result<ByteCount, Refusal>
    ensures result_value { encoded_says result ≡ encode_of rows.now (length out.old) }
    ensures out_after { out.new ≡ encoded rows.now out.old }
{
    if out.len() / ROW_BYTES < rows.len() {
        return Err(Refusal::ShortOutput);
    }
    for (r, row) in rows.iter().enumerate() {
        put_row(*row, &mut out[ROW_BYTES * r..]);
    }
    Ok(ByteCount(ROW_BYTES * rows.len()))
}
