// The operations that write the bench sheet, or the program's whole output, into lent bytes.
#![tactic(auto)]

ghost use Rattle.std.specs.Prelude.{◌≡◌, [], ◌++◌, ◌+◌, ◌≤◌, length};
ghost use Rattle.arrayvec.specs.ArrayVec.{array_vec_len};
ghost use Rattle.bench.specs.Longest.{sheet_most};
ghost use Rattle.figures.specs.Outputs.{output_says, lent_after};
ghost use Rattle.sheets.specs.Answers.{sheet_of_file, page_text, page_of, sheet_of};

use bench::{Longest, Requirements, Runs, Sheet};
use figures::{ByteCount, Refusal};
use lines::Page;

// The program's whole output for a file: the sheet, or the line of the first refusal.
pub fn put_page<const MOST: usize>(file: &[u8], page: &mut Page<MOST>)
    requires { array_vec_len page.old.text + sheet_most ≤ MOST }
    ensures { page.new.text.items ≡ page.old.text.items ++ page_text file.now }
{
    match suite::check(file) {
        Err(r) => page.put_refused(r),
        Ok(counts) => {
            composing::put_sheet(Requirements::of(file, counts), Runs::of(file, counts), page)
        }
    }
}

// An empty page, with just the room that the longest sheet takes.
pub fn blank() -> Page<{ Longest::SHEET }>
    ensures empty { result.text.items ≡ [] }
    ensures room { sheet_most ≡ Longest.SHEET }
{
    Sheet::new()
}

// The program's whole output for a file, or 14 where it does not fit.
pub fn page(file: &[u8], out: &mut [u8]) -> Result<ByteCount, Refusal>
    ensures result_value { output_says result ≡ page_of file.now (length out.old) }
    ensures out_after { out.new ≡ lent_after (page_of file.now (length out.old)) (page_text file.now) out.old }
{
    let mut page = blank();
    put_page(file, &mut page);
    page.copy_to(out)
}

// The sheet of a suite, or the first refusal of 1 to 6, 8, 9, 11 and 14.
pub fn sheet(file: &[u8], out: &mut [u8]) -> Result<ByteCount, Refusal>
    ensures result_value { output_says result ≡ sheet_of file.now (length out.old) }
    ensures out_after { out.new ≡ lent_after (sheet_of file.now (length out.old)) (sheet_of_file file.now) out.old }
{
    suite::check(file)?;
    page(file, out)
}
