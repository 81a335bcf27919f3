// Lines of text, put on a page one field after the other: words, decimal numbers, and the line of a refusal.
// These are helpers of the rooms above: a caller shows that the text fits.
#![tactic(auto)]

ghost use Rattle.std.specs.Prelude.{◌≡◌, [], ◌∷◌, ◌++◌, ◌+◌, ◌≤◌, length};
ghost use Rattle.arrayvec.specs.ArrayVec.{array_vec_len};
ghost use Rattle.figures.specs.Outputs.{output_says, lent_after};
ghost use Rattle.figures.specs.Refusals.{number_of, place_of};
ghost use Rattle.lines.specs.Lines.{decimal, refused_line};
ghost use Rattle.lines.specs.Texts.{text_of};

use arrayvec::ArrayVec;
use figures::{ByteCount, Place, Refusal, RefusalNumber};

// A figure as a printed field: the definition of its line says what it counts.
#[derive(Clone, Copy)]
pub struct Field(pub usize);

// A page of text, of at most so many bytes.
#[derive(Drop)]
pub struct Page<const MOST: usize> {
    pub text: ArrayVec<u8, MOST>,
}

impl<const MOST: usize> Page<MOST> {
    // A page with nothing on it.
    pub fn new() -> Self
        ensures { result.text.items ≡ [] }
    {
        Page {
            text: ArrayVec::new(),
        }
    }

    // Copies the text to the front of what is lent; 14 where it does not fit.
    pub fn copy_to(&self, out: &mut [u8]) -> Result<ByteCount, Refusal>
        ensures result_value { output_says result ≡ text_of self.now.text.items (length out.old) }
        ensures out_after { out.new ≡ lent_after (text_of self.now.text.items (length out.old)) self.now.text.items out.old }
    {
        let many = self.text.len();
        if out.len() < many {
            return Err(Refusal::ShortOutput);
        }
        out[..many].copy_from_slice(&self.text);
        Ok(ByteCount(many))
    }

    // Puts a word and one byte after it.
    pub fn put_word(&mut self, word: &[u8], end: u8)
        requires { array_vec_len self.old.text + (length word.now + 1) ≤ MOST }
        ensures { self.new.text.items ≡ self.old.text.items ++ (word.now ++ (end ∷ [])) }
    {
        self.text.try_extend_from_slice(word).unwrap();
        self.text.push(end);
    }

    // Puts a number and one byte after it.
    pub fn put_number(&mut self, n: Field, end: u8)
        requires { array_vec_len self.old.text + (length (decimal n.0) + 1) ≤ MOST }
        ensures { self.new.text.items ≡ self.old.text.items ++ (decimal n.0 ++ (end ∷ [])) }
    {
        let mut digits = [0u8; 20];
        let many = io::decimal(n.0 as u64, &mut digits);
        self.put_word(&digits[..many], end)
    }

    // Puts the line of a refusal's number and place.
    pub fn put_refusal_line(&mut self, number: RefusalNumber, place: Place)
        requires { array_vec_len self.old.text + 64 ≤ MOST }
        ensures { self.new.text.items ≡ self.old.text.items ++ refused_line number.0 place }
    {
        self.put_word(b"refused", b' ');
        self.put_number(Field(number.0), b' ');
        self.put_number(Field(place.printed().0), b'\n')
    }

    // Puts the line of a refusal.
    pub fn put_refused(&mut self, refusal: Refusal)
        requires { array_vec_len self.old.text + 64 ≤ MOST }
        ensures { self.new.text.items ≡ self.old.text.items ++ refused_line (number_of refusal) (place_of refusal) }
    {
        self.put_refusal_line(refusal.number(), refusal.place())
    }
}
