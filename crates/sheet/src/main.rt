// The program `sheet`: a suite on standard input; on standard output its bench sheet, or the one line of the first refusal.
#![tactic(auto)]

// The numbers of the files that a program is started with: standard input and standard output.
const STDIN_FILENO: i32 = 0;

const STDOUT_FILENO: i32 = 1;

fn main() {
    // One byte more than a suite may have, so that a longer input is refused by 1.
    let mut input = io::large_buffer();
    let count = io::read_full(STDIN_FILENO, &mut input);
    let mut page = sheets::blank();
    sheets::put_page(&input[..count], &mut page);
    io::write_all(STDOUT_FILENO, &page.text);
}
