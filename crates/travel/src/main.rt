// The program `travel`: an encoder log on standard input; on standard output the travel at each step, or the one line of the first refusal.
#![tactic(auto)]

// The numbers of the files that a program is started with: standard input and standard output.
const STDIN_FILENO: i32 = 0;

const STDOUT_FILENO: i32 = 1;

fn main() {
    // Many more bytes than a log may have, so that a longer input is refused by 10.
    let mut input = io::large_buffer();
    let count = io::read_full(STDIN_FILENO, &mut input);
    let mut page = travels::blank();
    travels::put_page(&input[..count], &mut page);
    io::write_all(STDOUT_FILENO, &page.text);
}
