// The program `answers`: answers the cases on standard input. An independent reference makes them and compares (docs/OUTSIDE.md).
#![tactic(auto)]

fn main() {
    answering::answer_all();
}
