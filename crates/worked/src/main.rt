// The program `worked`: answers the cases on standard input, which are stored vectors. vectors/list.txt lists them, and vectors/answers.txt
// says in words what must come out. Document 01's examples that are marked P are one statement in specs/, and proved.
#![tactic(auto)]

fn main() {
    answering::answer_all();
}
