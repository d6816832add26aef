// The program `judge` (document 02, W6): reads a list of `put` lines and a job right after it from
// standard input, and prints `accepted` and the number of lines, or `no`, the number of the refusal and
// the line that it speaks of.

#![tactic(auto)]

fn main() {
    judge_text::print_judgement::read_and_print();
}
