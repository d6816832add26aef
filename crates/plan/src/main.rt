// The program `plan` (document 01, "The printed plan"): reads a job from standard input and prints
// its plan, or `no` and the number of its refusal.

#![tactic(auto)]

fn main() {
    program::print_plan::read_and_print();
}
