// The program `plan` on an input of one byte more than a job may have: stdin has it, and the file stdout
// the oracle's answer (oracle/samples/long_job.py).

#![tactic(auto)]

fn main() {
    program::print_plan::read_and_print();
}
