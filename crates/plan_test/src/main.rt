// Replays stored jobs as the program `plan` answers them: stdin has a container of jobs
// (oracle/README.md), and for each a line `job` with its label and then its plan is printed. The
// file stdout holds the oracle's answers (oracle/samples/plan.py).
#![tactic(auto)]

fn main() {
    let mut room = [0u8; 131072];
    replay::records::answer_all(&mut room, |job| program::print_plan::print_plan(job));
}
