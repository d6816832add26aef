// Replays stored jobs: stdin has a container of jobs (oracle/README.md), and for each a line is
// printed: ok, or no and the number of its refusal. The file stdout holds the oracle's answers.
#![tactic(auto)]

use replay::records;

// Prints the answer to a job.
fn answer(job: &[u8]) {
    match job::judge(job) {
        Ok(_) => {
            io::write_all(1, b"ok\n");
        }
        Err(k) => {
            io::write_all(1, b"no ");
            io::print_decimal(1, bits::refusal_number(k));
            io::write_all(1, b"\n");
        }
    }
}

// One more record, if there is one; the answer to its job is printed.
fn replay(room: &mut [u8]) -> Option<()> {
    records::read_label(room)?;
    answer(records::read_job(room)?);
    Some(())
}

fn main() {
    let mut room = [0u8; 131072];
    records::replay_all(|| replay(&mut room));
}
