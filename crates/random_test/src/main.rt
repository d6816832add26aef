// Replays published SplitMix64 outputs: the first from state 0, the first five from state 1234567.
// The file stdout holds the published numbers.
#![tactic(auto)]

fn print_draws(seed: u64, count: u64) {
    let mut state = seed;
    for _ in 0..count {
        io::print_decimal(1, random::next_random(&mut state));
        io::write_all(1, b"\n");
    }
}

fn main() {
    print_draws(0, 1);
    print_draws(1234567, 5);
}
