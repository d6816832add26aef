// Draws (document 01, module 2): SplitMix64 as published in splitmix64.c (Sebastiano Vigna, 2015).
#![tactic(auto)]

ghost use Rattle.std.specs.Prelude.{◌≡◌, ◌*◌, ◌%◌, ◌^◌};
ghost use Rattle.random.specs.SplitMix64.{next_state, mixed};

// The product modulo 2^64, by 32-bit halves: document 01 asks for a multiply of the program's own.
pub fn wrapping_mul(a: u64, b: u64) -> u64
    ensures { result ≡ (a * b) % 2 ^ 64 }
{
    let a1 = a / 0x1_0000_0000;
    let a0 = a % 0x1_0000_0000;
    let b1 = b / 0x1_0000_0000;
    let b0 = b % 0x1_0000_0000;
    let cross = (a1 * b0).wrapping_add(a0 * b1);
    (a0 * b0).wrapping_add(cross % 0x1_0000_0000 * 0x1_0000_0000)
}

// A copy of the state, mixed.
#[tactic(auto, unfolding(crate::specs::SplitMix64::mixed))]
fn mix(state: u64) -> u64
    ensures { result ≡ mixed state }
{
    let a = wrapping_mul(state ^ (state >> 30), 0xBF58_476D_1CE4_E5B9);
    let b = wrapping_mul(a ^ (a >> 27), 0x94D0_49BB_1331_11EB);
    b ^ (b >> 31)
}

// The next draw, and the state moved on.
#[tactic(auto, unfolding(crate::specs::SplitMix64::next_state))]
pub fn next_random(state: &mut u64) -> u64
    ensures { (state.new ≡ next_state state.old) × (result ≡ mixed (next_state state.old)) }
{
    *state = state.wrapping_add(0x9E37_79B9_7F4A_7C15);
    mix(*state)
}
