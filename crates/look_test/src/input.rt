// The numbers of the input.
ghost use Rattle.std.specs.Prelude.{◌+◌, ◌≤◌, length};

// The double of eight bytes, most significant first; 0 where they are no finite one's.
fn double_of(eight: [u8; 8]) -> f64 {
    numbers::from_bits(u64::from_be_bytes(eight)).unwrap_or(0.0)
}

// The double at a place of a head.
pub fn double(b: &[u8], at: usize) -> f64
    requires { at + 8 ≤ length b.now }
{
    let mut eight = [0u8; 8];
    eight.copy_from_slice(&b[at..at + 8]);
    double_of(eight)
}

// The next double of the input.
fn next_double() -> f64 {
    let mut eight = [0u8; 8];
    io::read_full(0, &mut eight);
    double_of(eight)
}

// The next doubles of the input.
pub fn read_doubles(out: &mut [f64]) {
    for d in out.iter_mut() {
        *d = next_double();
    }
}
