// Bits written into a lent room (document 01, "The job's bits"). What does not fit the room is only
// counted. The functions are called by this project's crates alone.
#![tactic(auto)]

ghost use Rattle.std.specs.Prelude.{◌≡◌, ℕ, ◌+◌, ◌*◌, ◌-◌, ◌/◌, ◌%◌, ◌^◌, ◌≤◌, ◌<◌, List, [], ◌++◌, length, set, take, replicate};
ghost use Rattle.bit_writer.specs.Packed.{binary, packed, in_room};
ghost use Rattle.bit_writer.specs.inner.BitWriting.{Sound, written, Wrote, Put, Closed};

// A writer: the whole bytes that are written, and the bits of the next byte so far, with their number.
#[derive(Clone, Copy)]
pub struct BitWriter {
    pub bytes: usize,
    pub held: u64,
    pub filled: usize,
}

// The bits held, and after them the k bits of n that lie above its e lowest.
fn joined(held: u64, n: u64, k: usize, e: usize) -> u64
    requires { (k ≤ 8) × (e < 64) × ((held + 1) * 2 ^ k ≤ 256) }
    ensures { result ≡ held * 2 ^ k + n / 2 ^ e % 2 ^ k }
{
    (held << k) + (n >> e) % (1u64 << k)
}

// A value, if the room has its place.
pub fn store<T: Copy>(out: &mut [T], at: usize, x: T)
    ensures { out.new ≡ set out.old at x }
{
    if at < out.len() {
        out[at] = x;
    }
}

// The k bits of n above its e lowest, where no more are missing to a byte.
fn put_some(out: &mut [u8], p: BitWriter, n: u64, k: usize, e: usize) -> BitWriter
    requires { Sound p × (p.filled + k ≤ 8) × (e < 64) × (p.bytes < 1000000000000) }
    ensures { Put out.old p (binary k (n / 2 ^ e)) out.new result }
{
    let held = joined(p.held, n, k, e);
    let filled = p.filled + k;
    if filled == 8 {
        store(out, p.bytes, held as u8);
        return BitWriter {
            bytes: p.bytes + 1,
            held: 0,
            filled: 0,
        };
    }
    BitWriter {
        bytes: p.bytes,
        held,
        filled,
    }
}

// The w bits of n. A step puts up to 8 bits, so `left` does not fall by one.
pub fn put(out: &mut [u8], p: BitWriter, n: u64, w: usize) -> BitWriter
    requires { Sound p × (w ≤ 64) × (written p + w < 8000000000000) }
    ensures { Put out.old p (binary w n) out.new result }
{
    let mut q = p;
    let mut left = w;
    while 0 < left {
        let k = left.min(8 - q.filled);
        left -= k;
        q = put_some(out, q, n, k, left);
    }
    q
}

// A new writer.
pub fn new_writer() -> BitWriter
    ensures { Sound result × (written result ≡ 0) × ((out : List ℕ) → Wrote out [] result) }
{
    BitWriter {
        bytes: 0,
        held: 0,
        filled: 0,
    }
}

// The bits held, filled up with zeros to a byte: the number of bytes.
fn close(out: &mut [u8], p: BitWriter) -> usize
    requires { Sound p }
    ensures { (bits : List ℕ) → Wrote out.old bits p → Closed out.old bits out.new result }
{
    if p.filled == 0 {
        return p.bytes;
    }
    let last = p.held << (8 - p.filled);
    store(out, p.bytes, last as u8);
    p.bytes + 1
}

// Zeros from byte n on. By hand: an edit of one byte's zero stands in the loop.
pub fn clear_from(out: &mut [u8], n: usize)
    ensures { out.new ≡ take n out.old ++ replicate (length out.old - n) 0 }
{
    for i in n..out.len() {
        out[i] = 0;
    }
}

// The last byte, and zeros behind it: the number of bytes.
pub fn finish(out: &mut [u8], p: BitWriter) -> usize
    requires { Sound p }
    ensures { (bits : List ℕ) → Wrote out.old bits p → (result ≡ length (packed bits))
        × (result ≤ length out.old → out.new ≡ in_room 0 (packed bits) (length out.old))
        × (length out.new ≡ length out.old) }
{
    let n = close(out, p);
    clear_from(out, n);
    n
}
