// What a lent room holds: doubles, entries, counts, numbers or bytes, each by its bits.
use index::Entry;

pub trait Slot: Copy {
    // The bits that stand for it.
    fn bits(self) -> u64;

    // The one that these bits stand for.
    fn of_bits(n: u64) -> Self;

    // What a draw puts in a room of garbage.
    fn garbage(draw: u64) -> Self;
}

impl Slot for f64 {
    fn bits(self) -> u64 {
        numbers::bits_of(self)
    }

    fn of_bits(n: u64) -> f64 {
        if n == 0x8000_0000_0000_0000 {
            return -0.0;
        }
        match numbers::from_bits(n) {
            Some(x) => x,
            None => not_finite(n),
        }
    }

    // Not a number, an infinity, minus zero, or the double that the draw's bits are.
    fn garbage(draw: u64) -> f64 {
        match draw % 8 {
            0 => NOT_A_NUMBER,
            1 => INFINITY,
            2 => -INFINITY,
            3 => -0.0,
            _ => f64::of_bits(draw),
        }
    }
}

const INFINITY: f64 = 1.0 / 0.0;

const NOT_A_NUMBER: f64 = 0.0 / 0.0;

// The double of these bits, where it is not finite.
fn not_finite(n: u64) -> f64 {
    match n {
        0x7ff0_0000_0000_0000 => INFINITY,
        0xfff0_0000_0000_0000 => -INFINITY,
        _ => NOT_A_NUMBER,
    }
}

// An entry is a number's last 16 bits.
impl Slot for Entry {
    fn bits(self) -> u64 {
        u64::from(self)
    }

    fn of_bits(n: u64) -> Entry {
        (n % 65536) as u16
    }

    fn garbage(draw: u64) -> Entry {
        u16::of_bits(draw)
    }
}

impl Slot for usize {
    fn bits(self) -> u64 {
        self as u64
    }

    fn of_bits(n: u64) -> usize {
        n as usize
    }

    fn garbage(draw: u64) -> usize {
        draw as usize
    }
}

impl Slot for u64 {
    fn bits(self) -> u64 {
        self
    }

    fn of_bits(n: u64) -> u64 {
        n
    }

    fn garbage(draw: u64) -> u64 {
        draw
    }
}

// A byte is a number's last 8 bits.
impl Slot for u8 {
    fn bits(self) -> u64 {
        u64::from(self)
    }

    fn of_bits(n: u64) -> u8 {
        (n % 256) as u8
    }

    fn garbage(draw: u64) -> u8 {
        u8::of_bits(draw)
    }
}
