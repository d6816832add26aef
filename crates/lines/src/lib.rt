// The lines of the printed plan (document 01, "The printed plan") as bytes in a lent buffer. Only crates of
// ours write them: the buffer must be long enough.
#![tactic(auto)]

ghost use Rattle.std.specs.Prelude.{◌+◌, ◌*◌, ◌≤◌, ◌<◌, ◌≡◌, [], ◌∷◌, ◌++◌, length, map};
ghost use Rattle.nesting.specs.Text.{decimal, hex_digit, hex_up_to, hex, line};
ghost use Rattle.lines.specs.inner.Writing.{Put, fields, Finished};

// A text in a buffer, as far as it is written.
pub struct Text<'a> {
    out: &'a mut [u8],
    end: usize,
}

impl<'a> Text<'a> {
    // A text of no bytes.
    pub fn new(out: &'a mut [u8]) -> Text<'a>
        ensures { (result.out.ghost_name ≡ out.entry.ghost_name) × (result.out.now ≡ out.old) × (result.end ≡ 0) }
    {
        Text { out, end: 0 }
    }

    // Zeros after the text; where it ends.
    pub fn finish(self) -> usize
        requires { self.end ≤ length self.out.now }
        ensures { Finished self.entry.out.now self.entry.end self.exit.0.now result }
    {
        let Text { out, end } = self;
        out[end..].fill(0);
        end
    }

    fn byte(&mut self, b: u8)
        requires { self.old.end < length self.old.out.now }
        ensures { Put self.old (b ∷ []) self.new }
    {
        self.out[self.end] = b;
        self.end += 1;
    }

    fn word(&mut self, word: &[u8])
        requires { self.old.end + length word.now ≤ length self.old.out.now }
        ensures { Put self.old word.now self.new }
    {
        self.out[self.end..self.end + word.len()].copy_from_slice(word);
        self.end += word.len();
    }

    // A count, decimal.
    fn decimal(&mut self, n: usize)
        requires { self.old.end + length (decimal n) ≤ length self.old.out.now }
        ensures { Put self.old (decimal n) self.new }
    {
        if n < 10 {
            self.byte(b'0' + n as u8);
        } else {
            self.decimal(n / 10);
            self.byte(b'0' + (n % 10) as u8);
        }
    }

    // The last d hex digits of n.
    fn hex(&mut self, d: usize, n: u64)
        requires { self.old.end + d ≤ length self.old.out.now }
        ensures { Put self.old (hex_up_to d n) self.new }
    {
        if d > 0 {
            self.hex(d - 1, n / 16);
            self.byte(hex_digit(n % 16));
        }
    }

    // A line: a word, counts, and doubles by their 16 hex digits, a blank before each number.
    pub fn line(&mut self, word: &[u8], counts: &[usize], doubles: &[f64])
        requires { self.old.end + length word.now + 21 * length counts.now + 17 * length doubles.now < length self.old.out.now }
        ensures { Put self.old (line word.now (map decimal counts.now ++ map hex doubles.now)) self.new }
    {
        self.word(word);
        self.counts(counts);
        self.doubles(doubles);
        self.byte(b'\n');
    }

    fn counts(&mut self, counts: &[usize])
        requires { self.old.end + 21 * length counts.now ≤ length self.old.out.now }
        ensures { Put self.old (fields (map decimal counts.now)) self.new }
    {
        for n in counts {
            self.byte(b' ');
            self.decimal(*n);
        }
    }

    fn doubles(&mut self, doubles: &[f64])
        requires { self.old.end + 17 * length doubles.now ≤ length self.old.out.now }
        ensures { Put self.old (fields (map hex doubles.now)) self.new }
    {
        for x in doubles {
            self.byte(b' ');
            self.hex(16, numbers::bits_of(*x));
        }
    }
}

// A hex digit, lower-case.
fn hex_digit(d: u64) -> u8
    requires { d < 16 }
    ensures { result ≡ hex_digit d }
{
    if d < 10 {
        return b'0' + d as u8;
    }
    b'a' - 10 + d as u8
}
