// A layout's list as text (document 02, W6: "as `put` gives them"): `put` lines as `plan` prints
// them, and a job's bytes right after the last one.
#![tactic(auto)]

ghost use Rattle.std.specs.Prelude.{◌+◌, ◌*◌, ◌^◌, ◌≤◌, ◌≡◌, ◌&&◌, length, leb, eqb};
ghost use Rattle.put_lines.specs.PutLines.{byte_at, digit_of, digits_from, field_after, decimal_after, hex_after, line_from, begins};
ghost use Rattle.put_lines.specs.inner.Storing.{list_in, Stored};

// A number as far as its digits are read, and where they end.
#[derive(Clone, Copy)]
pub struct Digits {
    pub value: u64,
    pub end: usize,
}

// A field's number, where the next field begins, and whether all is so written up to there.
#[derive(Clone, Copy)]
pub struct Field {
    pub value: u64,
    pub next: usize,
    pub good: bool,
}

// What is used of a line, where the next line begins, and whether it is so written.
#[derive(Clone, Copy)]
pub struct Line {
    pub kind: u64,
    pub orientation: u64,
    pub x: u64,
    pub y: u64,
    pub next: usize,
    pub good: bool,
}

// Why a list's text is refused: the number of the line that is not so written, counted from 0, or more
// lines than the room has.
#[derive(Clone, Copy, Debug, PartialEq, Eq)]
pub enum ListError {
    Malformed(usize),
    TooMany,
}

// The byte at p, 256 past the end.
fn byte_at(bytes: &[u8], p: usize) -> u64
    ensures { result ≡ byte_at bytes.now p }
{
    match bytes.get(p) {
        Some(b) => u64::from(*b),
        None => 256,
    }
}

// Whether the byte b stands at p.
fn stands_at(bytes: &[u8], p: usize, b: u64) -> bool
    ensures { result ≡ eqb (byte_at bytes.now p) b }
{
    byte_at(bytes, p) == b
}

// A digit's value, 16 for any other byte.
fn digit_of(b: u64) -> u64
    ensures { result ≡ digit_of b }
{
    match b {
        48..=57 => b - 48,
        97..=102 => b - 87,
        _ => 16,
    }
}

// The digits from p on, so many at most.
fn digits_from(bytes: &[u8], base: u64, most: usize, p: usize) -> Digits
    requires { (p + most ≤ 18446744073709551615) × (base ^ most ≤ 2 ^ 64) }
    ensures { result ≡ digits_from bytes.now base most p 0 }
{
    let mut value: u64 = 0;
    for end in p..p + most {
        let d = digit_of(byte_at(bytes, end));
        if base <= d {
            return Digits { value, end };
        }
        value = base * value + d;
    }
    Digits {
        value,
        end: p + most,
    }
}

// Whether all is so written up to the end of a field: it was before, its digits from p to end are
// enough, and the byte b stands after them.
fn written(bytes: &[u8], before: bool, p: usize, least: usize, end: usize, b: u64) -> bool
    requires { p + least ≤ 18446744073709551615 }
    ensures { result ≡ (before && (leb (p + least) end && eqb (byte_at bytes.now end) b)) }
{
    before && p + least <= end && stands_at(bytes, end, b)
}

// The field after f: least to most digits, and then the byte b.
fn field_after(bytes: &[u8], base: u64, least: usize, most: usize, b: u64, f: Field) -> Field
    requires { (f.next ≤ 9223372036854776832) × (least ≤ 19) × (most ≤ 19) × (base ^ most ≤ 2 ^ 64) }
    ensures { result ≡ field_after bytes.now base least most b f }
{
    let d = digits_from(bytes, base, most, f.next);
    Field {
        value: d.value,
        next: d.end + 1,
        good: written(bytes, f.good, f.next, least, d.end, b),
    }
}

// A decimal number of 1 to 19 digits, and a blank.
fn decimal_after(bytes: &[u8], f: Field) -> Field
    requires { f.next ≤ 9223372036854776832 }
    ensures { result ≡ decimal_after bytes.now f }
{
    field_after(bytes, 10, 1, 19, 32, f)
}

// 16 hex digits, and the byte b.
fn hex_after(bytes: &[u8], b: u64, f: Field) -> Field
    requires { f.next ≤ 9223372036854776832 }
    ensures { result ≡ hex_after bytes.now b f }
{
    field_after(bytes, 16, 16, 16, b, f)
}

// The line whose fields begin at p.
fn line_from(bytes: &[u8], p: usize) -> Line
    requires { p ≤ 9223372036854775812 }
    ensures { result ≡ line_from bytes.now p }
{
    let begin = Field {
        value: 0,
        next: p,
        good: true,
    };
    let kind = decimal_after(bytes, begin);
    let copy = decimal_after(bytes, kind);
    let orientation = decimal_after(bytes, copy);
    let x = hex_after(bytes, 32, orientation);
    let y = hex_after(bytes, 32, x);
    let gap = hex_after(bytes, 10, y);
    Line {
        kind: kind.value,
        orientation: orientation.value,
        x: x.value,
        y: y.value,
        next: gap.next,
        good: gap.good,
    }
}

// Whether a line begins at p.
fn begins(bytes: &[u8], p: usize) -> bool
    requires { p ≤ 9223372036854775808 }
    ensures { result ≡ begins bytes.now p }
{
    stands_at(bytes, p, 112)
        && stands_at(bytes, p + 1, 117)
        && stands_at(bytes, p + 2, 116)
        && stands_at(bytes, p + 3, 32)
}

// The numbers of a line, in the room's place n.
fn store_line(numbers: &mut [u64], n: usize, l: Line)
    requires { 4 * n + 4 ≤ length numbers.old }
    ensures { Stored numbers.old n l numbers.new }
{
    numbers[4 * n..4 * n + 4].copy_from_slice(&[l.kind, l.orientation, l.x, l.y]);
}

// The list that the text begins with: how many lines, and where the job begins; the lines' numbers, kind,
// orientation and the bits of x and y, at the room's beginning. A room holds the whole lines that fit.
pub fn read(bytes: &[u8], numbers: &mut [u64]) -> Result<(usize, usize), ListError>
    ensures { record { found = result; numbers = numbers.new } ≡ list_in bytes.now numbers.old }
{
    let most = numbers.len() / 4;
    let mut at = 0;
    for n in 0..most {
        if !begins(bytes, at) {
            return Ok((n, at));
        }
        let l = line_from(bytes, at + 4);
        if !l.good {
            return Err(ListError::Malformed(n));
        }
        store_line(numbers, n, l);
        at = l.next;
    }
    if begins(bytes, at) {
        return Err(ListError::TooMany);
    }
    Ok((most, at))
}
