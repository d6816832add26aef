// Fields of a job (document 01, "The job's bits"): bits of a byte slice, and the counts, doubles
// and points that they stand for, each judged as it is read. The functions with a `requires` are
// called by this project's crates alone.
#![tactic(auto)]

ghost use Rattle.std.specs.Prelude.{◌≡◌, List, ℕ, ◌+◌, ◌*◌, ◌/◌, ◌%◌, ◌^◌, ◌≤◌, ◌<◌, length};
ghost use Rattle.bits.specs.Bits.{field_at};
ghost use Rattle.bits.specs.Reading.{job_refusal_number, bits};
ghost use Rattle.bits.specs.inner.Answers.{past, point_read, count_of, taken};
ghost use Rattle.bits.specs.Fields.{judge_count, judge_points, counted, count, point_count, coordinate_range, judge_number, measured, number, point};

// Why a job is refused: document 01's numbers 1 to 8, in this order.
#[derive(Clone, Copy, Debug, PartialEq, Eq)]
pub enum Refusal {
    Truncated,
    TrailingData,
    UnknownVersion,
    NonFinite,
    OutOfRange,
    CountOutOfRange,
    TooManyCopies,
    TooManyColumns,
}

// Document 01's number of a refusal; in one table, as its contract gives it.
pub fn refusal_number(k: Refusal) -> u64
    ensures { result ≡ job_refusal_number k }
{
    match k {
        Refusal::Truncated => 1,
        Refusal::TrailingData => 2,
        Refusal::UnknownVersion => 3,
        Refusal::NonFinite => 4,
        Refusal::OutOfRange => 5,
        Refusal::CountOutOfRange => 6,
        Refusal::TooManyCopies => 7,
        Refusal::TooManyColumns => 8,
    }
}

// The bits acc, and after them the k bits of b that lie above its e lowest.
fn joined(acc: u64, b: u64, k: usize, e: usize) -> u64
    requires { (k ≤ 8) × (e ≤ 8) × ((acc + 1) * 2 ^ k ≤ 2 ^ 64) }
    ensures { result ≡ acc * 2 ^ k + b / 2 ^ e % 2 ^ k }
{
    (acc << k) + (b >> e) % (1u64 << k)
}

// The n bits at the bit position at, byte by byte: a turn takes from one to eight of them.
fn bits_at(bytes: &[u8], at: usize, n: usize) -> u64
    requires { (at + n ≤ 8 * length bytes.now) × (at ≤ 1152921504606846976) × (n ≤ 64) }
    ensures { result ≡ field_at bytes.now at n 0 }
{
    let mut acc: u64 = 0;
    let mut p = at;
    let mut left = n;
    while 0 < left {
        let o = p % 8;
        let i = p / 8;
        let k = left.min(8 - o);
        acc = joined(acc, u64::from(bytes[i]), k, 8 - o - k);
        p += k;
        left -= k;
    }
    acc
}

// The n bits at the bit position at, most significant first, or that the bytes end inside them.
#[tactic(auto, unfolding(crate::specs::Reading::bits))]
fn take_bits(bytes: &[u8], at: usize, n: usize) -> Option<u64>
    requires { (at ≤ 1152921504606846976) × (n ≤ 64) }
    ensures { bits n bytes.now at ≡ taken result (at + n) }
{
    if bytes.len() < (at + n + 7) / 8 {
        return None;
    }
    Some(bits_at(bytes, at, n))
}

// The bit reader: the job's bytes and a bit position.
#[derive(Drop)]
pub struct BitReader<'a> {
    bytes: &'a [u8],
    at: usize,
}

impl<'a> BitReader<'a> {
    pub fn new(bytes: &'a [u8], at: usize) -> BitReader<'a>
        ensures { (result.bytes ≡ bytes.entry) × (result.at ≡ at) }
    {
        BitReader { bytes, at }
    }

    // The n bits at the reader's position, or that its bytes end inside them. The reader moves on by n bits.
    pub fn take(&mut self, n: usize) -> Option<u64>
        requires { (self.old.at ≤ 1152921504606846976) × (n ≤ 64) }
        ensures { (self.new ≡ past n self.old) ×
            (bits n self.old.bytes.now self.old.at ≡ taken result self.new.at) }
    {
        let at = self.at;
        let found = take_bits(self.bytes, at, n);
        self.at = at + n;
        found
    }
}

// One field. A job's fields are read here, but for a point's, which `read_point` takes from one reader.
pub fn read_field(bytes: &[u8], at: usize, width: usize) -> Result<u64, Refusal>
    requires { (at ≤ 1152921504606846976) × (width ≤ 64) }
    ensures { bits width bytes.now at ≡ counted result (at + width) }
{
    let mut reader = BitReader::new(bytes, at);
    reader.take(width).ok_or(Refusal::Truncated)
}

// The count n, whose range is least to most.
#[tactic(auto, unfolding(crate::specs::Fields::judge_count))]
pub fn judge_count(n: u64, least: u64, most: u64) -> Result<u64, Refusal>
    ensures { result ≡ judge_count least most n }
{
    if least <= n && n <= most {
        Ok(n)
    } else {
        Err(Refusal::CountOutOfRange)
    }
}

// The count n of a loop's points, where its set has so many points before it.
#[tactic(auto, unfolding(crate::specs::Fields::judge_points, crate::specs::Fields::in_set, crate::specs::Fields::judge_count))]
pub fn judge_points(before: u64, n: u64) -> Result<u64, Refusal>
    requires { before ≤ 512 }
    ensures { result ≡ judge_points before n }
{
    let k = judge_count(n, 3, 512)?;
    if before + k <= 512 {
        Ok(k)
    } else {
        Err(Refusal::CountOutOfRange)
    }
}

// The double with the bits n, whose range is least to most.
#[tactic(auto, unfolding(crate::specs::Fields::judge_number, crate::specs::Fields::judge_double))]
pub fn judge_number(n: u64, least: f64, most: f64) -> Result<f64, Refusal>
    ensures { result ≡ judge_number least most n }
{
    let x = numbers::from_bits(n).ok_or(Refusal::NonFinite)?;
    if least <= x && x <= most {
        Ok(x)
    } else {
        Err(Refusal::OutOfRange)
    }
}

// The coordinate with the bits n.
pub fn judge_coordinate(n: u64) -> Result<f64, Refusal>
    ensures { result ≡ judge_number coordinate_range.least coordinate_range.most n }
{
    judge_number(n, -100000.0, 100000.0)
}

// A count of so many bits.
#[tactic(auto, unfolding(crate::specs::Fields::count, crate::specs::Reading::after, crate::specs::Fields::judge_count))]
pub fn read_count(
    bytes: &[u8],
    at: usize,
    width: usize,
    least: u64,
    most: u64,
) -> Result<u64, Refusal>
    requires { (at ≤ 1152921504606846976) × (width ≤ 64) }
    ensures { (count (record { width = width; least = least; most = most }) bytes.now at ≡ counted result (at + width)) × (count_of result ≤ most) }
{
    judge_count(read_field(bytes, at, width)?, least, most)
}

// The count of a loop's points, where its set has so many points before it.
#[tactic(auto, unfolding(crate::specs::Fields::point_count, crate::specs::Reading::after, crate::specs::Fields::judge_points, crate::specs::Fields::in_set))]
pub fn read_point_count(bytes: &[u8], at: usize, before: u64) -> Result<u64, Refusal>
    requires { (at ≤ 1152921504606846976) × (before ≤ 512) }
    ensures { (point_count before bytes.now at ≡ counted result (at + 10)) × (before + count_of result ≤ 512) }
{
    judge_points(before, read_field(bytes, at, 10)?)
}

// A double from least to most.
#[tactic(auto, unfolding(crate::specs::Fields::number, crate::specs::Reading::after))]
pub fn read_number(bytes: &[u8], at: usize, least: f64, most: f64) -> Result<f64, Refusal>
    requires { at ≤ 1152921504606846976 }
    ensures { number (record { least = least; most = most }) bytes.now at ≡ measured result (at + 64) }
{
    judge_number(read_field(bytes, at, 64)?, least, most)
}

// A point.
#[tactic(auto, unfolding(crate::specs::Fields::point, crate::specs::Fields::number, crate::specs::Reading::after))]
pub fn read_point(bytes: &[u8], at: usize) -> Result<(f64, f64, usize), Refusal>
    requires { at ≤ 1152921504606846000 }
    ensures { point bytes.now at ≡ point_read result }
{
    let mut reader = BitReader::new(bytes, at);
    let x = judge_coordinate(reader.take(64).ok_or(Refusal::Truncated)?)?;
    let y = judge_coordinate(reader.take(64).ok_or(Refusal::Truncated)?)?;
    Ok((x, y, reader.at))
}
