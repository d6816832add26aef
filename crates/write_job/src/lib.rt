// The writer of jobs (document 02, W9): a job as tables in, its bytes out. The functions with a
// `requires` are called by this project's crates alone.
#![tactic(auto)]

ghost use Rattle.std.specs.Prelude.{◌≡◌, ℕ, ◌+◌, ◌*◌, ◌≤◌, ◌<◌, List, length, take, Float};
ghost use Rattle.bits.specs.Reading as reading;
ghost use Rattle.kinds.specs.sets.Sets.{Set, a_set};
ghost use Rattle.frames.specs.Frames.{framed};
ghost use Rattle.job.specs.Jobs.{width_of};
ghost use Rattle.job_bits.specs.JobBits.{frame_bits, version_bits, front_bits, header_bits};
ghost use Rattle.job_bits.specs.Given.{ok, version_fits, given_frame, given_version, given_front, given_header, given_set, given_fields, given_job};
ghost use Rattle.set_writer.specs.inner.Walks.{Walks, Near, Ready};
ghost use Rattle.job_bits.specs.Replies.{or_zeros};
ghost use Rattle.write_job.specs.Written.{written};
ghost use Rattle.write_job.specs.inner.PutJob.{value_of, PutJob};

use bit_writer::BitWriter;
use bits::Refusal;
use frames::Frame;
use job::Header;
use job_bits::JobError;
use set_writer::Walk;

// Whether a header's version is one that it may have: 2, or 1 with the frame that it means.
fn version_fits(h: Header) -> bool
    ensures { result ≡ version_fits h }
{
    if h.version == 1 {
        h.corner == 0 && h.axis == 1
    } else {
        h.version == 2
    }
}

// The frame of version 2.
fn put_frame(out: &mut [u8], w: Walk, h: Header) -> Result<Walk, Refusal>
    requires { Ready w 0 0 3 }
    ensures { ((cs : List ℕ) (xs : List Float) → Walks (given_frame h cs xs w.counts w.coordinates) (λ _. frame_bits h) w out.old result
        out.new)
        × Near w result 0 0 3 }
{
    if 4 <= h.corner {
        return Err(Refusal::CountOutOfRange);
    }
    let p = bit_writer::put(out, w.writer, h.corner, 2);
    if 2 <= h.axis {
        return Err(Refusal::CountOutOfRange);
    }
    let writer = bit_writer::put(out, p, h.axis, 1);
    Ok(Walk { writer, ..w })
}

// The version, and the frame where it is 2.
fn put_version(out: &mut [u8], w: Walk, h: Header) -> Result<Walk, Refusal>
    requires { Ready w 0 0 7 }
    ensures { ((cs : List ℕ) (xs : List Float) → Walks (given_version h cs xs w.counts w.coordinates) (λ _. version_bits h) w out.old result
        out.new)
        × Near w result 0 0 7 }
{
    if !version_fits(h) {
        return Err(Refusal::UnknownVersion);
    }
    let writer = bit_writer::put(out, w.writer, h.version, 4);
    let u = Walk { writer, ..w };
    if h.version == 1 {
        return Ok(u);
    }
    put_frame(out, u, h)
}

// The header's fields after the frame.
fn put_front(out: &mut [u8], w: Walk, h: Header) -> Result<Walk, Refusal>
    requires { Ready w 0 0 147 }
    ensures { ((cs : List ℕ) (xs : List Float) → Walks (given_front h cs xs w.counts w.coordinates) front_bits w out.old result
        out.new)
        × Near w result 0 0 147 }
{
    let kinds = bits::judge_count(h.kinds, 1, 64)?;
    let p = bit_writer::put(out, w.writer, kinds, 7);
    if 4096 <= h.rounds {
        return Err(Refusal::CountOutOfRange);
    }
    let p = bit_writer::put(out, p, h.rounds, 12);
    let p = bit_writer::put(out, p, h.seed, 64);
    let resolution = bits::judge_number(numbers::bits_of(h.resolution), 0.001, 10000.0)?;
    let writer = bit_writer::put(out, p, numbers::bits_of(resolution), 64);
    Ok(Walk { writer, ..w })
}

// The header.
fn put_header(out: &mut [u8], w: Walk, h: Header) -> Result<Walk, Refusal>
    requires { Ready w 0 0 154 }
    ensures { ((cs : List ℕ) (xs : List Float) → Walks (given_header h cs xs w.counts w.coordinates) header_bits w out.old result
        out.new)
        × Near w result 0 0 154 }
{
    let u = put_version(out, w, h)?;
    put_front(out, u, h)
}

// The double of a number as the reader has it.
fn value(x: f64) -> f64
    ensures { result ≡ value_of x }
{
    numbers::from_bits(numbers::bits_of(x)).unwrap_or(f64::NAN)
}

// The width in the frame of the set that the first n bytes begin with, if they do.
fn width_in(f: Frame, bytes: &[u8], n: usize) -> f64
    requires { n ≤ length bytes.now }
    ensures { (s : Set) (q : ℕ) → a_set (take n bytes.now) 0 ≡ reading.ok s q → result ≡ width_of (framed f s) }
{
    let mut room = [0.0; 1024];
    let mut ends = [0usize; 64];
    match frames::read_set(f, &bytes[..n], 0, &mut room, &mut ends) {
        Ok((_, m, _)) => job::width_of(&room, m),
        Err(_) => 0.0,
    }
}

// The width in the frame of the sheet that the tables begin with, if they do: it is written, and measured as it is read.
fn sheet_width(f: Frame, counts: &[u64], coordinates: &[f64]) -> f64
    ensures { (s : Set) (c x : ℕ) → given_set counts.now coordinates.now 0 0 ≡ ok s c x → result ≡ width_of (framed f s) }
{
    let mut bytes = [0u8; 8273];
    let w = Walk {
        counts: 0,
        coordinates: 0,
        writer: bit_writer::new_writer(),
    };
    match set_writer::put_set(counts, coordinates, &mut bytes, w) {
        Ok(v) => {
            let n = bit_writer::finish(&mut bytes, v.writer);
            width_in(f, &bytes, n)
        }
        Err(_) => 0.0,
    }
}

// The fields of a job.
fn put_fields(
    h: Header,
    rows: &[u64],
    areas: &[f64],
    counts: &[u64],
    coordinates: &[f64],
    out: &mut [u8],
) -> Result<(BitWriter, u64), Refusal>
    ensures { PutJob
        (given_fields h rows.now areas.now counts.now coordinates.now 0 0)
        h counts.now coordinates.now out.old result out.new }
{
    let w = Walk {
        counts: 0,
        coordinates: 0,
        writer: bit_writer::new_writer(),
    };
    let u = put_header(out, w, h)?;
    let v = set_writer::put_set(counts, coordinates, out, u)?;
    let n = h.kinds as usize;
    let (z, copies) = kind_writer::put_kinds(rows, areas, counts, coordinates, out, v, n, 0)?;
    Ok((z.writer, copies))
}

// The bytes of the job that the tables are, or why it is refused. Zeros stand behind the bytes.
fn put_job(
    header: Header,
    rows: &[u64],
    areas: &[f64],
    counts: &[u64],
    coordinates: &[f64],
    out: &mut [u8],
) -> Result<usize, JobError>
    ensures { record { reply = result; out = or_zeros 0 result out.new } ≡ written
        (given_job header rows.now areas.now counts.now coordinates.now) (length out.old) }
{
    let (p, copies) = put_fields(header, rows, areas, counts, coordinates, out)?;
    if 4096 < copies {
        return Err(JobError::Refused(Refusal::TooManyCopies));
    }
    let width = sheet_width(job::frame_of(header), counts, coordinates);
    if 1000000.0 < width / value(header.resolution) {
        return Err(JobError::Refused(Refusal::TooManyColumns));
    }
    let n = bit_writer::finish(out, p);
    if n <= out.len() {
        Ok(n)
    } else {
        Err(JobError::ShortRoom)
    }
}

// The number of bytes of the job that the tables are, in the room with zeros behind them; or why it is refused, and zeros.
pub fn write_job(
    header: Header,
    rows: &[u64],
    areas: &[f64],
    counts: &[u64],
    coordinates: &[f64],
    out: &mut [u8],
) -> Result<usize, JobError>
    ensures { record { reply = result; out = out.new } ≡ written
        (given_job header rows.now areas.now counts.now coordinates.now) (length out.old) }
{
    let reply = put_job(header, rows, areas, counts, coordinates, out);
    if reply.is_err() {
        out.fill(0);
    }
    reply
}
