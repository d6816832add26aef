// The job (document 01, "The job's bits" and refusals 1 to 8): bytes in, a job or why it is refused
// out. A job's kinds lie in the tables of the crate kinds; its sets are read when they are needed.
#![tactic(auto)]

ghost use Rattle.std.specs.Prelude.{◌≡◌, ◌+◌, ◌*◌, ◌≤◌, ◌<◌, length};
ghost use Rattle.numbers.specs.Numbers.{◌⊖◌};
ghost use Rattle.job.specs.Jobs.{frame_of, after_frame, a_header, ended, left, right, judge_end, read_job, verdict_of};
ghost use Rattle.job.specs.inner.Meaning.{header_read, framed_header, job_read, header_fits};

use bits::Refusal;
use frames::Frame;

// What stands before the sheet; start corner and fill axis by their numbers (see Frame).
#[derive(Clone, Copy)]
pub struct Header {
    pub version: u64,
    pub corner: u64,
    pub axis: u64,
    pub kinds: u64,
    pub rounds: u64,
    pub seed: u64,
    pub resolution: f64,
}

// The frame that a job is planned in.
pub fn frame_of(h: Header) -> Frame
    ensures { result ≡ frame_of h }
{
    Frame {
        corner: h.corner,
        axis: h.axis,
    }
}

fn read_header(bytes: &[u8]) -> Result<(Header, usize), Refusal>
    ensures { (a_header bytes.now 0 ≡ header_read result) × header_fits result }
{
    let version = bits::read_field(bytes, 0, 4)?;
    match version {
        1 => read_front(bytes, 4, version, 0, 1),
        2 => read_framed(bytes),
        _ => Err(Refusal::UnknownVersion),
    }
}

// The fields of version 2 after the version.
fn read_framed(bytes: &[u8]) -> Result<(Header, usize), Refusal>
    ensures { (framed_header 2 bytes.now 4 ≡ header_read result) × header_fits result }
{
    let corner = bits::read_field(bytes, 4, 2)?;
    let axis = bits::read_field(bytes, 6, 1)?;
    read_front(bytes, 7, 2, corner, axis)
}

// The header's fields after the frame.
fn read_front(
    bytes: &[u8],
    at: usize,
    version: u64,
    corner: u64,
    axis: u64,
) -> Result<(Header, usize), Refusal>
    requires { at ≤ 7 }
    ensures { (after_frame version (record { corner = corner; axis = axis }) bytes.now at ≡ header_read result) × header_fits result }
{
    let kinds = bits::read_count(bytes, at, 7, 1, 64)?;
    let at_rounds = at + 7;
    let rounds = bits::read_field(bytes, at_rounds, 12)?;
    let at_seed = at_rounds + 12;
    let seed = bits::read_field(bytes, at_seed, 64)?;
    let at_resolution = at_seed + 64;
    let resolution = bits::read_number(bytes, at_resolution, 0.001, 10000.0)?;
    let header = Header {
        version,
        corner,
        axis,
        kinds,
        rounds,
        seed,
        resolution,
    };
    Ok((header, at_resolution + 64))
}

// Whether only zero bits, fewer than eight, lie from the position p on.
fn fills_last_byte(bytes: &[u8], p: usize) -> bool
    requires { p ≤ 1000000000 }
    ensures { result ≡ ended bytes.now p }
{
    let k = (p + 7) / 8;
    if k < bytes.len() {
        return false;
    }
    if bytes.len() < k {
        return true;
    }
    match bits::read_field(bytes, p, 8 * k - p) {
        Ok(b) => b == 0,
        Err(_) => false,
    }
}

// The width of the first n points: from their smallest x to their largest.
pub fn width_of(room: &[f64], n: usize) -> f64
    requires { (1024 ≤ length room.now) × (n ≤ 512) }
    ensures { result ≡ right room.now n ⊖ left room.now n }
{
    let mut left = f64::INFINITY;
    let mut right = f64::NEG_INFINITY;
    for i in 0..n {
        let x = room[2 * i];
        left = numbers::smaller(left, x);
        right = numbers::larger(right, x);
    }
    right - left
}

fn judge_end(
    bytes: &[u8],
    p: usize,
    copies: u64,
    width: f64,
    resolution: f64,
) -> Result<(), Refusal>
    requires { p ≤ 1000000000 }
    ensures { result ≡ judge_end bytes.now p copies width resolution }
{
    if !fills_last_byte(bytes, p) {
        return Err(Refusal::TrailingData);
    }
    if 4096 < copies {
        return Err(Refusal::TooManyCopies);
    }
    if 1000000.0 < width / resolution {
        return Err(Refusal::TooManyColumns);
    }
    Ok(())
}

// The job that the bytes are, its kinds in the tables; or why it is refused. The rooms take each set
// in turn.
fn read_job(
    bytes: &[u8],
    rows: &mut [u64],
    areas: &mut [f64],
    places: &mut [u32],
    room: &mut [f64],
    ends: &mut [usize],
) -> Result<(Header, u32, u64), Refusal>
    requires { (256 ≤ length rows.old) × (64 ≤ length areas.old) × (2048 ≤ length places.old) × (1024 ≤ length room.old)
        × (64 ≤ length ends.old) }
    ensures { read_job bytes.now ≡ job_read result bytes.now rows.new areas.new places.new }
{
    let (h, at) = read_header(bytes)?;
    let sheet = at as u32;
    let (_, m, q) = frames::read_set(frame_of(h), bytes, sheet, room, ends)?;
    let width = width_of(room, m);
    let n = h.kinds as usize;
    let (copies, p) = kinds::read_kinds(bytes, q, n, rows, areas, places, room, ends)?;
    judge_end(bytes, p, copies, width, h.resolution)?;
    Ok((h, sheet, copies))
}

// A job as it was read: its answer and its tables.
#[derive(Clone, Copy)]
pub struct ReadJob {
    pub answer: Result<(Header, u32, u64), Refusal>,
    pub rows: [u64; 256],
    pub areas: [f64; 64],
    pub places: [u32; 2048],
}

// The job that the bytes are, its kinds in the tables; or why it is refused.
pub fn read(bytes: &[u8]) -> ReadJob
    ensures { (read_job bytes.now ≡ job_read result.answer bytes.now result.rows result.areas result.places)
        × (length result.rows ≡ 256) × (length result.areas ≡ 64) × (length result.places ≡ 2048) }
{
    let mut rows = [0u64; 256];
    let mut areas = [0.0; 64];
    let mut places = [0u32; 2048];
    let mut room = [0.0; 1024];
    let mut ends = [0usize; 64];
    let answer = read_job(
        bytes,
        &mut rows,
        &mut areas,
        &mut places,
        &mut room,
        &mut ends,
    );
    ReadJob {
        answer,
        rows,
        areas,
        places,
    }
}

// Whether the bytes are a job.
pub fn judge(bytes: &[u8]) -> Result<(Header, u64), Refusal>
    ensures { result ≡ verdict_of (read_job bytes.now) }
{
    let (h, _, copies) = read(bytes).answer?;
    Ok((h, copies))
}
