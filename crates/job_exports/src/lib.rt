// What C and Rust may link (by job_exports_c, include/panel.h) to edit jobs, under plain names: a
// job's bytes to its tables, and back (document 02, W9). Names, arguments and numbers are those of include/panel.h.
#![tactic(auto)]

ghost use Rattle.std.specs.Prelude.{◌≡◌, [], ◌∷◌, set};
ghost use Rattle.std.proofs.Math.ListN as list;
ghost use Rattle.std.proofs.lemmas.List.Edits.{sets};
ghost use Rattle.job.specs.Jobs.{read_job};
ghost use Rattle.job_bits.specs.Given.{given_job};
ghost use Rattle.write_job.specs.Written.{written};
ghost use Rattle.read_tables.specs.Tabled.{tabled};
ghost use Rattle.job_exports.specs.JobTold.{header_of, told_header, told_resolution, told_tables, told_job};

use job::Header;
use job_bits::JobError;
use set_writer::value_at;

// The header's numbers, how many counts and how many coordinates there are, as far as the room goes: one store to a
// place, as a lent room may end after any of them.
fn store_header(room: &mut [u64], h: Header, counts: u64, coordinates: u64)
    ensures { room.new ≡ sets room.old 0
        (h.version ∷ h.corner ∷ h.axis ∷ h.kinds ∷ h.rounds ∷ h.seed ∷ counts ∷ coordinates ∷ []) }
{
    bit_writer::store(room, 0, h.version);
    bit_writer::store(room, 1, h.corner);
    bit_writer::store(room, 2, h.axis);
    bit_writer::store(room, 3, h.kinds);
    bit_writer::store(room, 4, h.rounds);
    bit_writer::store(room, 5, h.seed);
    bit_writer::store(room, 6, counts);
    bit_writer::store(room, 7, coordinates);
}

// The numbers of tables that were read; none of a refusal.
fn tell_header(room: &mut [u64], r: Result<(Header, usize, usize), JobError>)
    ensures { room.new ≡ told_header r room.old }
{
    if let Ok((h, counts, coordinates)) = r {
        store_header(room, h, counts as u64, coordinates as u64);
    }
}

// Their resolution, in the first place, where there is one.
fn tell_resolution(room: &mut [f64], r: Result<(Header, usize, usize), JobError>)
    ensures { room.new ≡ told_resolution r room.old }
{
    if let Ok((h, _, _)) = r {
        bit_writer::store(room, 0, h.resolution);
    }
}

// The number of the refusal, or 0; the job's tables lie in their rooms, its header's numbers in theirs.
#[unsafe(no_mangle)]
pub extern "C" fn panel_tables(
    bytes: &[u8],
    header: &mut [u64],
    resolution: &mut [f64],
    rows: &mut [u64],
    areas: &mut [f64],
    counts: &mut [u64],
    coordinates: &mut [f64],
) -> u64
    ensures { record {
      number = result;
      header = header.new;
      resolution = resolution.new;
      rows = rows.new;
      areas = areas.new;
      counts = counts.new;
      coordinates = coordinates.new;
    }
        ≡ told_tables header.old resolution.old
        (tabled (read_job bytes.now) (list.length rows.old) (list.length areas.old) (list.length counts.old)
        (list.length coordinates.old)) }
{
    let r = read_tables::read_tables(bytes, rows, areas, counts, coordinates);
    tell_header(header, r);
    tell_resolution(resolution, r);
    job_bits::reply_number(r)
}

// The header of six numbers and a resolution; a number that is missing is 0.
fn header_of(numbers: &[u64], resolution: f64) -> Header
    ensures { result ≡ header_of numbers.now resolution }
{
    Header {
        version: value_at(numbers, 0, 0),
        corner: value_at(numbers, 1, 0),
        axis: value_at(numbers, 2, 0),
        kinds: value_at(numbers, 3, 0),
        rounds: value_at(numbers, 4, 0),
        seed: value_at(numbers, 5, 0),
        resolution,
    }
}

// The number of the refusal, or 0; the job's bytes lie in the room, their number in the first place of `length`.
#[unsafe(no_mangle)]
pub extern "C" fn panel_write(
    header: &[u64],
    resolution: f64,
    rows: &[u64],
    areas: &[f64],
    counts: &[u64],
    coordinates: &[f64],
    out: &mut [u8],
    length: &mut [u64],
) -> u64
    ensures { record { number = result; out = out.new; length = length.new }
        ≡ told_job length.old (written
        (given_job (header_of header.now resolution) rows.now areas.now counts.now coordinates.now)
        (list.length out.old)) }
{
    let r = write_job::write_job(
        header_of(header, resolution),
        rows,
        areas,
        counts,
        coordinates,
        out,
    );
    bit_writer::store(length, 0, r.unwrap_or(0) as u64);
    job_bits::reply_number(r)
}
