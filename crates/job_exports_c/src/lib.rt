// The exports of job_exports for C and Rust (`tools/build.sh job_exports`, include/panel.h): each calls the
// library's function and states its clauses again.
#![tactic(auto)]

ghost use Rattle.std.specs.Prelude.{◌≡◌};
ghost use Rattle.job.specs.Jobs.{read_job};
ghost use Rattle.job_bits.specs.Given.{given_job};
ghost use Rattle.write_job.specs.Written.{written};
ghost use Rattle.read_tables.specs.Tabled.{tabled};
ghost use Rattle.job_exports.specs.JobTold.{header_of, told_tables, told_job};
ghost use Rattle.std.proofs.Math.ListN as list;

// The number of the refusal, or 0; the job's tables lie in their rooms, its header's numbers in theirs.
#[unsafe(no_mangle)]
pub extern "C" fn panel_tables(
    bytes: &[u8],
    header: &mut [u64],
    resolution: &mut [f64],
    rows: &mut [u64],
    areas: &mut [f64],
    counts: &mut [u64],
    coordinates: &mut [f64],
) -> u64
    ensures { record {
      number = result;
      header = header.new;
      resolution = resolution.new;
      rows = rows.new;
      areas = areas.new;
      counts = counts.new;
      coordinates = coordinates.new;
    }
        ≡ told_tables header.old resolution.old
        (tabled (read_job bytes.now) (list.length rows.old) (list.length areas.old) (list.length counts.old)
        (list.length coordinates.old)) }
{
    job_exports::panel_tables(bytes, header, resolution, rows, areas, counts, coordinates)
}

// The number of the refusal, or 0; the job's bytes lie in the room, their number in the first place of `length`.
#[unsafe(no_mangle)]
pub extern "C" fn panel_write(
    header: &[u64],
    resolution: f64,
    rows: &[u64],
    areas: &[f64],
    counts: &[u64],
    coordinates: &[f64],
    out: &mut [u8],
    length: &mut [u64],
) -> u64
    ensures { record { number = result; out = out.new; length = length.new }
        ≡ told_job length.old (written
        (given_job (header_of header.now resolution) rows.now areas.now counts.now coordinates.now)
        (list.length out.old)) }
{
    job_exports::panel_write(
        header,
        resolution,
        rows,
        areas,
        counts,
        coordinates,
        out,
        length,
    )
}
