// The text of a reply to a job's bytes (document 01, "The printed plan").
ghost use Rattle.std.specs.Prelude.{◌+◌, ◌*◌, ◌≤◌, ◌≡◌, length};
ghost use Rattle.job.specs.Jobs.{read_job};
ghost use Rattle.filling.specs.Rooms.{Lent};
ghost use Rattle.nesting.specs.Text.{printed_for};
ghost use Rattle.lines.specs.inner.Writing.{Put};

use filling::{Plan, Refusal};
use lines::Text;

// The text of a reply, in a buffer with room for 589,824 bytes more. Only crates of ours call it.
pub fn print_reply(
    bytes: &[u8],
    verdict: Result<(), Refusal>,
    plan: Plan,
    positions: &[f64],
    out: &mut Text,
)
    requires { (plan.placed ≤ 4096) × (6 * plan.placed ≤ length positions.now) × (out.old.end + 589824 ≤ length out.old.out.now) }
    ensures { (out.new.end ≤ out.old.end + 589824) × ((l : Lent) → l.positions ≡ positions.now
        → Put out.old (printed_for (read_job bytes.now) (record { verdict = verdict; plan = plan; lent = l })) out.new) }
{
    let j = job::read(bytes);
    match j.answer {
        Ok((h, _, _)) => {
            crate::reply_text(out, verdict, &j.rows, h.kinds as usize, positions, &plan);
        }
        Err(k) => crate::refusal_text(out, Refusal::Job(k)),
    }
}
