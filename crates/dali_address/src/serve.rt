ghost use Rattle.std.specs.Prelude.{ℕ};
ghost use Rattle.dali_address.specs.Units.{Three};
ghost use Rattle.dali_address.specs.Keeps.{Rests};
ghost use Rattle.dali_address.specs.Runs.{HasRun};
ghost use Rattle.dali_address.specs.Tasks.{LeavesAddressed};

use crate::addressing::Addressing;
use crate::bus::AddressDesk;
use crate::task::{Summary, Task, Want};

/// Carries a run over a bus to its end: its summary, or the short address that was asked for and is taken.
///
/// Whatever is lost: each line is true when it is reported. If no unit that has a short address is brought into the
/// initialisation state, one that has a short address and isn't in that state keeps its addresses.
pub fn serve_addressing<B: AddressDesk>(
    bus: &mut B,
    task: Task,
    units: &[u8],
) -> Result<Summary, u8>
    ensures ran { HasRun task (B.units bus.old) result (B.units bus.new) }
    ensures stay { LeavesAddressed task → (short : ℕ) (random : Three) (number : ℕ)
        → Rests short random number (B.units bus.old) → Rests short random number (B.units bus.new) }
{
    let mut run = Addressing::new(task, units);
    loop {
        match run.want() {
            Want::Send(call) => {
                let answer = bus.carry(&call);
                run.heard(answer);
            }
            Want::Tell(line) => {
                bus.tell(&line);
                run.said();
            }
            Want::Ended(summary) => return Ok(summary),
            Want::Taken(short) => return Err(short),
        }
    }
}
