// The lent run: the records of a step that is taken, which are plain WRITEs' or those of WRITEs and FILLs.
#![tactic(auto)]

ghost use Rattle.std.specs.Prelude.{◌≡◌};
ghost use Rattle.play_store_fast.specs.Stored.{step_stored};

use base_format::WriteRecord;
use play_fast_step::{Step, StepWrites};
use play_store_fill::store_fills;
use play_store_plain::store_writes;

// The records stand at the run's front; no other record is touched.
#[tactic(auto, unfolding(crate::specs::Stored::step_stored))]
pub fn store_step(run: &mut [WriteRecord], file: &[u8], version: u8, step: Step)
    ensures { run.new ≡ step_stored file.now version step run.old }
{
    match step.writes {
        StepWrites::Plain(count) => store_writes(run, file, version, step.from, count),
        StepWrites::Fills { made, count } => {
            store_fills(run, file, version, step.from, made, count)
        }
    }
}
