// One vsync call over the lent state, file and run, of any state: it is planned by value, so that a refused call changes nothing, and then
// its records are stored. The player takes quicker ways where it can.
#![tactic(auto)]

ghost use Rattle.play_planned.specs.Vsync.{Advanced};

use base_format::{StreamPlayer, WriteRecord};
use play_plan::plan_call;
use play_store::store_call;

// What a call tells: number and place of its refusal, or 0 and 0; how many records it stored, and whether the vsync is complete. It is
// exported, and the kit exports no type that holds an enum.
#[repr(C)]
#[derive(Clone, Copy)]
pub struct Vsync {
    pub number: u32,
    pub place: u64,
    pub count: usize,
    pub complete: bool,
}

// The call of any state: its plan is made, and then its records are stored.
#[tactic(auto, using(crate::proofs::Calls::accepted_call))]
pub fn planned_vsync(state: &mut StreamPlayer, file: &[u8], run: &mut [WriteRecord]) -> Vsync
    ensures { Advanced state.old file.now run.old result state.new run.new }
{
    let before = *state;
    match plan_call(before, file, run.len()) {
        Ok(plan) => {
            store_call(run, file, before, plan.count);
            *state = plan.next;
            Vsync {
                number: 0,
                place: 0,
                count: plan.count,
                complete: plan.complete,
            }
        }
        Err(refusal) => Vsync {
            number: u32::from(refusal.rule),
            place: refusal.place as u64,
            count: 0,
            complete: false,
        },
    }
}
