// One vsync call over the lent state, file and run. What the call does is decided by value, so that a refused call changes nothing.
ghost use Rattle.play_planned.specs.Vsync.{Advanced};

use base_format::{StreamPlayer, WriteRecord};
use base_position::store_position;
use play_fast::quick_step;
use play_fast_empty::{EmptyStep, empty_step};
use play_planned::{Vsync, planned_vsync};
use play_store_fast::store_step;

// Any call that is not an empty frame's. One that takes nothing but WRITEs and FILLs changes only the position.
fn busy_vsync(state: &mut StreamPlayer, file: &[u8], run: &mut [WriteRecord]) -> Vsync
    ensures { Advanced state.old file.now run.old result state.new run.new }
{
    let seen = *state;
    if let Some(step) = quick_step(file, seen.header, seen.cards, seen.progress, run.len()) {
        store_step(run, file, seen.header.version, step);
        store_position(state, step.to);
        return Vsync {
            number: 0,
            place: 0,
            count: step.writes.count(),
            complete: step.complete,
        };
    }
    planned_vsync(state, file, run)
}

// As many of the vsync's remaining writes as the run holds go to its front. The call of an empty frame is answered at once: because
// `busy_vsync` is called at two places, the compiler keeps it out of line, and because its answer has a name, the answer of an
// empty frame does not go through memory.
pub fn advance_vsync(state: &mut StreamPlayer, file: &[u8], run: &mut [WriteRecord]) -> Vsync
    ensures { Advanced state.old file.now run.old result state.new run.new }
{
    let seen = *state;
    match empty_step(file, seen.header, seen.cards.count, seen.progress) {
        EmptyStep::UnderWay => {
            let going = busy_vsync(state, file, run);
            going
        }
        EmptyStep::Taken(to) => {
            store_position(state, to);
            Vsync {
                number: 0,
                place: 0,
                count: 0,
                complete: true,
            }
        }
        EmptyStep::NotTaken => {
            let begun = busy_vsync(state, file, run);
            begun
        }
    }
}
