// A jump over the lent state: it is planned by value, so that a refused jump changes nothing, and then the next state is stored.
#![tactic(auto)]

ghost use Rattle.play_jump.specs.Jumped.{JumpMade};

use base_format::StreamPlayer;
use play_plan_jump::plan_jump;

// What a jump tells: number and place of its refusal, or 0 and 0. It is exported, and the kit exports no type that holds an enum.
#[repr(C)]
#[derive(Clone, Copy)]
pub struct Jumped {
    pub number: u32,
    pub place: u64,
}

// The player is set to a frame, counted from 1.
pub fn jump_to_frame(state: &mut StreamPlayer, file: &[u8], index: &[u8], frame: u32) -> Jumped
    ensures { JumpMade state.old file.now index.now frame result state.new }
{
    match plan_jump(*state, file, index, frame) {
        Ok(next) => {
            *state = next;
            Jumped {
                number: 0,
                place: 0,
            }
        }
        Err(refusal) => Jumped {
            number: u32::from(refusal.rule),
            place: refusal.place as u64,
        },
    }
}
