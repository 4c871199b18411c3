// One stored call, replayed. Its 16 bytes are the length of the lent file, the length of the run, the place and the value of a byte
// that is changed before the call, and the answer: flags, count, frames begun and the number of the records.
use base_format::StreamPlayer;
use bytes_read::{byte_at, put_u8, read_u16, read_u32};
use play_plan::{CallPlan, plan_call};
use test_records::{flags, mix_call};

// A call's answer.
#[derive(Clone, Copy, PartialEq, Eq)]
struct Told {
    flags: u8,
    count: usize,
    frame: u32,
    records: u32,
}

impl Told {
    fn read(stored: &[u8]) -> Told {
        Told {
            flags: byte_at(stored, 7),
            count: read_u16(stored, 8) as usize,
            frame: read_u16(stored, 10) as u32,
            records: read_u32(stored, 12),
        }
    }
}

// A call with the lent file: its answer, and the player behind it. A refused call takes no write, and its player stays.
fn play(file: &[u8], state: StreamPlayer, room: usize) -> (Told, StreamPlayer) {
    let planned = plan_call(state, file, room);
    let refused = planned.is_err();
    let plan = planned.unwrap_or(CallPlan {
        count: 0,
        complete: false,
        next: state,
    });
    let progress = plan.next.progress;
    let told = Told {
        flags: flags(refused, plan.complete, progress.finished),
        count: plan.count,
        frame: progress.frame_index,
        records: mix_call(file, state, plan.count, room),
    };
    (told, plan.next)
}

// Whether the answer is the stored one. The buffer begins with the file. The changed byte stays changed until a later call puts the old one
// back.
pub(crate) fn replay(buffer: &mut [u8], state: &mut StreamPlayer, stored: &[u8]) -> bool {
    let place = read_u16(stored, 4) as usize;
    put_u8(buffer, place, byte_at(stored, 6));
    let length = read_u16(stored, 0) as usize;
    if buffer.len() < length {
        return false;
    }
    let (told, next) = play(&buffer[..length], *state, read_u16(stored, 2) as usize);
    *state = next;
    told == Told::read(stored)
}
