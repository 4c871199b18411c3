// One stored step, replayed: a vsync call or a jump. Its 32 bytes say which file and index are lent, how many bytes of each, which byte of
// each is another one in this step, and the answer.
use crate::parts::{lent, place_in};
use crate::told::{Played, Told};
use base_format::{Refusal, StreamPlayer};
use bytes_read::{byte_at, put_u8, read_u16, read_u32};
use play_plan::plan_call;
use play_plan_jump::plan_jump;
use test_records::mix_call;
use test_vectors::BASIS;

// A vsync call with a run of so many records.
fn play(file: &[u8], state: StreamPlayer, room: usize) -> Result<Played, Refusal> {
    let plan = plan_call(state, file, room)?;
    Ok(Played {
        count: plan.count,
        complete: plan.complete,
        records: mix_call(file, state, plan.count, room),
        next: plan.next,
    })
}

// A jump: no record is written.
fn jump(file: &[u8], index: &[u8], state: StreamPlayer, frame: u32) -> Result<Played, Refusal> {
    let next = plan_jump(state, file, index, frame)?;
    Ok(Played {
        count: 0,
        complete: false,
        records: BASIS,
        next,
    })
}

// A step with the lent bytes as they are.
fn step(buffer: &[u8], state: StreamPlayer, stored: &[u8]) -> Result<Played, Refusal> {
    let file = lent(buffer, byte_at(stored, 1), read_u16(stored, 8) as usize);
    let length = read_u16(stored, 10) as usize;
    if byte_at(stored, 0) == 0 {
        return play(file, state, length);
    }
    let index = lent(buffer, byte_at(stored, 2).wrapping_add(2), length);
    jump(file, index, state, read_u32(stored, 16))
}

// Whether the answer is the stored one. The changed bytes have their old values again behind the step.
pub(crate) fn replay(buffer: &mut [u8], state: &mut StreamPlayer, stored: &[u8]) -> bool {
    let file_at = place_in(byte_at(stored, 1), read_u16(stored, 12));
    let index_at = place_in(byte_at(stored, 2).wrapping_add(2), read_u16(stored, 14));
    let file_byte = byte_at(buffer, file_at);
    let index_byte = byte_at(buffer, index_at);
    put_u8(buffer, file_at, byte_at(stored, 3));
    put_u8(buffer, index_at, byte_at(stored, 4));
    let (told, next) = Told::by(*state, step(buffer, *state, stored));
    put_u8(buffer, file_at, file_byte);
    put_u8(buffer, index_at, index_byte);
    *state = next;
    told == Told::read(stored)
}
