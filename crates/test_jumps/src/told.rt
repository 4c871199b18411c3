// A step's answer, and what is stored of it.
use base_format::{Refusal, StreamPlayer, WaveSource};
use bytes_read::{byte_at, read_u16, read_u32};
use test_records::flags;
use test_vectors::{BASIS, StoredAnswer, mix};

// What a step that is not refused does: a vsync call's count of records, whether the vsync is complete and the number of the records, which a
// jump does not have; and the player behind the step.
#[derive(Clone, Copy)]
pub(crate) struct Played {
    pub(crate) count: usize,
    pub(crate) complete: bool,
    pub(crate) records: u32,
    pub(crate) next: StreamPlayer,
}

// The answer's value is the count. `sum` is made of the records, and then of the wave sources.
#[derive(Clone, Copy, PartialEq, Eq)]
pub(crate) struct Told {
    answer: StoredAnswer,
    flags: u8,
    frame: u32,
    sum: u32,
}

// A channel's wave source as a number: 0 for none, else the pool and 1.
fn source_number(source: WaveSource) -> u32 {
    if source.copied {
        source.pool as u32 + 1
    } else {
        0
    }
}

// The number behind the wave sources.
fn mix_sources(sum: u32, sources: [WaveSource; 16]) -> u32 {
    let mut mixed = sum;
    for source in sources {
        mixed = mix(mixed, source_number(source));
    }
    mixed
}

impl Told {
    // What 32 bytes store of a step. Of its flags the player is finished by 4 to 7 alone.
    pub(crate) fn read(stored: &[u8]) -> Told {
        let stored_flags = byte_at(stored, 5);
        Told {
            answer: StoredAnswer {
                number: byte_at(stored, 6) as u32,
                place: read_u16(stored, 20) as usize,
                value: read_u16(stored, 22) as usize,
            },
            flags: flags(
                stored_flags % 2 == 1,
                stored_flags / 2 % 2 == 1,
                stored_flags / 4 == 1,
            ),
            frame: read_u16(stored, 24) as u32,
            sum: read_u32(stored, 28),
        }
    }

    // A refused step leaves the player as it was.
    pub(crate) fn by(state: StreamPlayer, played: Result<Played, Refusal>) -> (Told, StreamPlayer) {
        let answer = StoredAnswer::from(played.map(|played| played.count));
        let Played {
            complete,
            records,
            next,
            ..
        } = played.unwrap_or(Played {
            count: 0,
            complete: false,
            records: BASIS,
            next: state,
        });
        let told = Told {
            answer,
            flags: flags(played.is_err(), complete, next.progress.finished),
            frame: next.progress.frame_index,
            sum: mix_sources(records, next.progress.wave_sources),
        };
        (told, next)
    }
}
