// A player's state: what its start recorded, and its progress.
ghost use Rattle.std.specs.Prelude.{◌≡◌};
ghost use Rattle.base_format.specs.Part.{part_of};

use crate::{CardTable, Header};

// What a player is playing: nothing yet of the next vsync, the opening, a frame, or the closing writes. A state holds its
// number, because an exported type holds no enum; every number past 2 stands for the closing writes.
#[derive(Clone, Copy)]
pub enum Part {
    Between,
    Opening,
    Frame,
    Closing,
}

impl Part {
    pub const BETWEEN: u8 = 0;

    pub const OPENING: u8 = 1;

    pub const FRAME: u8 = 2;

    pub const CLOSING: u8 = 3;
}

impl From<u8> for Part {
    ghost from_gives = { λ number part. part ≡ part_of number };

    fn from(number: u8) -> Part {
        match number {
            Part::BETWEEN => Part::Between,
            Part::OPENING => Part::Opening,
            Part::FRAME => Part::Frame,
            _ => Part::Closing,
        }
    }
}

// The pool that was last copied to a place of 256 bytes of a core, if any was.
#[repr(C)]
#[derive(Clone, Copy)]
pub struct WaveSource {
    pub copied: bool,
    pub pool: u16,
}

// How far a player is. `operation_index` counts the operations of the part that are done, of `operation_count`; `write_index`
// the writes that are done of the operation at `cursor`, or of the closing writes; `frame_index` the frames of this pass that are
// begun.
#[repr(C)]
#[derive(Clone, Copy)]
pub struct Progress {
    pub part: u8,
    pub cursor: usize,
    pub operation_index: u32,
    pub operation_count: u32,
    pub write_index: u32,
    pub frame_index: u32,
    pub initialized: bool,
    pub finished: bool,
    pub wave_sources: [WaveSource; 16],
}

// Where a player is in its file, as the numbers of a progress that most calls move on.
#[derive(Clone, Copy)]
pub struct Position {
    pub part: u8,
    pub cursor: usize,
    pub operation_index: u32,
    pub operation_count: u32,
    pub write_index: u32,
    pub frame_index: u32,
}

// What a vsync plays next; of a frame the place of its count, and how many frames of the pass are begun before it.
#[derive(Clone, Copy)]
pub enum NextPart {
    Opening,
    Frame { place: usize, frame: u32 },
    Closing,
}

// A player's state: what its start recorded, which no call changes, and its progress.
#[repr(C)]
#[derive(Clone, Copy)]
pub struct StreamPlayer {
    pub header: Header,
    pub cards: CardTable,
    pub uses_si22: bool,
    pub progress: Progress,
}
