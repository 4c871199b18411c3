// The values of the format sheet that the crates share. What they mean is in specs/.
#![tactic(auto)]

mod card;
mod header;
mod operation;
mod player;
mod pool;
mod rule;
mod size;

pub use base_targets::Target;
pub use card::{CardRequirement, CardTable};
pub use header::Header;
pub use operation::{Item, Operation, WriteRecord};
pub use player::{NextPart, Part, Position, Progress, StreamPlayer, WaveSource};
pub use pool::Pool;
pub use rule::{Refusal, Rule};
pub use size::{
    CARD_SIZE, CARDS_HEADER_SIZE, COUNT_SIZE, ENTRY_SIZE, FILE_LIMIT, INDEX_ENTRY_SIZE,
    INDEX_SPACING, INDEX_TRAILER_SIZE, MASTER_HEADER_SIZE, OPERATION_MOST, PCM_SIZE,
    POOLED_HEADER_SIZE, RECORD_SIZE, WAVE_RECORDS_SIZE, WAVE_SIZE,
};
