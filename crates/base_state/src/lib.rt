// A player's state and its progress: made and moved on. No other crate makes a progress.
#![tactic(auto)]

mod progress;

ghost use Rattle.std.specs.Prelude.{[], ◌≡◌};
ghost use Rattle.base_format.specs.State.{no_card, table_of, part_of, refused_player, moved};

use base_format::{CardRequirement, CardTable, Header, Progress, StreamPlayer};
pub use progress::{
    before_frame, closing_at, frame_begun, frame_ended, opening_begun, placed, unplayed,
};

// What stands for a card that is not there.
pub fn no_card() -> CardRequirement
    ensures { result ≡ no_card }
{
    CardRequirement {
        slot: 0,
        id_length: 0,
        id_offset: 0,
        bulk_start: 0,
        bulk_length: 0,
        id: [0; 16],
    }
}

// A table without cards.
#[tactic(auto, unfolding(base_format::specs::State::table_of))]
pub fn no_cards() -> CardTable
    ensures { result ≡ table_of [] }
{
    CardTable {
        cards: [no_card(); 8],
        count: 0,
    }
}

// What a refused start gives back.
#[tactic(auto, unfolding(base_format::specs::State::refused_player))]
pub fn refused_player() -> StreamPlayer
    ensures { result ≡ refused_player }
{
    let header = Header {
        version: 0,
        repeat: false,
        frame_period: 0,
        card_count: 0,
        frame_count: 0,
        pool_count: 0,
        initial_count: 0,
        directory_offset: 0,
        initial_start: 0,
        frame_start: 0,
        total_size: 0,
    };
    StreamPlayer {
        header,
        cards: no_cards(),
        uses_si22: false,
        progress: unplayed(true, 0),
    }
}

// The same state with other progress.
pub fn moved(state: StreamPlayer, progress: Progress) -> StreamPlayer
    ensures { result ≡ moved state progress }
{
    StreamPlayer { progress, ..state }
}
