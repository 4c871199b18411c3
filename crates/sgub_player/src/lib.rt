// The answers of a player's start and of its wave sources as plain numbers, for C and Rust: the kit exports no type that holds an enum.
#![tactic(auto)]

ghost use Rattle.std.specs.Prelude.{◌≡◌};
ghost use Rattle.base_format.specs.Rule.{answer_of};
ghost use Rattle.sgub_player.specs.Player.{start_fields, source_fields};

use base_format::{StreamPlayer, WaveSource};
use play_start::Started;

// The verdict on a file, and the player's state; that of a refused file is finished.
#[repr(C)]
#[derive(Clone, Copy)]
pub struct SgubStarted {
    pub number: u32,
    pub place: u64,
    pub player: StreamPlayer,
}

pub fn started_of(found: Started) -> SgubStarted
    ensures { result ≡ start_fields (answer_of found.verdict) found.state }
{
    let player = found.state;
    match found.verdict {
        Ok(()) => SgubStarted {
            number: 0,
            place: 0,
            player,
        },
        Err(refusal) => SgubStarted {
            number: u32::from(refusal.rule),
            place: refusal.place as u64,
            player,
        },
    }
}

// Not copied, and 0, where no pool was.
pub fn source_of(answer: Option<u16>) -> WaveSource
    ensures { result ≡ source_fields answer }
{
    WaveSource {
        copied: answer.is_some(),
        pool: answer.unwrap_or(0),
    }
}
