// The wave sources behind an operation, and how many writes it makes.
ghost use Rattle.std.specs.Prelude.{◌≡◌};
ghost use Rattle.play_laws.specs.Plan.{count_of};
ghost use Rattle.base_format.specs.Player.{waves_by};
ghost use Rattle.play_plan_part.specs.Told.{waves_with, waves_now};

use base_format::{Operation, WaveSource};
use check_pools::read_pool;

// How many writes an operation makes.
pub fn count_of(operation: Operation) -> u32
    ensures { result ≡ count_of operation }
{
    match operation {
        Operation::Write { .. } => 1,
        Operation::Fill { length, .. } | Operation::Copy { length, .. } => length,
    }
}

// The wave sources with a pool at its place. A place past the sixteen changes nothing.
fn waves_with(waves: [WaveSource; 16], target: u8, address: u32, id: u16) -> [WaveSource; 16]
    ensures { result ≡ waves_with waves target address id }
{
    let mut after = waves;
    let i = target as usize * 8 + address as usize / 256;
    if i < 16 {
        after[i] = WaveSource {
            copied: true,
            pool: id,
        };
        return after;
    }
    waves
}

// The wave sources once an operation's first write is made: a COPY of a wave sets one.
#[tactic(auto, unfolding(base_format::specs::Player::waves_by))]
fn waves_by(
    file: &[u8],
    directory: u32,
    operation: Operation,
    waves: [WaveSource; 16],
) -> [WaveSource; 16]
    ensures { result ≡ waves_by file.now directory operation waves }
{
    match operation {
        Operation::Write { .. } | Operation::Fill { .. } => waves,
        Operation::Copy {
            target,
            address,
            pool,
            ..
        } => {
            let entry = read_pool(file, directory, pool as u32);
            if entry.kind == 1 {
                return waves_with(waves, target, address, pool);
            }
            waves
        }
    }
}

// The wave sources once writes of an operation are taken, of which so many were taken before.
pub fn waves_now(
    file: &[u8],
    directory: u32,
    operation: Operation,
    writes: u32,
    waves: [WaveSource; 16],
) -> [WaveSource; 16]
    ensures { result ≡ waves_now file.now directory operation writes waves }
{
    if writes == 0 {
        return waves_by(file, directory, operation, waves);
    }
    waves
}
