// The static library's surface: include/sgub.h declares these functions for C, rust/sgub for Rust. What an answer is as plain numbers
// is in the crates sgub_answers, sgub_player, sgub_pool_list, sgub_results, sgub_join and sgub_pitch.
#![tactic(auto)]

mod comparison;
mod indexing;
mod joining;
mod pitch;
mod player;
mod pools;
mod repacking;

ghost use Rattle.std.specs.Prelude.{◌≡◌};
ghost use Rattle.base_format.specs.Bytes.{part};
ghost use Rattle.base_format.specs.Lookup.{pool_kind, pool_payload};
ghost use Rattle.check_file.specs.Answer.{recorded};
ghost use Rattle.check_pool_lookup.specs.Found.{pool_found};
ghost use Rattle.sgub_answers.specs.Surface.{verdict_on, card_on, pool_on, kind_in};

pub use comparison::sgub_compare;
pub use indexing::sgub_index;
pub use joining::sgub_join;
pub use pitch::sgub_frequency;
pub use player::{sgub_advance_vsync, sgub_jump, sgub_start, sgub_wave_source};
pub use pools::sgub_pools;
pub use repacking::sgub_repack;
use sgub_answers::{SgubCard, SgubPool, SgubVerdict};

#[unsafe(no_mangle)]
pub extern "C" fn sgub_check(file: &[u8]) -> SgubVerdict
    ensures { result ≡ verdict_on (recorded file.now) }
{
    sgub_answers::verdict_of(check_file::check_file(file))
}

// The card of a file by its index; all 0 from the card count on.
#[unsafe(no_mangle)]
pub extern "C" fn sgub_card(file: &[u8], index: usize) -> SgubCard
    ensures { result ≡ card_on (recorded file.now) index }
{
    sgub_answers::card_of(check_file::check_file(file), index)
}

// The pool of a file by its id; kind 0 and an empty part of the file for an unknown pool.
#[unsafe(no_mangle)]
pub extern "C" fn sgub_pool(file: &[u8], id: u16) -> SgubPool
    ensures { (result ≡ pool_on (pool_found file.now id)) × (result.kind ≡ kind_in (pool_kind file.now id))
        × (part file.now result.offset result.size ≡ pool_payload file.now id) }
{
    sgub_answers::pool_of(check_pool_lookup::find_pool(file, id))
}
