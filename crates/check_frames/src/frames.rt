// The frames of a file, each a count and its operations: the rules 13 to 19.
ghost use Rattle.std.specs.Prelude.{◌≡◌, length};
ghost use Rattle.base_format.specs.Card.{cards_of};
ghost use Rattle.base_format.specs.Operation.{setting_of};
ghost use Rattle.base_format.specs.Rule.{answer_of};
ghost use Rattle.check_fast_limits.specs.Limits.{limit_table};
ghost use Rattle.check_fast.specs.Run.{quick_run};
ghost use Rattle.check_frames.specs.Frames.{frames_said};

use crate::empty_frames::{count_cut_off, skip_empty};
use base_format::{CardTable, Header, Refusal, Rule};
use base_refusal::refuse;
use bytes_read::read_u16;
use check_fast::{QuickRun, quick_run};
use check_fast_limits::LimitTable;
use check_items::check_operations;

// The items of a frame that are passed quickly. A frame that has none costs no call.
#[tactic(auto, using(check_fast::proofs::Ran::quick_none))]
fn frame_run(
    file: &[u8],
    version: u8,
    pools: u32,
    directory: u32,
    table: &LimitTable,
    count: u32,
    at: usize,
) -> QuickRun
    ensures { result ≡ quick_run version file.now pools directory table.now (length file.now) count at }
{
    if count == 0 {
        return QuickRun {
            at,
            left: 0,
            si22: false,
        };
    }
    quick_run(
        file,
        version,
        pools,
        directory,
        table,
        file.len(),
        count,
        at,
    )
}

// The frames, each a count and its operations, with what is known of target 11 before them: the place behind the last one, and whether
// an operation has target 11. The tables are copied only for what is not passed quickly.
pub fn check_frames(
    file: &[u8],
    header: Header,
    cards: CardTable,
    table: &LimitTable,
    si22: bool,
) -> Result<(usize, bool), Refusal>
    requires { table.now ≡ limit_table header.version (cards_of cards) }
    ensures { answer_of result ≡ frames_said (setting_of file.now header cards) file.now header.frame_count header.frame_start si22 }
{
    let version = header.version;
    let pools = header.pool_count;
    let directory = header.directory_offset;
    let mut at = header.frame_start;
    let mut left = header.frame_count;
    let mut seen = si22;
    // A turn passes all empty frames and one more, so that no range counts the turns.
    while 0 < left {
        let next = skip_empty(file, left, at);
        refuse(Rule::CutOff, next.at, count_cut_off(file, next.at))?;
        let count = u32::from(read_u16(file, next.at));
        let run = frame_run(file, version, pools, directory, table, count, next.at + 2);
        at = run.at;
        seen |= run.si22;
        let quick = run.left == 0;
        if !quick {
            let (place, si22) = check_operations(
                file,
                header,
                cards,
                file.len(),
                run.left,
                run.at,
            )?;
            at = place;
            seen |= si22;
        }
        left = next.left - 1;
    }
    Ok((at, seen))
}
