// The opening of a file, which has no count in front: the rules 13 to 19.
ghost use Rattle.std.specs.Prelude.{◌≡◌};
ghost use Rattle.base_format.specs.Card.{cards_of};
ghost use Rattle.base_format.specs.Operation.{setting_of};
ghost use Rattle.base_format.specs.Rule.{answer_of};
ghost use Rattle.base_format.specs.Stream.{opening_limit};
ghost use Rattle.check_items.specs.Walk.{walked};
ghost use Rattle.check_fast_limits.specs.Limits.{limit_table};

use base_format::{CardTable, Header, Refusal};
use base_next_part::opening_limit;
use check_fast::quick_run;
use check_fast_limits::LimitTable;
use check_items::check_operations;

// Where the opening ends, and whether an operation of it has target 11.
pub fn check_opening(
    file: &[u8],
    header: Header,
    cards: CardTable,
    table: &LimitTable,
) -> Result<(usize, bool), Refusal>
    requires { table.now ≡ limit_table header.version (cards_of cards) }
    ensures { answer_of result ≡ walked (setting_of file.now header cards) file.now (opening_limit header file.now) header.initial_count header.initial_start }
{
    let limit = opening_limit(file, header);
    let run = quick_run(
        file,
        header.version,
        header.pool_count,
        header.directory_offset,
        table,
        limit,
        header.initial_count,
        header.initial_start as usize,
    );
    let (place, si22) = check_operations(file, header, cards, limit, run.left, run.at)?;
    Ok((place, run.si22 | si22))
}
