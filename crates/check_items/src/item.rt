// The record or operation of a file at a place, with the rules 13 to 19 and the limit that rule 14 names. Where the limit passes the
// file's end, the bytes there are 0.
ghost use Rattle.std.specs.Prelude.{◌≡◌};
ghost use Rattle.base_format.specs.Operation.{setting_of, item_at};
ghost use Rattle.base_format.specs.Rule.{answer_of};

use base_format::{CardTable, Header, Item, Refusal, Rule};
use base_refusal::refuse;
use bytes_operation::{decode_item, operation_of};
use bytes_read::item_bytes;
use check_item_allowed::{allow, target_number};
use check_target::find_target;

// The record or operation at a place, by the version. A record is a WRITE, so that its opcode breaks no rule.
#[tactic(auto, using(base_format::proofs::Answered::passed_on, crate::proofs::Items::item_checked, check_item_allowed::proofs::Target::allowed_at_lem))]
pub fn read_item(
    file: &[u8],
    header: Header,
    cards: CardTable,
    limit: usize,
    at: usize,
) -> Result<Item, Refusal>
    ensures { answer_of result ≡ item_at (setting_of file.now header cards) file.now limit at }
{
    let item = decode_item(item_bytes(file, at), header.version);
    refuse(Rule::CutOff, at, limit <= at)?;
    refuse(Rule::Opcode, at, 2 < item.opcode)?;
    refuse(Rule::CutOff, at, limit - at < item.size)?;
    let operation = operation_of(item);
    let target = find_target(target_number(operation), header.version, cards);
    allow(
        file,
        header.version,
        header.pool_count,
        header.directory_offset,
        at,
        target,
        operation,
        at + item.size,
    )
}
