// The tables behind the header of a pooled file: the cards of version 4, and an entry of the pool directory.
#![tactic(auto)]

ghost use Rattle.std.specs.Prelude.{◌≡◌, ◌+◌, ◌*◌, ◌≤◌, length};
ghost use Rattle.base_format.specs.Bytes.{bytes_of_all};
ghost use Rattle.base_format.specs.Card.{cards_of};
ghost use Rattle.base_format.specs.Written.{card_fields, cards_bytes};
ghost use Rattle.base_format.specs.Size.{card_size};
ghost use Rattle.bytes_read.specs.Put.{put};
ghost use Rattle.bytes_put_tables.specs.Card.{number_fields};
ghost use Rattle.bytes_put_tables.specs.Entry.{entry_bytes};

use base_format::{CARD_SIZE, CardRequirement, CardTable};
use bytes_read::{put_u8, put_u16, put_u32};

// The sixteen bytes of a card's name.
#[tactic(auto, using(bytes_read::proofs::Laws::put_part))]
fn put_id(buffer: &mut [u8], at: usize, id: [u8; 16])
    requires { at + 16 ≤ length buffer.old }
    ensures { (buffer.new ≡ put id at buffer.old) × (length id ≡ 16) }
{
    buffer[at..at + 16].copy_from_slice(&id);
}

// The sixteen bytes before the name: the slot, the name's length and offset, the range that FILL and COPY may write.
fn put_numbers(buffer: &mut [u8], at: usize, card: CardRequirement)
    requires { at + 16 ≤ length buffer.old }
    ensures { buffer.new ≡ put (bytes_of_all (number_fields card.slot card.id_length card.id_offset card.bulk_start card.bulk_length)) at buffer.old }
{
    put_u8(buffer, at, card.slot);
    put_u8(buffer, at + 1, card.id_length);
    put_u16(buffer, at + 2, 0);
    put_u32(buffer, at + 4, card.id_offset);
    put_u32(buffer, at + 8, card.bulk_start);
    put_u32(buffer, at + 12, card.bulk_length);
}

// A card. That a name has sixteen bytes, which its type says, is passed on to the table.
fn put_card(buffer: &mut [u8], at: usize, card: CardRequirement)
    requires { at + 32 ≤ length buffer.old }
    ensures { (buffer.new ≡ put (bytes_of_all (card_fields card)) at buffer.old) × (length card.id ≡ 16) }
{
    put_numbers(buffer, at, card);
    put_id(buffer, at + 16, card.id);
}

// The cards of a table.
pub fn put_cards(buffer: &mut [u8], at: usize, table: CardTable)
    requires { (table.count ≤ 8) × (at + table.count * card_size ≤ length buffer.old) }
    ensures { buffer.new ≡ put (cards_bytes (cards_of table)) at buffer.old }
{
    for i in 0..table.count {
        put_card(buffer, at + i * CARD_SIZE, table.cards[i]);
    }
}

// An entry of the directory: a pool's id, kind and size, and where its payload starts.
pub fn put_entry(buffer: &mut [u8], at: usize, id: u16, kind: u8, size: u32, start: u32)
    requires { at + 16 ≤ length buffer.old }
    ensures { buffer.new ≡ put (entry_bytes id kind size start) at buffer.old }
{
    put_u16(buffer, at, id);
    put_u8(buffer, at + 2, kind);
    put_u8(buffer, at + 3, 0);
    put_u32(buffer, at + 4, size);
    put_u32(buffer, at + 8, size);
    put_u32(buffer, at + 12, start);
}
