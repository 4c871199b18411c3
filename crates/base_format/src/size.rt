// The sizes and limits that the sheet gives in bytes; specs/Size.antt has them for the definitions. The table of operations' lengths is
// the crate bytes_operation_size's, and the targets' limits are those of Target.

// A record of version 1.
pub const RECORD_SIZE: usize = 5;

// The header of version 1, of versions 2 and 3, and of version 4.
pub const MASTER_HEADER_SIZE: usize = 20;

pub const POOLED_HEADER_SIZE: usize = 40;

pub const CARDS_HEADER_SIZE: usize = 48;

// A card of version 4.
pub const CARD_SIZE: usize = 32;

// An entry of the pool directory.
pub const ENTRY_SIZE: usize = 16;

// The count in front of a frame.
pub const COUNT_SIZE: usize = 2;

// The bytes that hold every operation: the longest one has as many.
pub const OPERATION_MOST: usize = 16;

// A wave, which is the payload of a pool of kind 1, and its records in a master.
pub const WAVE_SIZE: usize = 256;

pub const WAVE_RECORDS_SIZE: usize = 1280;

// The PCM memory.
pub const PCM_SIZE: usize = 1048576;

// What a file has at most.
pub const FILE_LIMIT: u32 = 0xE00000;

// An index has an entry for each so many frames.
pub const INDEX_SPACING: u32 = 64;

// An entry of an index, and its trailer.
pub const INDEX_ENTRY_SIZE: usize = 4;

pub const INDEX_TRAILER_SIZE: usize = 12;
