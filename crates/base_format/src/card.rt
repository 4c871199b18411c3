// The cards that a file of version 4 asks for.

// A card of version 4: the slot that it is for, its name, and the range that FILL and COPY may write.
#[repr(C)]
#[derive(Clone, Copy, PartialEq, Eq)]
pub struct CardRequirement {
    pub slot: u8,
    pub id_length: u8,
    pub id_offset: u32,
    pub bulk_start: u32,
    pub bulk_length: u32,
    pub id: [u8; 16],
}

// Eight cards by value with a count; cards beyond the count are all 0.
#[repr(C)]
#[derive(Clone, Copy)]
pub struct CardTable {
    pub cards: [CardRequirement; 8],
    pub count: usize,
}
