// The header of a file, whatever its version.

// What the header's fields say. Version 1 has no pools, no cards and period 0; its directory and opening start at 20.
#[repr(C)]
#[derive(Clone, Copy, PartialEq, Eq)]
pub struct Header {
    pub version: u8,
    pub repeat: bool,
    pub frame_period: u32,
    pub card_count: u8,
    pub frame_count: u32,
    pub pool_count: u32,
    pub initial_count: u32,
    pub directory_offset: u32,
    pub initial_start: u32,
    pub frame_start: usize,
    pub total_size: u32,
}
