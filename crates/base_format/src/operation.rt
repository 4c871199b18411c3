// An operation of a file, and one write that it makes.

// An operation; a record of version 1 is a WRITE.
#[derive(Clone, Copy)]
pub enum Operation {
    Write {
        target: u8,
        address: u32,
        value: u8,
    },
    Fill {
        target: u8,
        address: u32,
        length: u32,
        value: u8,
    },
    Copy {
        target: u8,
        address: u32,
        pool: u16,
        source: u32,
        length: u32,
    },
}

// An operation, and the place behind it.
#[derive(Clone, Copy)]
pub struct Item {
    pub operation: Operation,
    pub next: usize,
}

// One write that playing makes.
#[repr(C)]
#[derive(Clone, Copy)]
pub struct WriteRecord {
    pub target: u8,
    pub address: u32,
    pub value: u8,
}
