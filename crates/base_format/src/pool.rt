// A pool of a file.

// A pool as its directory entry gives it.
#[derive(Clone, Copy)]
pub struct Pool {
    pub kind: u8,
    pub size: u32,
    pub offset: u32,
}
