/// A stretch of RAM: so many addresses from one on, of which the first hold the bytes and the others 0.
#[derive(Debug, Drop)]
pub struct Segment {
    /// The physical address of the first byte.
    pub at: u64,
    pub bytes: Vec<u8>,
    /// The number of addresses, at least as many as there are bytes.
    pub size: u64,
    /// The rights as ELF has them: 1 to execute, 2 to write, 4 to read, added up.
    pub flags: u32,
}
