/// The lines of one block: the headers that open it, and the indented lines under them, without blank
/// lines, comments and banners.
#[derive(Drop)]
pub struct Block {
    /// The lines, ascending, from 1.
    pub lines: Vec<u32>,
}
