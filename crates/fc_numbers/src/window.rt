//! What a lane holds of a view's pages.

/// The bytes of a line of text.
pub const LINE: u64 = 64;

/// One copy of a line of a view's pages and of the halfword behind it.
#[derive(Clone, Copy)]
pub struct Window {
    /// The number of the line, whose first byte stands at the offset 64 times that number.
    pub line: u32,
    /// The 32 halfwords of the line and the one behind it, which is 0 where the range of text ends with the line.
    pub halves: [u16; 33],
}

impl Default for Window {
    fn default() -> Window {
        Window {
            line: 0,
            halves: [0; 33],
        }
    }
}
