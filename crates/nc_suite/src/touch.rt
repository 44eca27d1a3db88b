//! What a test does to an element.

use nc_marks::mark::Mark;

/// An element, and its mark for a test.
#[derive(Clone, Copy)]
pub struct Touch {
    /// The number of the element.
    pub element: u32,
    /// How the test covers it.
    pub mark: Mark,
}
