//! A file that was loaded.

use nc_lines::Lines;
use nc_types::Text;

/// A file that was read: its name, as the words give it, and its lines.
#[derive(Drop)]
pub struct LoadedFile {
    pub name: Text,
    pub lines: Lines,
}
