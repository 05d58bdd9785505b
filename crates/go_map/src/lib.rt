//! Go's `sync.Map` on the words of a shared table.
#![tactic(auto)]

pub mod cursor;
pub mod laws;
pub mod map;
mod reply;
pub mod trie;

pub use cursor::Cursor;
pub use map::Map;
pub use trie::Trie;
