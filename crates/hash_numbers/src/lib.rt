//! An index: a number for each of some hashes, such as where the chunk with this hash stands. The number that came first stays.
//! And the table of hashes that it stands on.
#![tactic(auto)]

pub mod index;
mod slots;
pub mod table;

pub use index::HashIndex;
pub use table::HashTable;
