//! What a server keeps: encrypted cells by label, encrypted blocks in a list, additions by label, and the
//! revocation numbers of deleted pairs. A contract sees `Tables` as two maps, a list and a set, so a representation
//! can change without touching the crates above; one is sorted, one has buckets, and one has buckets under drawn
//! keys. The buckets are std's hash table, which hashes all 16 bytes of a label: with labels of one prefix, buckets
//! of our own were 500 times slower. The crate depends only on std, and doesn't know how a cell is made or
//! decrypted.
//! Proved: `Tables` are two maps, a list and a set; a call for which memory was reserved can't fail; a label that is
//! already taken is reported before out of memory.
//! Side: server.

#![tactic(auto)]

mod bucket_map;
mod extent;
mod flat_tables;
mod key;
mod kinds;
mod label_map;
mod missing;
mod sorted_map;
mod table_fault;
mod tables;

pub use bucket_map::BucketMap;
pub use extent::Extent;
pub use flat_tables::FlatTables;
pub use kinds::{BucketTables, SeededTables, SortedTables};
pub use label_map::LabelMap;
pub use missing::Missing;
pub use sorted_map::SortedMap;
pub use table_fault::TableFault;
pub use tables::Tables;
