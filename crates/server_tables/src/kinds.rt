ghost use Rattle.std.specs.Prelude.{◌≡◌};
ghost use Rattle.server_tables.specs.Contents.{no_contents};

use crate::{BucketMap, Extent, FlatTables, SortedMap};
use std::alloc::Global;
use std::hash::{BuildHasherDefault, FoldHasher, RandomState};

/// Tables whose labels stand in sorted vectors: a label that comes after the others moves none of them, and any
/// other moves those after it.
pub type SortedTables = FlatTables<SortedMap<Extent>, SortedMap<[u8; 8]>, SortedMap<()>>;

/// A hash that is the same in each run.
type Fixed = BuildHasherDefault<FoldHasher>;

/// Tables whose labels stand in the buckets of hash tables, which double when they are full. The hash is the same in each
/// run, so whoever chooses the labels can have them all stand in one bucket.
pub type BucketTables = FlatTables<
    BucketMap<Extent, Fixed>,
    BucketMap<[u8; 8], Fixed>,
    BucketMap<(), Fixed>,
>;

/// The same with a hash under keys that are drawn when the tables are made: whoever chooses the labels doesn't know
/// where they stand.
pub type SeededTables = FlatTables<
    BucketMap<Extent, RandomState>,
    BucketMap<[u8; 8], RandomState>,
    BucketMap<(), RandomState>,
>;

impl SortedTables {
    /// Tables of nothing. Takes no memory.
    pub fn new(alloc: Global) -> Self
        ensures { result.contents ≡ no_contents }
    {
        FlatTables::over(
            alloc,
            SortedMap::new(alloc),
            SortedMap::new(alloc),
            SortedMap::new(alloc),
        )
    }
}

impl BucketTables {
    /// Tables of nothing. Takes no memory.
    pub fn new(alloc: Global) -> Self
        ensures { result.contents ≡ no_contents }
    {
        FlatTables::over(
            alloc,
            BucketMap::new(alloc, Fixed::new()),
            BucketMap::new(alloc, Fixed::new()),
            BucketMap::new(alloc, Fixed::new()),
        )
    }
}

impl SeededTables {
    /// Tables of nothing, whose hashes are under these keys. Takes no memory.
    pub fn new(alloc: Global, keys: RandomState) -> Self
        ensures { result.contents ≡ no_contents }
    {
        FlatTables::over(
            alloc,
            BucketMap::new(alloc, keys),
            BucketMap::new(alloc, keys),
            BucketMap::new(alloc, keys),
        )
    }
}
