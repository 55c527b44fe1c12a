//! HMAC-SHA-256 (FIPS 198-1) on eight lanes: the codes of eight texts are computed side by side, each under a key of its
//! own. It depends on `sha256_lanes` for the block function, and on `hmac_sha256` and `sha2` for the definitions. The keys have
//! 32 bytes, as codes do, and are prepared together: the hash values behind their blocks are kept, so that a
//! text costs two calls of the block function for all eight.
//! Proved: in each lane, a code is `hmac_of` of the key and the text in that lane.
//! Not here: keys of another length, and texts of more than 55 bytes, which need a further block. `hmac_sha256` has both.
//! Side: both.
#![tactic(auto)]

mod blocks;
mod hash_values;
mod lane_keys;

pub use lane_keys::LaneKeys;
