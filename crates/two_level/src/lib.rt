//! The two-level layout of one word's list: a dictionary cell and, if the list is too long for it, blocks of an
//! array. A short list is in the cell itself, a longer one in data blocks that the cell points to, the longest in
//! data blocks that pointer blocks point to. A `Shape` is the two parameters within their limits; `Shape::plan` says
//! how a list is laid out; `lay_cell` and `lay_block` write in place and take no memory; `read_cell` and `read_block`
//! read, or refuse by the first fault. Pointers are compared only with the number of blocks: a search doesn't need
//! them to differ. It depends on `list_packing`, and knows no word and no key, since client and server both use it.
//! Proved: a list that was laid out is read back as the same list (`opened-laid`), and no cell or block of it is
//! refused (`cell_fault-laid`, `block_fault-laid`).
//! Side: both.
#![tactic(auto)]

mod cell_fault;
mod cell_read;
mod cell_reader;
mod cell_writer;
mod layout;
mod planned;
mod shape;
mod shape_fault;
mod too_long;

pub use cell_fault::CellFault;
pub use cell_read::CellRead;
pub use cell_reader::{number_at, read_block, read_cell};
pub use cell_writer::{lay_block, lay_cell};
pub use layout::plan;
pub use planned::Plan;
pub use shape::Shape;
pub use shape_fault::ShapeFault;
pub use too_long::ListTooLong;
