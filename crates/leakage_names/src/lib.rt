//! Values by name: the names of everything that a history sends and looks up, and a finite table of their values. A
//! name says what a value is of, not its bytes, and gives a word only by its number; so a table of values holds no
//! word. The table is ordered and takes no hash keys, so chosen identifiers can't make it slow. The crate depends on
//! no other; which names a history has is said in `leakage_values`.
//! Proved: `Sheet::set` gives one name its value and leaves every other name as it was; `Sheet::get` returns the
//! value given last.
//! Side: client.
#![tactic(auto)]

mod name;
mod sheet;

pub use name::{NO_WORD, Name, NameKind};
pub use sheet::Sheet;
