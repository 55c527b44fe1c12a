ghost use Rattle.std.specs.Prelude.{◌≡◌, ◌<◌, ◌≤◌, ◌^◌};

use std::error::Error;
use std::fmt;

/// The number zero, which is no identifier.
#[derive(Clone, Copy, Debug, PartialEq, Eq)]
pub struct Zero;

impl fmt::Display for Zero {
    ghost use Rattle.std.specs.Prelude.{Some, codes};

    ghost output = { λ _. Some (codes "an identifier is at least 1, not 0") };

    fn fmt<W: fmt::Write>(&self, f: &mut fmt::Formatter<W>) -> fmt::Result {
        f.write_str("an identifier is at least 1, not 0")
    }
}

impl Error for Zero {}

/// The identifier of a document: 1 to 2^64-1.
#[derive(Clone, Copy, PartialEq, Eq, Hash)]
pub struct DocId {
    number: u64,
    pub ghost some: { 1 ≤ number },
    pub ghost fits: { number < 2 ^ 64 },
}

impl DocId {
    ghost use Rattle.std.specs.Prelude.{IfOk, ◌↔◌};
    ghost use Rattle.client_registry.specs.IdNumber.{id_number};

    // Promise P58 (caller): A document has its own identifier and at most 4,096 different words, a setup keeps its limits; a refusal changes nothing.
    //   clauses: ok, zero
    /// The identifier of this number. Error: `Zero` exactly where the number is 0.
    pub fn new(number: u64) -> Result<DocId, Zero>
        ensures ok { IfOk result (λ id. id_number id ≡ number) }
        ensures zero { (result ≡ Err (record {})) ↔ (number ≡ 0) }
    {
        if number == 0 {
            return Err(Zero);
        }
        Ok(DocId { number })
    }

    /// The number.
    pub fn get(&self) -> u64
        ensures number { result ≡ id_number self.now }
        ensures some { 1 ≤ result }
    {
        self.number
    }
}
