ghost use Rattle.std.specs.Prelude.{◌≡◌, ◌∷◌, ◌++◌, [], IfOk, None};
ghost use Rattle.client_registry.specs.Acceptance.{parameter_refusal};
ghost use Rattle.client_registry.specs.Setup.{setup_with};

use client_registry::Sizes;
use std::alloc::{AllocError, Global};

/// What a renewal takes over from the epochs before it: the marks of their keys, the first epoch's first, and the parameters
/// of their index, which are within their limits: `b` numbers in a cell, `big` in a block, and words and blocks filled up to
/// multiples of `pad`.
#[derive(Drop)]
pub struct Past {
    pub marks: Vec<[u8; 16]>,
    pub b: u16,
    pub big: u16,
    pub pad: u16,
    ghost accepted: { parameter_refusal (setup_with [] b big pad) ≡ None },
}

impl Past {
    /// The parameters.
    pub fn sizes(&self) -> Sizes
        ensures b { result.b ≡ self.now.b }
        ensures big { result.big ≡ self.now.big }
        ensures pad { result.pad ≡ self.now.pad }
        ensures accepted { parameter_refusal (setup_with [] self.now.b self.now.big self.now.pad) ≡ None }
    {
        Sizes {
            b: self.b as u64,
            big: self.big as u64,
            pad: self.pad as u64,
        }
    }

    /// The marks of the keys with this one after them.
    pub fn marks_with(&self, alloc: Global, mark: [u8; 16]) -> Result<Vec<[u8; 16]>, AllocError>
        ensures { IfOk result (λ marks. marks.items ≡ self.now.marks.items ++ mark ∷ []) }
    {
        let mut marks = Vec::with_capacity(alloc, self.marks.len() + 1)?;
        marks.extend_from_slice(self.marks.as_slice())?;
        marks.push(mark)?;
        Ok(marks)
    }
}
