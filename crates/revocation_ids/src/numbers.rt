ghost use Rattle.std.specs.Prelude.{◌≡◌, ◌≤◌, ◌^◌, ◌++◌, ◌∷◌, [], IfOk, List, OnErr, OnOk, ℕ, length, map};
ghost use Rattle.client_registry.specs.IdNumber.{id_number};
ghost use Rattle.keyed_fn.specs.KeyedFn.{keyed_fn};
ghost use Rattle.keyed_fn.specs.KeyFormulas.{revocation};
ghost use Rattle.sse_frames.specs.Order.{by_bytes};
ghost use Rattle.client_tag_order.specs.Tagged.{IsOrderOf, tagged_from};

use client_registry::DocId;
use client_tag_order::{Tagged, by_tag};
use keyed_fn::Keyed;
use std::alloc::{AllocError, Global};
use std::marker::Model;
use word_keys::RevocationKey;

/// Revocation numbers, in the order in which their keys were given.
#[derive(Drop)]
pub struct Numbers {
    given: Vec<[u8; 16]>,
}

impl Model for Numbers {
    ghost Value = { List (List ℕ) };

    ghost view = { λ n. n.given.items };
}

impl Numbers {
    /// None yet, with memory for so many.
    pub fn new(alloc: Global, count: usize) -> Result<Numbers, AllocError>
        ensures { IfOk result (λ numbers. numbers ≡ []) }
    {
        let given = Vec::with_capacity(alloc, count)?;
        Ok(Numbers { given })
    }

    // Promise P65 (caller): Revocation numbers are those of the key formula, sorted by rising bytes, each with its position.
    //   clauses: ok; assumes: sizes in bounds
    /// Appends an identifier's number under a word's key. Where there is no memory, nothing has changed.
    pub fn push<K: Keyed>(
        &mut self,
        keyed: &K,
        key: &RevocationKey,
        id: DocId,
    ) -> Result<(), AllocError>
        ensures ok { OnOk result (self.new ≡ self.old ++ revocation (keyed_fn K.prf K.pad) key.now (id_number id) ∷ []) }
        ensures err { OnErr result (self.new ≡ self.old) }
    {
        self.given.push(key.number(keyed, id.get()))?;
        Ok(())
    }

    // Promise P65, also here; clauses: order, numbers
    /// The numbers by rising bytes, as they are sent, each with its position here, from 0. `client_tag_order::first_clash` says which
    /// two of them are equal, without memory.
    pub fn sorted(self) -> Result<Vec<Tagged>, AllocError>
        requires { length self ≤ 2 ^ 32 }
        ensures order { IfOk result (λ sorted. IsOrderOf self sorted.items) }
        ensures numbers { IfOk result (λ sorted. map (λ e. e.tag) sorted.items ≡ by_bytes (λ number. number) self) }
    {
        by_tag(tagged(*self.given.allocator(), self.given.as_slice())?)
    }
}

/// Each number with its position.
fn tagged(alloc: Global, numbers: &[[u8; 16]]) -> Result<Vec<Tagged>, AllocError>
    requires { length numbers.now ≤ 2 ^ 32 }
    ensures { IfOk result (λ tagged. tagged.items ≡ tagged_from 0 numbers.now) }
{
    let mut tagged = Vec::with_capacity(alloc, numbers.len())?;
    for (i, number) in numbers.iter().enumerate() {
        tagged.push(Tagged {
            tag: *number,
            position: i as u32,
        })?;
    }
    Ok(tagged)
}
