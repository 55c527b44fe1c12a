ghost use Rattle.std.specs.Prelude.{◌≡◌, ◌≤◌, ◌<◌, ◌+◌, ◌*◌, ◌^◌, [], option_map, None, Some, true, length, IfOk, IfErr, IfSome, IsOk};
ghost use Rattle.std.specs.Result.{result_err};
ghost use Rattle.two_level.specs.Plan as layout;
ghost use Rattle.client_registry.specs.Acceptance as counts;
ghost use Rattle.client_registry.specs.Setup.{setup_of, setup_with, setup_words};

use crate::collected::Docs;
use crate::faults::SizeFault;
use crate::limits::MAX_INDEX_BYTES;
use crate::sizes::Sizes;
use two_level::Shape;

/// How large an index is.
#[derive(Clone, Copy)]
pub struct Size {
    /// Its parameters, within their limits.
    pub shape: Shape,
    /// Q, up to multiples of which dummies are added: a power of two from 1 to 4,096.
    pub pad: u16,
    /// How many different words.
    pub words: u32,
    /// How many blocks their lists take.
    pub blocks: u32,
    /// How many entries its dictionary has, which are those of the words and the dummies.
    pub padded_words: u32,
    /// How many blocks its array has, which are those of the lists and the dummies.
    pub padded_blocks: u32,
}

// Promise P71 (caller): The size of a setup is its index's, with and without dummies, or the first cause why there is none.
//   clauses: shape, pad, words, blocks, padded_words, padded_blocks, refused, accepted
/// The size of the index of these documents with these parameters: with m words and a blocks, and m2 and a2 the next
/// multiples of Q (zero stays zero), it has m2·(17 + 8·b) + a2·8·B bytes, at most 2^28.
///
/// Errors, the first that applies:
/// - `BadParameter { which: 0, value: b }` if b is outside 1 to 64;
/// - `BadParameter { which: 1, value: B }` if B is outside 1 to 256;
/// - `BadParameter { which: 2, value: Q }` if Q isn't a power of two from 1 to 4,096;
/// - `ListTooLong { word, n }` for the least word number whose list, of n identifiers, has no plan;
/// - `TooManyBytes(count)`.
///
/// It takes no memory.
pub fn size_of(docs: &Docs, sizes: Sizes) -> Result<Size, SizeFault>
    ensures shape { IfOk result (λ size. size.shape ≡ record { b = sizes.b; big = sizes.big }) }
    ensures pad { IfOk result (λ size. size.pad ≡ sizes.pad) }
    ensures words { IfOk result (λ size. size.words ≡ length (setup_words (setup_with docs.now.documents sizes.b sizes.big sizes.pad))) }
    ensures blocks { IfOk result (λ size. size.blocks ≡ counts.blocks_of (setup_with docs.now.documents sizes.b sizes.big sizes.pad)) }
    ensures padded_words { IfOk result (λ size. size.padded_words ≡ counts.padded_words (setup_with docs.now.documents sizes.b sizes.big sizes.pad)) }
    ensures padded_blocks { IfOk result (λ size. size.padded_blocks ≡ counts.padded_blocks (setup_with docs.now.documents sizes.b sizes.big sizes.pad)) }
    ensures refused { IfSome (counts.size_refusal (setup_with docs.now.documents sizes.b sizes.big sizes.pad)) (λ fault. result ≡ Err fault) }
    ensures accepted { counts.size_refusal (setup_with docs.now.documents sizes.b sizes.big sizes.pad) ≡ None → IsOk result }
{
    let Sizes { b, big, pad } = sizes;
    let shape = shape_of(sizes)?;
    let words = docs.words() as u64;
    let blocks = count_blocks(docs, shape)?;
    let padded_words = padded(pad, words);
    let padded_blocks = padded(pad, blocks);
    let bytes = padded_words * (17 + 8 * b) + padded_blocks * (8 * big);
    if bytes > MAX_INDEX_BYTES {
        return Err(SizeFault::TooManyBytes(bytes));
    }
    Ok(Size {
        shape,
        pad: pad as u16,
        words: words as u32,
        blocks: blocks as u32,
        padded_words: padded_words as u32,
        padded_blocks: padded_blocks as u32,
    })
}

/// The shape of these parameters if all three are within their limits, else the first that isn't.
fn shape_of(sizes: Sizes) -> Result<Shape, SizeFault>
    ensures shape { IfOk result (λ shape. shape ≡ record { b = sizes.b; big = sizes.big }) }
    ensures limits { IfOk result (λ _. (sizes.b ≤ 64) × (sizes.big ≤ 256)) }
    ensures pad { IfOk result (λ _. counts.is_pad sizes.pad ≡ true) }
    ensures refused { result_err result ≡ counts.parameter_refusal (setup_with [] sizes.b sizes.big sizes.pad) }
{
    let shape = Shape::new(sizes.b, sizes.big)?;
    if is_pad(sizes.pad) {
        Ok(shape)
    } else {
        Err(SizeFault::BadParameter {
            which: 2,
            value: sizes.pad,
        })
    }
}

/// Whether it is a power of two from 1 to 4,096.
fn is_pad(pad: u64) -> bool
    ensures { result ≡ counts.is_pad pad }
{
    matches!(
        pad,
        1 | 2 | 4 | 8 | 16 | 32 | 64 | 128 | 256 | 512 | 1024 | 2048 | 4096
    )
}

/// The next multiple of `pad` that is at least `n`.
fn padded(pad: u64, n: u64) -> u64
    requires positive { 0 < pad }
    requires fits { n + pad < 2 ^ 64 }
    ensures multiple { result ≡ counts.padded pad n }
    ensures least { n ≤ result }
    ensures within { result < n + pad }
{
    n.div_ceil(pad) * pad
}

/// How many blocks the lists of all words take, or the first list that is too long.
fn count_blocks(docs: &Docs, shape: Shape) -> Result<u64, SizeFault>
    ensures blocks { IfOk result (λ blocks. blocks ≡ counts.blocks_of (setup_of docs.now.documents shape.b shape.big)) }
    ensures within { IfOk result (λ blocks. blocks ≤ 2 ^ 40) }
    ensures fit { IfOk result (λ _. counts.list_refusal (setup_of docs.now.documents shape.b shape.big) ≡ None) }
    ensures too_long { IfErr result (λ fault. counts.list_refusal (setup_of docs.now.documents shape.b shape.big) ≡ Some fault) }
{
    let mut blocks = 0;
    for word in 0..docs.words() {
        let n = docs.list_len(word);
        let Some(more) = list_blocks(n, shape) else {
            return Err(SizeFault::ListTooLong {
                word: word as u32,
                n: u64::from(n),
            });
        };
        blocks += more;
    }
    Ok(blocks)
}

/// How many blocks a list of n identifiers takes, where it isn't too long.
fn list_blocks(n: u32, shape: Shape) -> Option<u64>
    requires { 1 ≤ n }
    ensures planned { result ≡ option_map (λ p. p.pointer_blocks + p.data_blocks) (layout.plan shape n) }
    ensures within { IfSome result (λ blocks. blocks ≤ 2 * n + 3) }
{
    match shape.plan(u64::from(n)) {
        Ok(plan) => Some(u64::from(plan.pointer_blocks) + u64::from(plan.data_blocks)),
        Err(_) => None,
    }
}
