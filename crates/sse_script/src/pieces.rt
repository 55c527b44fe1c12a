ghost use Rattle.std.specs.Prelude.{◌≡◌, [], ◌∷◌, ◌++◌, length, take, codes, IfOk, OnOk, string_bytes, decimal};
ghost use Rattle.std.specs.List.{concat};
ghost use Rattle.hex.specs.Hex.{encode_lower};
ghost use Rattle.sse_script.specs.Texts.{ids_text};

use itoa::Buffer;
use std::alloc::{AllocError, Global};

/// A number between two texts.
pub fn one(alloc: Global, front: &str, n: u64, back: &str) -> Result<String, AllocError>
    ensures { IfOk result (λ text. string_bytes text ≡ concat (front.now ∷ decimal n ∷ back.now ∷ [])) }
{
    format!(in alloc; "{front}{n}{back}")
}

/// The first 16 bytes, or all where there are fewer.
pub fn at_most_16(bytes: &[u8]) -> &[u8]
    ensures { result.now ≡ take 16 bytes.now }
{
    if bytes.len() > 16 {
        &bytes[..16]
    } else {
        bytes
    }
}

/// This name, how many identifiers there are, and each after a space; the line's end after it.
pub fn listed(alloc: Global, name: &str, ids: &[u64]) -> Result<String, AllocError>
    ensures { IfOk result (λ text. string_bytes text
        ≡ concat (name.now ∷ decimal (length ids.now) ∷ codes ":" ∷ ids_text ids.now ∷ (10 ∷ []) ∷ [])) }
{
    let count = ids.len();
    let mut text = format!(in alloc; "{name}{count}:")?;
    push_ids(&mut text, ids)?;
    text.push_str("\n")?;
    Ok(text)
}

/// Puts each identifier, after a space, at the end of the text.
fn push_ids(text: &mut String, ids: &[u64]) -> Result<(), AllocError>
    ensures { OnOk result (string_bytes text.new ≡ string_bytes text.old ++ ids_text ids.now) }
{
    let mut digits = Buffer::new();
    for id in ids {
        text.push_str(" ")?;
        text.push_str(digits.format(*id))?;
    }
    Ok(())
}
