ghost use Rattle.std.specs.Prelude.{◌≡◌, [], ◌∷◌, ◌++◌, codes, decimal, IfOk, OnOk, string_bytes};
ghost use Rattle.std.specs.List.{concat};
ghost use Rattle.hex.specs.Hex.{encode_lower};
ghost use Rattle.sse_script.specs.Texts.{ids_text};
ghost use Rattle.script_world.specs.WorldTexts.{world_shown_view, world_text};

use crate::world_shown::WorldShown;
use itoa::Buffer;
use std::alloc::{AllocError, Global};

/// The bytes of a line as it is printed, its end included.
pub fn line_text(alloc: Global, shown: &WorldShown<'_>) -> Result<String, AllocError>
    ensures { IfOk result (λ text. string_bytes text ≡ world_text (world_shown_view shown.now)) }
{
    match *shown {
        WorldShown::Done => format!(in alloc; "done\n"),
        WorldShown::Nothing => format!(in alloc; "nothing\n"),
        WorldShown::NoMemory => format!(in alloc; "no memory\n"),
        WorldShown::Updated { place } => format!(in alloc; "updated {place}\n"),
        WorldShown::Found { place, ids } => found(alloc, place, ids),
        WorldShown::Sent(bytes) => digits(alloc, "sent ", bytes),
        WorldShown::ClientFile(bytes) => digits(alloc, "client ", bytes),
        WorldShown::ServerFile(bytes) => digits(alloc, "server ", bytes),
    }
}

/// The place of a search, and its identifiers, each after a space; the line's end after it.
fn found(alloc: Global, place: u64, ids: &[u64]) -> Result<String, AllocError>
    ensures { IfOk result (λ text. string_bytes text ≡ concat (codes "found " ∷ decimal place ∷ codes ":" ∷ ids_text ids.now ∷ (10 ∷ []) ∷ [])) }
{
    let mut text = format!(in alloc; "found {place}:")?;
    push_ids(&mut text, ids)?;
    text.push_str("\n")?;
    Ok(text)
}

/// Puts each identifier, after a space, at the end of the text.
fn push_ids(text: &mut String, ids: &[u64]) -> Result<(), AllocError>
    ensures { OnOk result (string_bytes text.new ≡ string_bytes text.old ++ ids_text ids.now) }
{
    let mut digits = Buffer::new();
    for id in ids {
        text.push_str(" ")?;
        text.push_str(digits.format(*id))?;
    }
    Ok(())
}

/// A name, and bytes as hexadecimal digits in lower case; the line's end after them.
fn digits(alloc: Global, name: &str, bytes: &[u8]) -> Result<String, AllocError>
    ensures { IfOk result (λ text. string_bytes text ≡ concat (name.now ∷ encode_lower bytes.now ∷ (10 ∷ []) ∷ [])) }
{
    let digits = hex::encode(alloc, bytes)?;
    format!(in alloc; "{name}{digits}\n")
}
