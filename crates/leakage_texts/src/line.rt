ghost use Rattle.std.specs.Prelude.{◌≡◌, ◌++◌, IfOk, OnOk, string_bytes};
ghost use Rattle.leakage_frames.specs.Views.{leak_view};
ghost use Rattle.leakage_texts.specs.LeakTexts.{leak_text, setup_text, text_of_leak};

use crate::numbers::plural;
use crate::search::{SearchParts, push_search};
use crate::update::push_update;
use leakage_frames::Leak;
use std::alloc::{AllocError, Global};

// Promise P45 (caller): The line of a leakage item is the one that docs/FORMATS.md gives for it.
//   clauses: ensures; not: That items with different fields have different lines. For a word sent first, the line doesn't say whether an entry or a number is sent.
/// The line of what a command leaks, its end (byte 0a) included, behind the command's number; the setup is command 0. It takes
/// time and memory in proportion to the line.
pub fn leak_line(alloc: Global, command: u32, leak: &Leak) -> Result<String, AllocError>
    ensures { IfOk result (λ line. string_bytes line ≡ text_of_leak command (leak_view leak.now)) }
{
    let mut line = format!(in alloc; "{command}: ")?;
    push_leak(alloc, &mut line, leak)?;
    line.push_str("\n")?;
    Ok(line)
}

/// Puts what stands behind the number at the end of the line.
fn push_leak(alloc: Global, line: &mut String, leak: &Leak) -> Result<(), AllocError>
    ensures { OnOk result (string_bytes line.new ≡ string_bytes line.old ++ leak_text (leak_view leak.now)) }
{
    match leak {
        Leak::Setup {
            b,
            big,
            words,
            blocks,
        } => {
            let setup = setup_line(alloc, *b, *big, *words, *blocks)?;
            line.push_str(setup.as_str())
        }
        Leak::Add { words } => push_update(alloc, line, "adds", words.as_slice()),
        Leak::Delete { words } => push_update(alloc, line, "deletes", words.as_slice()),
        Leak::Search {
            earlier,
            home,
            listed,
            found,
        } => {
            let parts = SearchParts {
                earlier: *earlier,
                home,
                listed: listed.as_slice(),
                found: found.as_slice(),
            };
            push_search(alloc, line, &parts)
        }
    }
}

/// What stands behind the number of a setup.
fn setup_line(
    alloc: Global,
    b: u16,
    big: u16,
    words: u32,
    blocks: u32,
) -> Result<String, AllocError>
    ensures { IfOk result (λ text. string_bytes text ≡ setup_text (record { b = b; big = big }) words blocks) }
{
    let entries_are = plural(u64::from(words), "entry", "entries");
    let blocks_are = plural(u64::from(blocks), "block", "blocks");
    format!(in alloc;
        "sets up an index of {words} {entries_are} and {blocks} {blocks_are}, b {b}, B {big}"
    )
}
