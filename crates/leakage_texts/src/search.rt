ghost use Rattle.std.specs.Prelude.{◌≡◌, ◌++◌, IfOk, OnOk, Some, flat_map, map, option_map, string_bytes};
ghost use Rattle.leakage_frames.specs.Views.{home_view, listed_view, origin_view};
ghost use Rattle.leakage_texts.specs.LeakTexts.{blocks_text, earlier_text, found_text, home_text, number_text, origin_text, pair_text, revoked_text, search_text, some_blocks_text};

use crate::numbers::{push_numbers, push_positions};
use leakage_frames::{Home, ListedLeak, Origin};
use std::alloc::{AllocError, Global};

/// What a search shows, lent.
#[derive(Clone, Copy)]
pub(crate) struct SearchParts<'a> {
    pub(crate) earlier: Option<u32>,
    pub(crate) home: &'a Option<Home>,
    pub(crate) listed: &'a [ListedLeak],
    pub(crate) found: &'a [u64],
}

/// Puts what a search shows at the end of the line.
pub(crate) fn push_search(
    alloc: Global,
    line: &mut String,
    parts: &SearchParts<'_>,
) -> Result<(), AllocError>
    ensures { OnOk result (string_bytes line.new ≡ string_bytes line.old ++ search_text parts.now.earlier (option_map home_view parts.now.home.now) (map listed_view parts.now.listed.now) parts.now.found.now) }
{
    push_earlier(alloc, line, parts.earlier)?;
    push_home(alloc, line, parts.home)?;
    push_listed(alloc, line, parts.listed)?;
    push_found(alloc, line, parts.found)
}

/// Puts whether the word was searched before at the end of the line.
fn push_earlier(alloc: Global, line: &mut String, earlier: Option<u32>) -> Result<(), AllocError>
    ensures { OnOk result (string_bytes line.new ≡ string_bytes line.old ++ earlier_text earlier) }
{
    match earlier {
        None => line.push_str("searches a word for the first time"),
        Some(command) => {
            let part = format!(in alloc; "searches the word of command {command} again")?;
            line.push_str(part.as_str())
        }
    }
}

/// Puts where the setup holds the word at the end of the line.
fn push_home(alloc: Global, line: &mut String, home: &Option<Home>) -> Result<(), AllocError>
    ensures { OnOk result (string_bytes line.new ≡ string_bytes line.old ++ home_text (option_map home_view home.now)) }
{
    match home {
        None => line.push_str("; no word of the setup"),
        Some(home) => {
            let entry = home.entry;
            let part = format!(in alloc; "; entry {entry} of the setup")?;
            line.push_str(part.as_str())?;
            push_blocks(line, home.blocks.as_slice())
        }
    }
}

/// Puts the positions of a list's blocks at the end of the line.
fn push_blocks(line: &mut String, blocks: &[u32]) -> Result<(), AllocError>
    ensures { OnOk result (string_bytes line.new ≡ string_bytes line.old ++ blocks_text blocks.now) }
{
    if blocks.is_empty() {
        return line.push_str(" without blocks");
    }
    push_some_blocks(line, blocks)
}

/// The same where there are some.
fn push_some_blocks(line: &mut String, blocks: &[u32]) -> Result<(), AllocError>
    ensures { OnOk result (string_bytes line.new ≡ string_bytes line.old ++ some_blocks_text blocks.now) }
{
    line.push_str(" with blocks")?;
    push_positions(line, blocks)
}

/// Puts each pair that is listed with the word at the end of the line.
fn push_listed(alloc: Global, line: &mut String, listed: &[ListedLeak]) -> Result<(), AllocError>
    ensures { OnOk result (string_bytes line.new ≡ string_bytes line.old ++ flat_map pair_text (map listed_view listed.now)) }
{
    for pair in listed {
        push_pair(alloc, line, pair)?;
    }
    Ok(())
}

/// Puts a pair at the end of the line.
fn push_pair(alloc: Global, line: &mut String, pair: &ListedLeak) -> Result<(), AllocError>
    ensures { OnOk result (string_bytes line.new ≡ string_bytes line.old ++ pair_text (listed_view pair.now)) }
{
    push_origin(alloc, line, pair.id, pair.origin)?;
    push_number(alloc, line, pair.number)?;
    push_revoked(line, pair.revoked)
}

/// Puts an identifier with what listed it at the end of the line.
fn push_origin(alloc: Global, line: &mut String, id: u64, origin: Origin) -> Result<(), AllocError>
    ensures { OnOk result (string_bytes line.new ≡ string_bytes line.old ++ origin_text id (origin_view origin)) }
{
    let (command, place) = (origin.command, origin.place);
    let part = format!(in alloc; "; document {id}, listed by command {command} (place {place})")?;
    line.push_str(part.as_str())
}

/// Puts where a revocation number was first sent at the end of the line.
fn push_number(alloc: Global, line: &mut String, number: Option<Origin>) -> Result<(), AllocError>
    ensures { OnOk result (string_bytes line.new ≡ string_bytes line.old ++ number_text (option_map origin_view number)) }
{
    match number {
        None => Ok(()),
        Some(origin) => push_sent(alloc, line, origin),
    }
}

/// The same where it was sent.
fn push_sent(alloc: Global, line: &mut String, origin: Origin) -> Result<(), AllocError>
    ensures { OnOk result (string_bytes line.new ≡ string_bytes line.old ++ number_text (Some (origin_view origin))) }
{
    let (command, place) = (origin.command, origin.place);
    let part = format!(in alloc; ", its number by command {command} (place {place})")?;
    line.push_str(part.as_str())
}

/// Puts whether a pair is revoked at the end of the line.
fn push_revoked(line: &mut String, revoked: bool) -> Result<(), AllocError>
    ensures { OnOk result (string_bytes line.new ≡ string_bytes line.old ++ revoked_text revoked) }
{
    if revoked {
        line.push_str(", deleted")
    } else {
        Ok(())
    }
}

/// Puts what a search finds at the end of the line.
fn push_found(alloc: Global, line: &mut String, found: &[u64]) -> Result<(), AllocError>
    ensures { OnOk result (string_bytes line.new ≡ string_bytes line.old ++ found_text found.now) }
{
    let count = found.len();
    let part = format!(in alloc; "; finds {count}:")?;
    line.push_str(part.as_str())?;
    push_numbers(line, found)
}
