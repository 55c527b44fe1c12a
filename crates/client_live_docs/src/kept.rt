ghost use Rattle.std.specs.Prelude.{◌≡◌, ◌≤◌, IfSome, length, option_map};
ghost use Rattle.client_live_docs.specs.LiveAfter.{other_live, command_in};
ghost use Rattle.client_registry.specs.IdNumber.{id_number};
ghost use Rattle.client_registry.specs.Numbered.{words_by_number};
ghost use Rattle.client_registry.specs.Registered.{facts, known_words};

use crate::pending_update::{PendingUpdate, is_touched};
use client_registry::{DocId, MAX_WORDS, Numbered, Registry};

/// The live document of an identifier that the registry has, if the update isn't of the same identifier.
pub(crate) fn other_live<'a>(
    registry: &'a Registry,
    pending: Option<&PendingUpdate<'_>>,
    id: DocId,
) -> Option<Numbered<'a>>
    ensures live { option_map (λ d. words_by_number (known_words registry.now) d.numbers.now) result ≡ other_live (facts registry.now) (command_in pending.entry) (id_number id) }
    ensures few { IfSome result (λ doc. length doc.numbers.now ≤ MAX_WORDS) }
{
    if is_touched(pending, id) {
        return None;
    }
    registry.get(id)
}
