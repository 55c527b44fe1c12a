ghost use Rattle.std.specs.Prelude.{◌≡◌, ◌≤◌, ◌⊎◌, ℕ, List, [], IfSome};
ghost use Rattle.vault_shelf.specs.Shelves.{VaultCommand};
ghost use Rattle.doc_vault.specs.Counts.{Counts, KeepsCounts, with_link, with_sink, with_source};
ghost use Rattle.doc_vault.specs.Sights.{sight_of};
ghost use Rattle.keyed_fn.specs.KeyedFn.{keyed_fn};
ghost use Rattle.keyed_fn.specs.VaultFormulas.{vault_secrets};
ghost use Rattle.sse_script.specs.TextLines.{lines_left};
ghost use Rattle.vault_restore.specs.KeyScripts.{KeyAlone, key_script};
ghost use Rattle.vault_restore.specs.LeftInOrder.{IsLeftInOrder};
ghost use Rattle.vault_restore.specs.WholeRestores.{BringsBack, IsRestore, RestoresScript, TellsRestore, prints};

use crate::key_script::script_key;
use crate::restore::restore_texts;
use keyed_fn::Keyed;
use sse_outside::{Sink, Source};
use std::alloc::Global;
use vault_link::VaultLink;
use vault_script::{VaultStop, finish_vault};

/// Restores under the key of a script.
fn restore_script<K: Keyed, L: VaultLink, S: Source, W: Sink>(
    alloc: Global,
    keyed: &K,
    link: &mut L,
    source: &mut S,
    sink: &mut W,
) -> Result<bool, VaultStop>
    ensures restores { RestoresScript (keyed_fn K.prf K.pad) (lines_left [] (S.remaining source.old))
        (record { link = sight_of (L.transcript link.old) (L.remote link.old); written = W.written sink.old })
        (record { link = sight_of (L.transcript link.new) (L.remote link.new); written = W.written sink.new }) result }
    ensures counts { (others : Counts) → KeepsCounts (with_source (S.faults source.old) (with_link (L.faults link.old) (with_sink (W.faults sink.old) (W.shortages sink.old) others)))
        (with_source (S.faults source.new) (with_link (L.faults link.new) (with_sink (W.faults sink.new) (W.shortages sink.new) others))) result }
{
    let key = script_key(alloc, source)?;
    restore_texts(alloc, keyed, &key, link, sink)
}

// Promise P281 (user): A restore does what its script says: one key line, and otherwise only empty lines; any other line stops it, with nothing sent or printed.
//   clauses: run; fields: IsRestore.runs, IsRestore.link, IsRestore.printed, IsRestore.line, IsRestore.status_is; assumes: observable devices
// Promise P282 (user): A restore's status is 3 or 5 if and only if that device's fault count rose, and 4 only if the sink's did.
//   clauses: devices, known; fields: TellsRestore.source_failed, TellsRestore.source_steady, TellsRestore.link_failed, TellsRestore.link_steady, TellsRestore.sink_failed, TellsRestore.sink_steady
// Promise P283 (user): From a vault with identifiers in order, a restore prints the live texts in put order, unless a device fails or memory runs out.
//   clauses: brings; fields: BringsBack.fair, BringsBack.texts; assumes: observable devices, honest link
/// Brings back every text of a vault. The script from the source is one `key` line, and otherwise only empty lines; it is read to its
/// end before anything is sent. Then `restore_texts` prints the texts. After a stop the last line says why. Nothing is kept: no
/// journal is read or made, and no update is sent.
///
/// The status: 0 if every text came back, 1 if the tag of one was wrong; 2 for a line that may not stand in the script; 3 if the source
/// failed, 4 if the sink did, 5 if the link did or the server's disk; 7 out of memory; 9 for a reply that isn't possible, or a number of
/// updates that doesn't fit the texts.
pub fn vault_restore<K: Keyed, L: VaultLink, S: Source, W: Sink>(
    alloc: Global,
    keyed: &K,
    link: &mut L,
    source: &mut S,
    sink: &mut W,
) -> u8
    ensures run { IsRestore (keyed_fn K.prf K.pad) (lines_left [] (S.remaining source.old))
        (record { link = sight_of (L.transcript link.old) (L.remote link.old); written = W.written sink.old })
        (record { link = sight_of (L.transcript link.new) (L.remote link.new); written = W.written sink.new })
        (prints (W.written sink.new) (W.faults sink.new) (W.shortages sink.new)) result }
    ensures devices { TellsRestore (S.faults source.old) (S.faults source.new) (L.faults link.old) (L.faults link.new) (W.faults sink.old) (W.faults sink.new) result }
    ensures known { (result ≤ 5) ⊎ ((result ≡ 7) ⊎ (result ≡ 9)) }
    ensures brings { IfSome (lines_left [] (S.remaining source.old)) (λ lines. IfSome (L.remote link.old) (λ before. (key : List ℕ) (cs : List VaultCommand) → key_script lines ≡ KeyAlone key →
        IsLeftInOrder (keyed_fn K.prf K.pad) (vault_secrets (keyed_fn K.prf K.pad) key) before.state cs → BringsBack (W.written sink.old) (W.written sink.new) cs result)) }
{
    match restore_script(alloc, keyed, link, source, sink) {
        Ok(forged) => u8::from(forged),
        Err(stop) => finish_vault(sink, stop),
    }
}
