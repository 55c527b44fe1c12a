ghost use Rattle.std.specs.Prelude.{◌≡◌, ◌<◌, length, IfSome, None};
ghost use Rattle.sse_frames.specs.Frames.{Rises, labels_of};
ghost use Rattle.sse_frames.specs.FrameViews.{entries_in};
ghost use Rattle.server_tables.specs.Room.{no_room, pieces, HasRoom};
ghost use Rattle.server_core.specs.Refusal.{first_known};
ghost use Rattle.server_core.specs.Step.{with_entries};

use crate::entries::next_addition;
use server_tables::Tables;

/// The place of the first addition of a frame whose label is among the additions.
pub fn first_added<T: Tables>(tables: &T, entries: &[u8]) -> Option<usize>
    ensures place { result ≡ first_known (T.contents tables.now).additions (entries_in 8 entries.now) }
    ensures within { IfSome result (λ place. place < length (entries_in 8 entries.now)) }
{
    let mut place = 0;
    let mut rest = entries;
    while let Some((label, _sealed, behind)) = next_addition(rest) {
        if tables.plus(label).is_some() {
            return Some(place);
        }
        place += 1;
        rest = behind;
    }
    None
}

/// Puts the additions of a frame, whose labels rise and aren't there, among the others. Takes no memory.
pub fn add_all<T: Tables>(tables: &mut T, entries: &[u8])
    requires new { first_known (T.contents tables.old).additions (entries_in 8 entries.now) ≡ None }
    requires rises { Rises (labels_of (entries_in 8 entries.now)) }
    requires room { HasRoom (T.room tables.old) (record no_room { additions = pieces (length (entries_in 8 entries.now)) 8 }) }
    ensures { T.contents tables.new ≡ record (T.contents tables.old) { additions = with_entries (T.contents tables.old).additions (entries_in 8 entries.now) } }
{
    let mut rest = entries;
    while let Some((label, sealed, behind)) = next_addition(rest) {
        tables.put_plus(label, sealed).unwrap();
        rest = behind;
    }
}
