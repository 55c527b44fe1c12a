ghost use Rattle.std.specs.Prelude.{◌≡◌, ◌<◌, not, length, IfSome, None};
ghost use Rattle.std.specs.FinSet as set;
ghost use Rattle.std.specs.List.{position_from};
ghost use Rattle.sse_frames.specs.Frames.{Rises};
ghost use Rattle.sse_frames.specs.FrameViews.{items_in};
ghost use Rattle.server_tables.specs.Room.{no_room, pieces, HasRoom};
ghost use Rattle.server_core.specs.Step.{with_numbers, without_numbers};

use crate::entries::next_revocation;
use server_tables::Tables;

/// The place of the first number of a frame that is revoked.
pub fn first_revoked<T: Tables>(tables: &T, numbers: &[u8]) -> Option<usize>
    ensures place { result ≡ position_from (λ n. set.contains (T.contents tables.now).revoked n) 0 (items_in 16 numbers.now) }
    ensures within { IfSome result (λ place. place < length (items_in 16 numbers.now)) }
{
    let mut place = 0;
    let mut rest = numbers;
    while let Some((number, behind)) = next_revocation(rest) {
        if tables.is_revoked(number) {
            return Some(place);
        }
        place += 1;
        rest = behind;
    }
    None
}

/// The place of the first number of a frame that isn't revoked.
pub fn first_missing<T: Tables>(tables: &T, numbers: &[u8]) -> Option<usize>
    ensures place { result ≡ position_from (λ n. not (set.contains (T.contents tables.now).revoked n)) 0 (items_in 16 numbers.now) }
    ensures within { IfSome result (λ place. place < length (items_in 16 numbers.now)) }
{
    let mut place = 0;
    let mut rest = numbers;
    while let Some((number, behind)) = next_revocation(rest) {
        if !tables.is_revoked(number) {
            return Some(place);
        }
        place += 1;
        rest = behind;
    }
    None
}

/// Revokes the numbers of a frame, which rise and aren't revoked. Takes no memory.
pub fn revoke_all<T: Tables>(tables: &mut T, numbers: &[u8])
    requires new { position_from (λ n. set.contains (T.contents tables.old).revoked n) 0 (items_in 16 numbers.now) ≡ None }
    requires rises { Rises (items_in 16 numbers.now) }
    requires room { HasRoom (T.room tables.old) (record no_room { revoked = pieces (length (items_in 16 numbers.now)) 16 }) }
    ensures { T.contents tables.new ≡ record (T.contents tables.old) { revoked = with_numbers (T.contents tables.old).revoked (items_in 16 numbers.now) } }
{
    let mut rest = numbers;
    while let Some((number, behind)) = next_revocation(rest) {
        tables.revoke(number).unwrap();
        rest = behind;
    }
}

/// Takes the numbers of a frame, which rise and are revoked, out of those that are. Takes no memory.
pub fn restore_all<T: Tables>(tables: &mut T, numbers: &[u8])
    requires there { position_from (λ n. not (set.contains (T.contents tables.old).revoked n)) 0 (items_in 16 numbers.now) ≡ None }
    requires rises { Rises (items_in 16 numbers.now) }
    ensures { T.contents tables.new ≡ record (T.contents tables.old) { revoked = without_numbers (T.contents tables.old).revoked (items_in 16 numbers.now) } }
{
    let mut rest = numbers;
    while let Some((number, behind)) = next_revocation(rest) {
        tables.restore(number).unwrap();
        rest = behind;
    }
}
