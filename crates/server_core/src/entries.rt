ghost use Rattle.std.specs.Prelude.{◌≡◌, ◌<◌, ◌^◌, ◌*◌, ◌+◌, [], ◌∷◌, length, MatchOption};
ghost use Rattle.sse_frames.specs.FrameViews.{entries_in, items_in};

/// The label and the cell of the first entry among joined ones whose cells have `width` bytes, and the
/// bytes after it. `None` where there isn't a whole entry.
pub fn next_entry(bytes: &[u8], width: usize) -> Option<(&[u8; 16], &[u8], &[u8])>
    ensures entries { MatchOption result (entries_in width bytes.now ≡ [])
        (λ e. entries_in width bytes.now ≡ record { label = e.0.now; text = e.1.now } ∷ entries_in width e.2.now) }
    ensures sizes { MatchOption result (length bytes.now < 16 + width)
        (λ e. (length e.1.now ≡ width) × (length e.2.now < length bytes.now)) }
{
    let Some((label, behind)) = bytes.split_first_chunk::<16>() else {
        return None;
    };
    let Some((cell, rest)) = behind.split_at_checked(width) else {
        return None;
    };
    Some((label, cell, rest))
}

/// How many whole entries the joined bytes hold, whose cells have `width` bytes.
pub fn entry_count(bytes: &[u8], width: u16) -> usize
    ensures count { result ≡ length (entries_in width bytes.now) }
    ensures cells { result * width < 2 ^ 64 }
{
    bytes.len() / (16 + usize::from(width))
}

/// The label and the encrypted identifier of the first addition among joined ones, and the bytes after it. `None`
/// where there isn't a whole addition.
pub fn next_addition(bytes: &[u8]) -> Option<(&[u8; 16], &[u8; 8], &[u8])>
    ensures entries { MatchOption result (entries_in 8 bytes.now ≡ [])
        (λ e. entries_in 8 bytes.now ≡ record { label = e.0.now; text = e.1.now } ∷ entries_in 8 e.2.now) }
    ensures sizes { MatchOption result (length bytes.now < 24) (λ e. length e.2.now < length bytes.now) }
{
    let Some((label, behind)) = bytes.split_first_chunk::<16>() else {
        return None;
    };
    let Some((sealed, rest)) = behind.split_first_chunk::<8>() else {
        return None;
    };
    Some((label, sealed, rest))
}

/// The first of the joined revocation numbers of 16 bytes, and the bytes after it. `None` where there isn't a whole
/// one.
pub fn next_revocation(bytes: &[u8]) -> Option<(&[u8; 16], &[u8])>
    ensures items { MatchOption result (items_in 16 bytes.now ≡ []) (λ e. items_in 16 bytes.now ≡ e.0.now ∷ items_in 16 e.1.now) }
    ensures sizes { MatchOption result (length bytes.now < 16) (λ e. length e.1.now < length bytes.now) }
{
    let Some((number, rest)) = bytes.split_first_chunk::<16>() else {
        return None;
    };
    Some((number, rest))
}

/// The first of the joined blocks of `width` bytes, and the bytes after it. `None` where there isn't a whole one.
pub fn next_block(bytes: &[u8], width: usize) -> Option<(&[u8], &[u8])>
    requires { 0 < width }
    ensures items { MatchOption result (items_in width bytes.now ≡ []) (λ e. items_in width bytes.now ≡ e.0.now ∷ items_in width e.1.now) }
    ensures sizes { MatchOption result (length bytes.now < width) (λ e. (length e.0.now ≡ width) × (length e.1.now < length bytes.now)) }
{
    let Some((block, rest)) = bytes.split_at_checked(width) else {
        return None;
    };
    Some((block, rest))
}

/// How many whole items of `size` bytes the joined bytes hold.
pub fn item_count(bytes: &[u8], size: u16) -> usize
    requires { 0 < size }
    ensures { result ≡ length (items_in size bytes.now) }
{
    bytes.len() / usize::from(size)
}
