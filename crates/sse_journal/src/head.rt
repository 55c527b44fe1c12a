ghost use Rattle.std.specs.Prelude.{◌≡◌, ◌+◌, ◌<◌, ℕ, List, length, take};
ghost use Rattle.sse_journal.specs.Heads.{IsHead};

/// The longest payload of a record, in bytes.
pub const MAX_PAYLOAD: u32 = 1 << 27;

/// What stands at a place of the file where a record may begin: at a commit byte.
#[derive(Clone, Copy, Debug, PartialEq, Eq)]
pub(crate) enum Head {
    /// The end of the records: this commit byte, which isn't set, by its value or as the last byte of the file.
    End(u8),
    /// A record whose payload has so many bytes.
    Record(u32),
    /// A commit byte that is set, with no whole record and next commit byte after it.
    Bad,
}

/// Reads the first bytes at such a place, at most five, where `left` bytes are left of the file.
pub(crate) fn look(head: &[u8], left: u64) -> Head
    requires some { 0 < left }
    ensures within { (n : ℕ) → result ≡ Head.Record n → 5 + n < left }
    ensures is { (rest : List ℕ) → length rest ≡ left → head.now ≡ take 5 rest → IsHead result rest }
{
    if head.is_empty() {
        return Head::Bad;
    }
    let commit = head[0];
    if commit != 1 || left == 1 {
        return Head::End(commit);
    }
    if head.len() < 5 {
        return Head::Bad;
    }
    let n = u32::from_be_bytes([head[1], head[2], head[3], head[4]]);
    if n == 0 || n > MAX_PAYLOAD || left <= 5 + u64::from(n) {
        return Head::Bad;
    }
    Head::Record(n)
}
