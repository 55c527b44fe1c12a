ghost use Rattle.std.specs.Prelude.{◌≡◌, ◌+◌, ◌%◌, ◌<◌, [], ◌∷◌, length, MatchOption};
ghost use Rattle.two_level.specs.Opened.{numbers_of};

/// The first of the joined numbers of 8 bytes, and the bytes after it.
pub fn next_number(bytes: &[u8]) -> Option<(u64, &[u8])>
    requires { length bytes.now % 8 ≡ 0 }
    ensures numbers { MatchOption result (numbers_of bytes.now ≡ []) (λ n. numbers_of bytes.now ≡ n.0 ∷ numbers_of n.1.now) }
    ensures fewer { MatchOption result (length bytes.now < 8) (λ n. length n.1.now + 8 ≡ length bytes.now) }
{
    let Some((number, behind)) = bytes.split_first_chunk::<8>() else {
        return None;
    };
    Some((u64::from_be_bytes(*number), behind))
}
