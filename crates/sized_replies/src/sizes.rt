ghost use Rattle.std.specs.Prelude.{◌≡◌, ◌+◌, ◌≤◌, length, take, Some, IfSome};
ghost use Rattle.sized_replies.specs.Sizes as sizes;

/// How many bytes the reply in front has, its four length bytes among them; none if the bytes end inside it. A reply
/// whose length is out of its range, which is 1 to `most`, has these four bytes alone.
pub fn size_in_front(most: u32, bytes: &[u8]) -> Option<usize>
    ensures size { result ≡ sizes.size_in_front most bytes.now }
    ensures whole { IfSome result (λ n. n ≤ length bytes.now) }
    ensures one_reply { IfSome result (λ n. sizes.size_in_front most (take n bytes.now) ≡ Some n) }
    ensures least { IfSome result (λ n. 4 ≤ n) }
    ensures most { IfSome result (λ n. n ≤ 4 + most) }
{
    let Some((size, _)) = bytes.split_first_chunk::<4>() else {
        return None;
    };
    let size = u32::from_be_bytes(*size);
    if size == 0 || size > most {
        return Some(4);
    }
    let n = 4 + size as usize;
    if bytes.len() < n {
        return None;
    }
    Some(n)
}
