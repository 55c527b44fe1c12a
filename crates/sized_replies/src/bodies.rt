ghost use Rattle.std.specs.Prelude.{◌≡◌, ◌+◌, ◌≤◌, ◌<◌, ◌++◌, ℕ, List, length, take, Some, IfOk, OnOk, OnErr};
ghost use Rattle.std.specs.Int.{w32, from_be_bytes};
ghost use Rattle.std.specs.Io.KnownBytes.{prepend_known};
ghost use Rattle.sized_replies.specs.Sizes.{size_in_front};
ghost use Rattle.sized_replies.specs.Streams.{EndsInside, IsCutShort, IsDry};

use sse_outside::{Failed, Source};

/// Reads until `out` is full, or the source ends or fails.
fn read_full<S: Source>(source: &mut S, out: &mut [u8]) -> Result<(), Failed>
    ensures full { OnOk result (S.remaining source.old ≡ prepend_known out.new (S.remaining source.new)) }
    ensures dry { OnErr result (IsDry (S.remaining source.new) (S.faults source.old) (S.faults source.new)) }
    ensures cut { OnErr result (IsCutShort (length out.old) (S.remaining source.old) (S.faults source.old) (S.faults source.new)) }
    ensures steady { OnOk result (S.faults source.new ≡ S.faults source.old) }
    ensures long { length out.new ≡ length out.old }
{
    let mut done = 0;
    while done < out.len() {
        let (_, room) = out.split_at_mut(done);
        match source.read(room) {
            Ok(0) | Err(_) => return Err(Failed),
            Ok(count) => done += count,
        }
    }
    Ok(())
}

/// How many bytes follow these length bytes in a reply: none if the length is out of range.
fn body_size(most: u32, head: &[u8; 4]) -> usize
    ensures one_reply { (body : List ℕ) → length body ≡ result → size_in_front most (head.now ++ body) ≡ Some (4 + result) }
    ensures most { result ≤ most }
    ensures size { 0 < result → from_be_bytes w32 head.now ≡ result }
{
    let size = u32::from_be_bytes(*head);
    if size > most {
        return 0;
    }
    size as usize
}

/// Takes one reply out of a source, to the front of `out`, and answers how many bytes it has, its four length bytes among
/// them. A reply whose length is out of its range, which is 1 to `most`, is its four length bytes alone. The error is that the
/// source ended inside the reply, or before it, or failed, and then its count of faults rose; what it had brought is then gone.
pub fn take_reply<S: Source>(source: &mut S, most: u32, out: &mut [u8]) -> Result<usize, Failed>
    requires room { 4 + most ≤ length out.old }
    ensures taken { IfOk result (λ n. S.remaining source.old ≡ prepend_known (take n out.new) (S.remaining source.new)) }
    ensures one_reply { IfOk result (λ n. size_in_front most (take n out.new) ≡ Some n) }
    ensures least { IfOk result (λ n. 4 ≤ n) }
    ensures most { IfOk result (λ n. n ≤ 4 + most) }
    ensures long { length out.new ≡ length out.old }
    ensures dry { OnErr result (IsDry (S.remaining source.new) (S.faults source.old) (S.faults source.new)) }
    ensures inside { OnErr result (EndsInside most (S.remaining source.old) (S.faults source.old) (S.faults source.new)) }
    ensures steady { OnOk result (S.faults source.new ≡ S.faults source.old) }
{
    let mut head = [0; 4];
    read_full(source, &mut head)?;
    let size = body_size(most, &head);
    let (front, rest) = out.split_at_mut(4);
    front.copy_from_slice(&head);
    let (body, _) = rest.split_at_mut(size);
    read_full(source, body)?;
    Ok(4 + size)
}
