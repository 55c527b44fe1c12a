ghost use Rattle.std.specs.Prelude.{◌≡◌, ◌+◌, ◌≤◌, ◌++◌, length, take, drop};
ghost use Rattle.std.specs.Counts.{IsPrefixLen};

/// Copies the bytes from place `at` on to the front of `out`, as many as fit, and answers how many.
pub fn hand_out(bytes: &[u8], at: usize, out: &mut [u8]) -> usize
    requires { at ≤ length bytes.now }
    ensures bound { IsPrefixLen result out.new }
    ensures front { take result out.new ≡ take (length out.new) (drop at bytes.now) }
    ensures rest { drop at bytes.now ≡ take result out.new ++ drop (at + result) bytes.now }
{
    let (_, left) = bytes.split_at(at);
    let count = left.len().min(out.len());
    let (handed, _) = left.split_at(count);
    let (front, _) = out.split_at_mut(count);
    front.copy_from_slice(handed);
    count
}
