ghost use Rattle.std.specs.Prelude.{◌≡◌, bytes_eq, position};

/// The first epoch, from 0, whose key has this mark.
pub(crate) fn epoch_of(marks: &[[u8; 16]], mark: &[u8; 16]) -> Option<usize>
    ensures { result ≡ position (bytes_eq mark.now) marks.now }
{
    marks.iter().position(|own| is_same(mark, own))
}

/// Whether two marks are equal.
fn is_same(mark: &[u8; 16], own: &[u8; 16]) -> bool
    ensures { result ≡ bytes_eq mark.now own.now }
{
    mark == own
}
