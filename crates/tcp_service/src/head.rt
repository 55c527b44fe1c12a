ghost use Rattle.std.specs.Prelude.{◌≡◌, length, OnOk, IfErr};
ghost use Rattle.std.specs.Io.KnownBytes.{prepend_known};
ghost use Rattle.tcp_service.specs.Heads.{IsCutShort};

use crate::ConnEnd;
use sse_outside::Source;

// Promise P260 (caller): The bytes before a connection's first frame are read without a byte of that frame, or the end says why they weren't.
//   clauses: full, steady, cut; assumes: observable devices
/// Reads until `out` is full, and not one byte more, or until the source ends or fails.
pub fn read_full<S: Source>(source: &mut S, out: &mut [u8]) -> Result<(), ConnEnd>
    ensures full { OnOk result (S.remaining source.old ≡ prepend_known out.new (S.remaining source.new)) }
    ensures steady { OnOk result (S.faults source.new ≡ S.faults source.old) }
    ensures cut { IfErr result (IsCutShort (length out.old) (S.remaining source.old) (S.remaining source.new) (S.faults source.old) (S.faults source.new)) }
    ensures long { length out.new ≡ length out.old }
{
    let mut done = 0;
    while done < out.len() {
        let (_, room) = out.split_at_mut(done);
        match source.read(room) {
            Ok(0) => return Err(ConnEnd::CutShort),
            Ok(count) => done += count,
            Err(_) => return Err(ConnEnd::ReadFault),
        }
    }
    Ok(())
}
