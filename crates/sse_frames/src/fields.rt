ghost use Rattle.std.specs.Prelude.{◌≡◌, ◌+◌, ◌*◌, ◌≤◌, false, true, [], ◌∷◌, ◌++◌, length, drop, slice_index, None, IfOk, ⊤};
ghost use Rattle.std.specs.Result.{result_err};
ghost use Rattle.std.specs.Int.{w16, w32, w64};
ghost use Rattle.sse_frames.specs.Fields as fields;
ghost use Rattle.sse_frames.specs.Fields.{number_at, bytes_at, range_field, byte_field, bytes_field, cell_width_field, block_width_field, rising_field, entry_fields, block_fields, number_fields, id_fields, end_field, ReadsField, first_fault};

use crate::fault::FrameFault;
use crate::limits::LABEL_LEN;

/// The `size` bytes at `place` of the body.
pub(crate) fn read_bytes(body: &[u8], place: usize, size: usize) -> Result<&[u8], FrameFault>
    requires { place ≤ length body.now }
    ensures { ReadsField (bytes_field size place) body.now result (λ bytes. bytes.now ≡ bytes_at place size body.now) }
{
    let (_, rest) = body.split_at(place);
    if rest.len() < size {
        return Err(FrameFault::BadBody(place as u64));
    }
    let (bytes, _) = rest.split_at(size);
    Ok(bytes)
}

/// The number of four bytes at `place` of the body, from `low` to `high`.
#[tactic(auto, unfolding(crate::specs::Fields::number_at))]
pub(crate) fn read_u32(body: &[u8], place: usize, low: u32, high: u32) -> Result<u32, FrameFault>
    requires { place ≤ length body.now }
    ensures { ReadsField (range_field w32 low high place) body.now result (λ number. number ≡ number_at w32 place body.now) }
{
    let bytes = read_bytes(body, place, 4)?;
    let number = u32::from_be_bytes([bytes[0], bytes[1], bytes[2], bytes[3]]);
    if number < low || high < number {
        return Err(FrameFault::BadBody(place as u64));
    }
    Ok(number)
}

/// The number of two bytes at `place` of the body, from `low` to `high`.
#[tactic(auto, unfolding(crate::specs::Fields::number_at))]
pub(crate) fn read_u16(body: &[u8], place: usize, low: u16, high: u16) -> Result<u16, FrameFault>
    requires { place ≤ length body.now }
    ensures { ReadsField (range_field w16 low high place) body.now result (λ number. number ≡ number_at w16 place body.now) }
{
    let bytes = read_bytes(body, place, 2)?;
    let number = u16::from_be_bytes([bytes[0], bytes[1]]);
    if number < low || high < number {
        return Err(FrameFault::BadBody(place as u64));
    }
    Ok(number)
}

/// The one byte at `place` of the body, from `low` to `high`.
pub(crate) fn read_u8(body: &[u8], place: usize, low: u8, high: u8) -> Result<u8, FrameFault>
    requires { place ≤ length body.now }
    ensures { ReadsField (byte_field low high place) body.now result (λ byte. byte ≡ slice_index body.now place) }
{
    let bytes = read_bytes(body, place, 1)?;
    let byte = bytes[0];
    if byte < low || high < byte {
        return Err(FrameFault::BadBody(place as u64));
    }
    Ok(byte)
}

/// The width of a cell at `place` of the body: 1 + 8b for a b from 1 to 64.
pub(crate) fn read_cell_width(body: &[u8], place: usize) -> Result<u16, FrameFault>
    requires { place ≤ length body.now }
    ensures { ReadsField (cell_width_field place) body.now result (λ width. width ≡ number_at w16 place body.now) }
{
    let width = read_u16(body, place, 9, 513)?;
    if width % 8 != 1 {
        return Err(FrameFault::BadBody(place as u64));
    }
    Ok(width)
}

/// The width of a block at `place` of the body: 8B for a B from 1 to 256.
pub(crate) fn read_block_width(body: &[u8], place: usize) -> Result<u16, FrameFault>
    requires { place ≤ length body.now }
    ensures { ReadsField (block_width_field place) body.now result (λ width. width ≡ number_at w16 place body.now) }
{
    let width = read_u16(body, place, 8, 2048)?;
    if width % 8 != 0 {
        return Err(FrameFault::BadBody(place as u64));
    }
    Ok(width)
}

/// Whether the 16 bytes at `place` of the body are above the one `back` bytes before it.
fn is_above(body: &[u8], place: usize, back: usize) -> bool
    requires whole { place + 16 ≤ length body.now }
    requires behind { back ≤ place }
    ensures { result ≡ fields.is_above place back body.now }
{
    let (_, from_before) = body.split_at(place - back);
    let (before, _) = from_before.split_at(LABEL_LEN);
    let (_, from_label) = body.split_at(place);
    let (label, _) = from_label.split_at(LABEL_LEN);
    before.cmp(&label).is_lt()
}

/// The label or revocation number at `place` of the body, above the one `back` bytes before it unless it is the first.
fn read_rising(body: &[u8], place: usize, back: usize, is_first: bool) -> Result<&[u8], FrameFault>
    requires here { place ≤ length body.now }
    requires behind { is_first ≡ false → back ≤ place }
    ensures { ReadsField (rising_field is_first back place) body.now result (λ bytes. bytes.now ≡ bytes_at place 16 body.now) }
{
    let bytes = read_bytes(body, place, LABEL_LEN)?;
    if is_first {
        return Ok(bytes);
    }
    if is_above(body, place, back) {
        return Ok(bytes);
    }
    Err(FrameFault::BadBody(place as u64))
}

/// The place after `count` entries that begin at `place` of the body, each a label and `width` bytes.
pub(crate) fn pass_entries(
    body: &[u8],
    place: usize,
    count: u16,
    width: u16,
) -> Result<usize, FrameFault>
    requires { place ≤ length body.now }
    ensures fault { result_err result ≡ first_fault (entry_fields true width count place) body.now }
    ensures end { IfOk result (λ end. end ≡ place + count * (16 + width)) }
    ensures inside { IfOk result (λ end. end ≤ length body.now) }
{
    let width = width as usize;
    let mut at = place;
    for i in 0..count {
        read_rising(body, at, LABEL_LEN + width, i == 0)?;
        read_bytes(body, at + LABEL_LEN, width)?;
        at += LABEL_LEN + width;
    }
    Ok(at)
}

/// The `count` entries, each a label and `width` bytes, that are the body from `place` on.
#[tactic(auto, using(crate::proofs::Faults::appended))]
pub(crate) fn read_entries(
    body: &[u8],
    place: usize,
    count: u16,
    width: u16,
) -> Result<&[u8], FrameFault>
    requires { place ≤ length body.now }
    ensures fault { result_err result ≡ first_fault (entry_fields true width count place ++ end_field (place + count * (16 + width)) ∷ []) body.now }
    ensures whole { IfOk result (λ _. length body.now ≡ place + count * (16 + width)) }
    ensures entries { IfOk result (λ entries. entries.now ≡ drop place body.now) }
    ensures stand { IfOk result (λ _. first_fault (entry_fields true width count place) body.now ≡ None) }
{
    let end = pass_entries(body, place, count, width)?;
    read_end(body, end)?;
    let (_, entries) = body.split_at(place);
    Ok(entries)
}

/// The place after `count` blocks of `width` bytes that begin at `place` of the body.
fn pass_blocks(body: &[u8], place: usize, count: u16, width: u16) -> Result<usize, FrameFault>
    requires { place ≤ length body.now }
    ensures fault { result_err result ≡ first_fault (block_fields width count place) body.now }
    ensures end { IfOk result (λ end. end ≡ place + count * width) }
    ensures inside { IfOk result (λ end. end ≤ length body.now) }
{
    let mut at = place;
    for _ in 0..count {
        read_bytes(body, at, width as usize)?;
        at += width as usize;
    }
    Ok(at)
}

/// The `count` blocks of `width` bytes that are the body from `place` on.
#[tactic(auto, using(crate::proofs::Faults::appended))]
pub(crate) fn read_blocks(
    body: &[u8],
    place: usize,
    count: u16,
    width: u16,
) -> Result<&[u8], FrameFault>
    requires { place ≤ length body.now }
    ensures fault { result_err result ≡ first_fault (block_fields width count place ++ end_field (place + count * width) ∷ []) body.now }
    ensures whole { IfOk result (λ _. length body.now ≡ place + count * width) }
    ensures list { IfOk result (λ list. list.now ≡ drop place body.now) }
{
    let end = pass_blocks(body, place, count, width)?;
    read_end(body, end)?;
    let (_, blocks) = body.split_at(place);
    Ok(blocks)
}

/// The place after `count` revocation numbers that begin at `place` of the body.
fn pass_numbers(body: &[u8], place: usize, count: u16) -> Result<usize, FrameFault>
    requires { place ≤ length body.now }
    ensures fault { result_err result ≡ first_fault (number_fields true count place) body.now }
    ensures end { IfOk result (λ end. end ≡ place + count * 16) }
    ensures inside { IfOk result (λ end. end ≤ length body.now) }
{
    let mut at = place;
    for i in 0..count {
        read_rising(body, at, LABEL_LEN, i == 0)?;
        at += LABEL_LEN;
    }
    Ok(at)
}

/// The `count` revocation numbers that are the body from `place` on.
#[tactic(auto, using(crate::proofs::Faults::appended))]
pub(crate) fn read_numbers(body: &[u8], place: usize, count: u16) -> Result<&[u8], FrameFault>
    requires { place ≤ length body.now }
    ensures fault { result_err result ≡ first_fault (number_fields true count place ++ end_field (place + count * 16) ∷ []) body.now }
    ensures whole { IfOk result (λ _. length body.now ≡ place + count * 16) }
    ensures numbers { IfOk result (λ numbers. numbers.now ≡ drop place body.now) }
    ensures stand { IfOk result (λ _. first_fault (number_fields true count place) body.now ≡ None) }
{
    let end = pass_numbers(body, place, count)?;
    read_end(body, end)?;
    let (_, numbers) = body.split_at(place);
    Ok(numbers)
}

/// The identifier at `place` of the body, which isn't 0.
#[tactic(auto, unfolding(crate::specs::Fields::number_at))]
fn read_id(body: &[u8], place: usize) -> Result<u64, FrameFault>
    requires { place ≤ length body.now }
    ensures { ReadsField (range_field w64 1 0xffffffffffffffff place) body.now result (λ id. id ≡ number_at w64 place body.now) }
{
    let b = read_bytes(body, place, 8)?;
    let id = u64::from_be_bytes([b[0], b[1], b[2], b[3], b[4], b[5], b[6], b[7]]);
    if id == 0 {
        return Err(FrameFault::BadBody(place as u64));
    }
    Ok(id)
}

/// The place after `count` identifiers that begin at `place` of the body.
fn pass_ids(body: &[u8], place: usize, count: u16) -> Result<usize, FrameFault>
    requires { place ≤ length body.now }
    ensures fault { result_err result ≡ first_fault (id_fields count place) body.now }
    ensures end { IfOk result (λ end. end ≡ place + count * 8) }
    ensures inside { IfOk result (λ end. end ≤ length body.now) }
{
    let mut at = place;
    for _ in 0..count {
        read_id(body, at)?;
        at += 8;
    }
    Ok(at)
}

/// The `count` identifiers that are the body from `place` on.
#[tactic(auto, using(crate::proofs::Faults::appended))]
pub(crate) fn read_ids(body: &[u8], place: usize, count: u16) -> Result<&[u8], FrameFault>
    requires { place ≤ length body.now }
    ensures fault { result_err result ≡ first_fault (id_fields count place ++ end_field (place + count * 8) ∷ []) body.now }
    ensures whole { IfOk result (λ _. length body.now ≡ place + count * 8) }
    ensures ids { IfOk result (λ ids. ids.now ≡ drop place body.now) }
    ensures stand { IfOk result (λ _. first_fault (id_fields count place) body.now ≡ None) }
{
    let end = pass_ids(body, place, count)?;
    read_end(body, end)?;
    let (_, ids) = body.split_at(place);
    Ok(ids)
}

/// That the body ends at `place`.
pub(crate) fn read_end(body: &[u8], place: usize) -> Result<(), FrameFault>
    ensures { ReadsField (end_field place) body.now result (λ _. ⊤) }
{
    if body.len() != place {
        return Err(FrameFault::BadBody(place as u64));
    }
    Ok(())
}
