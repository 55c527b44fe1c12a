ghost use Rattle.std.specs.Prelude.{◌≡◌, ◌*◌, ◌≤◌, take, IfOk, OnErr, Some, None, option_and_then};
ghost use Rattle.keyed_fn.specs.KeyedFn.{keyed_fn};
ghost use Rattle.two_level.specs.Opened.{numbers_of, leading};
ghost use Rattle.server_core.specs.Holds.{AreBlocks};
ghost use Rattle.server_core.specs.Search.{block_at};

use keyed_fn::Keyed;
use search_token::Token;
use server_tables::Tables;

/// The bytes of the largest block: 256 numbers of 8 bytes.
pub const LARGEST_BLOCK: usize = 2048;

/// What stands under the token's labels is no list.
#[derive(Clone, Copy)]
pub struct NoList;

/// Decrypts the list's block of this number at this pointer, which counts from 1, into the front of a buffer, and
/// tells how many of its numbers come before its zeros.
///
/// Errors: `NoList` where there is no such block, or it has a number after a zero.
pub fn open_block<K: Keyed, T: Tables>(
    tables: &T,
    keyed: &K,
    token: &Token,
    number: u32,
    pointer: u64,
    buffer: &mut [u8; LARGEST_BLOCK],
) -> Result<usize, NoList>
    requires { AreBlocks (T.contents tables.now).array }
    ensures front { IfOk result (λ count. option_and_then leading (block_at (keyed_fn K.prf K.pad) token.now (T.contents tables.now).array number pointer) ≡ Some (numbers_of (take (8 * count) buffer.new))) }
    ensures within { IfOk result (λ count. 8 * count ≤ 2048) }
    ensures no_list { OnErr result (option_and_then leading (block_at (keyed_fn K.prf K.pad) token.now (T.contents tables.now).array number pointer) ≡ None) }
{
    if pointer == 0 {
        return Err(NoList);
    }
    if pointer > 0xffff_ffff {
        return Err(NoList);
    }
    let Some(block) = tables.block((pointer - 1) as u32) else {
        return Err(NoList);
    };
    let opened = &mut buffer[..block.len()];
    opened.copy_from_slice(block);
    token.open_block(keyed, number, opened);
    let Ok(count) = two_level::read_block(opened, None) else {
        return Err(NoList);
    };
    Ok(usize::from(count))
}
