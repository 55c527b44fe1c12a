ghost use Rattle.std.specs.Prelude.{◌≡◌, Option, ◌+◌, ◌*◌, ◌%◌, ◌<◌, ◌≤◌, true, false, length, take, drop, ℕ, List, OnOk, OnErr, IfOk, IfSome, MatchOption, Some, None, option_and_then};
ghost use Rattle.keyed_fn.specs.KeyedFn.{keyed_fn};
ghost use Rattle.two_level.specs.Opened.{numbers_of, leading, cell_list};
ghost use Rattle.server_core.specs.Holds.{IsCell, IsHeld, AreBlocks};
ghost use Rattle.server_core.specs.Search.{block_at, setup_ids};
ghost use Rattle.server_core.specs.SearchState.{pointers_from, pointers_behind};
ghost use Rattle.server_core.specs.OpenedStep.{IsRead, IsOpened, IsGroup, HasNoCell};
ghost use Rattle.std.specs.FinMap as map;

use crate::blocks::{LARGEST_BLOCK, NoList, open_block};
use crate::numbers::next_number;
use keyed_fn::Keyed;
use search_token::Token;
use server_tables::Tables;

/// The bytes of the largest cell: one byte, and 64 numbers of 8 bytes.
const LARGEST_CELL: usize = 513;

/// The most numbers of a block.
pub const MOST: usize = 256;

/// A cell of the word's list that was opened: what its numbers are, and how many there are.
#[derive(Clone, Copy)]
pub struct Opened {
    pub kind: u8,
    pub count: usize,
}

/// A group of a list's pointers to blocks of identifiers: those of its cell, or those of one of its blocks of
/// pointers.
#[derive(Clone, Copy)]
pub struct Group {
    pub is_open: bool,
    pub top: u32,
    pub count: usize,
    pub is_last: bool,
    pub pointers: [u64; MOST],
}

/// Writes the joined numbers of 8 bytes each to the front of `out`, and tells how many there are.
fn numbers_into(bytes: &[u8], out: &mut [u64; MOST]) -> usize
    requires whole { length bytes.now % 8 ≡ 0 }
    requires room { length bytes.now ≤ 2048 }
    ensures numbers { take result out.new ≡ numbers_of bytes.now }
    ensures count { 8 * result ≡ length bytes.now }
{
    let mut rest = bytes;
    let mut count = 0;
    while let Some((number, behind)) = next_number(rest) {
        out[count] = number;
        count += 1;
        rest = behind;
    }
    count
}

/// Opens the list's block of this number at this pointer, and writes its numbers before its zeros to the front of
/// `out`.
pub fn numbers_at<K: Keyed, T: Tables>(
    tables: &T,
    keyed: &K,
    token: &Token,
    number: u32,
    pointer: u64,
    out: &mut [u64; MOST],
) -> Result<usize, NoList>
    requires { AreBlocks (T.contents tables.now).array }
    ensures front { IfOk result (λ count. option_and_then leading (block_at (keyed_fn K.prf K.pad) token.now (T.contents tables.now).array number pointer) ≡ Some (take count out.new)) }
    ensures within { IfOk result (λ count. count ≤ 256) }
    ensures no_list { OnErr result (option_and_then leading (block_at (keyed_fn K.prf K.pad) token.now (T.contents tables.now).array number pointer) ≡ None) }
{
    let mut buffer = [0u8; LARGEST_BLOCK];
    let count = open_block(tables, keyed, token, number, pointer, &mut buffer)?;
    Ok(numbers_into(&buffer[..8 * count], out))
}

/// Opens the word's cell, and writes its numbers before its zeros to the front of `out`; `None` where the word's label
/// is missing.
pub fn open_cell<K: Keyed, T: Tables>(
    tables: &T,
    keyed: &K,
    token: &Token,
    out: &mut [u64; MOST],
) -> Result<Option<Opened>, NoList>
    requires { IsHeld (T.contents tables.now) }
    ensures cell { IfOk result (λ found. MatchOption found (HasNoCell (keyed_fn K.prf K.pad) token.now (T.contents tables.now)) (λ opened. IsOpened (keyed_fn K.prf K.pad) token.now (T.contents tables.now) opened.kind (take opened.count out.new) × (opened.count ≤ 64))) }
    ensures no_ids { OnErr result (setup_ids (keyed_fn K.prf K.pad) token.now (map.get (T.contents tables.now).dictionary) (T.contents tables.now).array ≡ None) }
    ensures no_pointers { OnErr result ((top : ℕ) → pointers_from (keyed_fn K.prf K.pad) token.now (T.contents tables.now) top ≡ None) }
{
    let Some(cell) = tables.entry(&token.list_label(keyed)) else {
        return Ok(None);
    };
    let mut buffer = [0u8; LARGEST_CELL];
    let opened = &mut buffer[..cell.len()];
    opened.copy_from_slice(cell);
    token.open_cell(keyed, opened);
    Ok(Some(read_opened(opened, out)?))
}

/// The kind of a decrypted cell, and its numbers before its zeros.
fn read_opened(clear: &[u8], out: &mut [u64; MOST]) -> Result<Opened, NoList>
    requires { IsCell clear.now }
    ensures read { IfOk result (λ opened. IsRead clear.now opened.kind (take opened.count out.new)) }
    ensures few { IfOk result (λ opened. opened.count ≤ 64) }
    ensures no_ids { OnErr result ((block : ℕ → ℕ → Option (List ℕ)) → cell_list block clear.now ≡ None) }
    ensures no_pointers { OnErr result ((block : ℕ → ℕ → Option (List ℕ)) (top : ℕ) → pointers_behind block clear.now top ≡ None) }
{
    let kind = clear[0];
    let bytes = &clear[1..];
    if kind > 2 {
        return Err(NoList);
    }
    let Ok(count) = two_level::read_block(bytes, None) else {
        return Err(NoList);
    };
    let count = numbers_into(&bytes[..8 * usize::from(count)], out);
    Ok(Opened { kind, count })
}

impl Group {
    /// No group yet.
    pub fn new() -> Group
        ensures { result.is_open ≡ false }
    {
        Group {
            is_open: false,
            top: 0,
            count: 0,
            is_last: false,
            pointers: [0; MOST],
        }
    }

    /// Opens group `top` after an opened cell.
    pub fn load<K: Keyed, T: Tables>(
        &mut self,
        tables: &T,
        keyed: &K,
        token: &Token,
        cell: Opened,
        numbers: &[u64; MOST],
        top: u32,
    ) -> Result<(), NoList>
        requires held { IsHeld (T.contents tables.now) }
        requires cell { IsOpened (keyed_fn K.prf K.pad) token.now (T.contents tables.now) cell.kind (take cell.count numbers.now) }
        requires few { cell.count ≤ 64 }
        requires top { top < 64 }
        ensures open { OnOk result ((self.new.is_open ≡ true) × (self.new.top ≡ top) × (self.new.count ≤ 256)) }
        ensures wide { length self.new.pointers ≡ 256 }
        ensures group { OnOk result (IsGroup (keyed_fn K.prf K.pad) token.now (T.contents tables.now) top (take self.new.count self.new.pointers) self.new.is_last) }
        ensures no_pointers { OnErr result ((pointers_from (keyed_fn K.prf K.pad) token.now (T.contents tables.now) top ≡ None) × (self.new.is_open ≡ false)) }
    {
        self.is_open = false;
        self.top = top;
        self.count = 0;
        self.is_last = true;
        let at = top as usize;
        if cell.kind == 1 {
            if top == 0 {
                self.count = cell.count;
                self.pointers = *numbers;
            }
        } else if cell.kind == 2 {
            if at < cell.count {
                self.count = numbers_at(
                    tables,
                    keyed,
                    token,
                    top,
                    numbers[at],
                    &mut self.pointers,
                )?;
                self.is_last = at + 1 >= cell.count;
            }
        }
        self.is_open = true;
        Ok(())
    }

    /// Opens group `top`, unless it is this one.
    pub fn open<K: Keyed, T: Tables>(
        &mut self,
        tables: &T,
        keyed: &K,
        token: &Token,
        top: u32,
    ) -> Result<(), NoList>
        requires held { IsHeld (T.contents tables.now) }
        requires known { self.old.is_open ≡ true → (self.old.count ≤ 256) × IsGroup (keyed_fn K.prf K.pad) token.now (T.contents tables.now) self.old.top (take self.old.count self.old.pointers) self.old.is_last }
        requires top { top < 64 }
        ensures open { OnOk result ((self.new.is_open ≡ true) × (self.new.top ≡ top) × (self.new.count ≤ 256)) }
        ensures wide { length self.new.pointers ≡ 256 }
        ensures group { OnOk result (IsGroup (keyed_fn K.prf K.pad) token.now (T.contents tables.now) top (take self.new.count self.new.pointers) self.new.is_last) }
        ensures no_pointers { OnErr result ((pointers_from (keyed_fn K.prf K.pad) token.now (T.contents tables.now) top ≡ None) × (self.new.is_open ≡ false)) }
    {
        if self.is_open && self.top == top {
            return Ok(());
        }
        self.is_open = false;
        let mut numbers = [0u64; MOST];
        match open_cell(tables, keyed, token, &mut numbers)? {
            Some(cell) => self.load(tables, keyed, token, cell, &numbers, top),
            None => {
                self.is_open = true;
                self.top = top;
                self.count = 0;
                self.is_last = true;
                Ok(())
            }
        }
    }
}
