ghost use Rattle.std.specs.Prelude.{◌≡◌};
ghost use Rattle.leakage_names.specs.Keys as keys;
ghost use Rattle.leakage_names.specs.Keys.{key_of};

/// What a value is of. Each is of a word, but for the last four, which are of dummies.
#[derive(Clone, Copy)]
pub enum NameKind {
    /// The search token of a word; the number is 0.
    Token,
    /// The label of a word's list; the number is 0.
    ListLabel,
    /// A pad of a word's list; the number is 0 for the cell, and i + 1 for block i.
    ListPad,
    /// The label of an addition of a word; the number is its counter.
    PlusLabel,
    /// The pad of an addition of a word; the number is its counter.
    PlusPad,
    /// The revocation number of a word and an identifier, which is the number.
    Revocation,
    /// The place tag of a block of a word's list; the number is that of the block.
    PlaceTag,
    /// The label of a dummy entry; the number is that of the dummy.
    DummyLabel,
    /// The pad of a dummy entry; the number is that of the dummy.
    DummyCell,
    /// The place tag of a dummy block; the number is that of the dummy.
    DummyTag,
    /// The pad of a dummy block; the number is that of the dummy.
    DummyBlock,
}

/// The name of a value of a history: a label, a pad, a revocation number, a tag or a token, as what it is of and not as bytes.
///
/// The epoch is the number of the setup or renewal that it is drawn under, from 0. The word is the number of its word, from 0: its
/// place among the different words of that epoch by first appearance. The name of a dummy is of no word, and has [`NO_WORD`] there.
#[derive(Clone, Copy)]
pub struct Name {
    pub epoch: u32,
    pub word: u32,
    pub kind: NameKind,
    pub number: u64,
}

/// What the name of a dummy has in the place of a word's number: 2^32-1, which no word has.
pub const NO_WORD: u32 = u32::MAX;

/// The number of a kind.
fn kind_number(kind: NameKind) -> u64
    ensures { result ≡ keys.kind_number kind }
{
    match kind {
        NameKind::Token => 0,
        NameKind::ListLabel => 1,
        NameKind::ListPad => 2,
        NameKind::PlusLabel => 3,
        NameKind::PlusPad => 4,
        NameKind::Revocation => 5,
        NameKind::PlaceTag => 6,
        NameKind::DummyLabel => 7,
        NameKind::DummyCell => 8,
        NameKind::DummyTag => 9,
        NameKind::DummyBlock => 10,
    }
}

/// The numbers of which a name is made, by which it is found in a table.
pub(crate) fn key_of(name: &Name) -> [u64; 4]
    ensures { result ≡ key_of name.now }
{
    [
        u64::from(name.epoch),
        u64::from(name.word),
        kind_number(name.kind),
        name.number,
    ]
}
