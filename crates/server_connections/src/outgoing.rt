ghost use Rattle.std.specs.Prelude.{◌≡◌, length};

/// Where what is written is made: room for the longest reply, and for the identifiers of a page.
#[derive(Drop)]
pub struct Outgoing {
    pub(crate) reply: Vec<u8>,
    pub(crate) page: Vec<u64>,
    ghost in_reply: { length reply.items ≡ 65544 },
    ghost in_page: { length page.items ≡ 8192 },
}

impl Outgoing {
    /// The rooms are those of `Buffers::reply` and `Buffers::page`.
    pub fn new(reply: Vec<u8>, page: Vec<u64>) -> Outgoing
        requires reply { length reply.items ≡ 65544 }
        requires page { length page.items ≡ 8192 }
        ensures reply { result.reply ≡ reply }
        ensures page { result.page ≡ page }
    {
        Outgoing { reply, page }
    }
}
