ghost use Rattle.std.specs.Prelude.{◌≡◌, Some, IfSome, option_map};
ghost use Rattle.vault_link.specs.ReplySizes.{IsVaultReply};
ghost use Rattle.vault_server.specs.VaultFrames.{VaultReplyText};
ghost use Rattle.vault_server.specs.VaultViews.{reply_view};

use vault_server::{VaultReply, read_vault_reply};

// Promise P212 (caller): Bytes that a link hands over are read as a reply of the vault exactly if they are one, with its length.
//   clauses: found, only
/// The reply that these bytes are, with their four length bytes; none if they aren't one reply of the grammar. It takes no
/// memory.
pub fn read_whole_reply(bytes: &[u8]) -> Option<VaultReply<'_>>
    ensures found { IfSome result (λ reply. IsVaultReply (reply_view reply) bytes.now) }
    ensures only { (reply : VaultReplyText) → IsVaultReply reply bytes.now → option_map reply_view result ≡ Some reply }
{
    let (length, body) = bytes.split_first_chunk::<4>()?;
    if u32::from_be_bytes(*length) as usize != body.len() {
        return None;
    }
    match read_vault_reply(body) {
        Ok(reply) => Some(reply),
        Err(_) => None,
    }
}
