//! The script language of a vault's client: the lines `key`, `put`, `drop` and `get`, and every line that is printed.
//! `read_vault_line` parses the bytes of a line; `print_vault_line` prints the outcome of a command, and `finish_vault`
//! the last line of a run that stopped. Both take no memory: a text of any length is printed in pieces. It depends on
//! `sse_script` for fields, numbers and keys, and on `script_run_texts` for the causes that other scripts have too.
//! Proved: a line is read if and only if it is in the grammar of specs/VaultLines.antt; a sink took the text of
//! specs/VaultTexts.antt or, after a fault, a strict prefix of it.
//! Not here: what a command does, and when it is refused.
//! Side: client.
#![tactic(auto)]

mod body_digits;
mod printed_line;
mod short_line;
mod stop_line;
mod vault_line;
mod vault_line_grammar;
mod vault_refusal;
mod vault_shown;
mod vault_stop;

pub use printed_line::print_vault_line;
pub use stop_line::finish_vault;
pub use vault_line::VaultLine;
pub use vault_line_grammar::read_vault_line;
pub use vault_refusal::VaultRefusal;
pub use vault_shown::VaultShown;
pub use vault_stop::VaultStop;
