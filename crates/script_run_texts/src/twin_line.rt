ghost use Rattle.std.specs.Prelude.{◌≡◌};
ghost use Rattle.script_run_texts.specs.Twins.{is_twin_line};

use sse_script::{Fields, MAX_LINE};

/// Whether a line is the one between two scripts.
pub(crate) fn parts_scripts(line: &[u8]) -> bool
    ensures { result ≡ is_twin_line line.now }
{
    if line.len() > MAX_LINE {
        return false;
    }
    let mut fields = Fields::new(line);
    match fields.next() {
        Some(field) => field == b"twin".as_slice() && fields.next().is_none(),
        None => false,
    }
}
