ghost use Rattle.std.specs.Prelude.{◌≡◌, string_bytes};
ghost use Rattle.std.specs.List.{list_any};
ghost use Rattle.program_words.specs.Hyphens as hyphens;

/// Whether one of the words begins with a hyphen.
pub(crate) fn has_hyphen(words: &[String]) -> bool
    ensures { result ≡ list_any (λ word. hyphens.begins_with_hyphen (string_bytes word)) words.now }
{
    words.iter().any(|word| begins_with_hyphen(word.as_str()))
}

fn begins_with_hyphen(word: &str) -> bool
    ensures { result ≡ hyphens.begins_with_hyphen word.now }
{
    match word.as_bytes() {
        [] => false,
        [first, ..] => *first == b'-',
    }
}
