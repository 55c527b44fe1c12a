ghost use Rattle.std.specs.Prelude.{◌≡◌, map, option_map, string_bytes};
ghost use Rattle.script_run_texts.specs.Words as asks;
ghost use Rattle.script_run_texts.specs.Words.{disk_mode_view, mode_view};

/// What the words of the command line ask for.
#[derive(Debug, Clone, Copy, PartialEq, Eq)]
pub enum Mode {
    /// `run`: carry out a script from an empty store.
    Run,
}

/// The mode that the words name; none where they name none.
pub fn mode_of(words: &[String]) -> Option<Mode>
    ensures mode { option_map mode_view result ≡ asks.mode_of (map (λ word. string_bytes word) words.now) }
{
    match words {
        [word] if word.as_str() == "run" => Some(Mode::Run),
        _ => None,
    }
}

/// What the words of the command line ask for, where a disk keeps the records of the commands.
#[derive(Debug, Clone, Copy, PartialEq, Eq)]
pub enum DiskMode {
    /// `run`: carry out a script from an empty store, and begin a journal on a disk that has no record.
    Run,
    /// `more`: go on from the records that the disk has.
    More,
}

// Promise P123, also here; clauses: mode
/// The mode that the words name, where a disk keeps the records: `run` alone or `more` alone; none where they are any others.
pub fn disk_mode_of(words: &[String]) -> Option<DiskMode>
    ensures mode { option_map disk_mode_view result ≡ asks.disk_mode_of (map (λ word. string_bytes word) words.now) }
{
    match words {
        [word] if word.as_str() == "run" => Some(DiskMode::Run),
        [word] if word.as_str() == "more" => Some(DiskMode::More),
        _ => None,
    }
}
