ghost use Rattle.std.specs.Prelude.{◌≡◌, ◌+◌, ◌≤◌, ◌++◌, length, decimal};
ghost use Rattle.arrayvec.specs.ArrayString.{array_string_len};
ghost use Rattle.script_game.specs.GameTexts as texts;

use arrayvec::ArrayString;
use itoa::Buffer;

/// Room for a line: two numbers of at most 20 digits, and 40 bytes of text.
pub type GameLine = ArrayString<96>;

/// The line that tells of a duel of so many commands, in which so many bytes passed, its end (byte 0a) included.
pub fn game_line(commands: u32, bytes: u64) -> GameLine
    ensures { result.bytes ≡ texts.game_line commands bytes }
{
    let mut line = GameLine::new();
    push_one(&mut line, "duel: ", u64::from(commands));
    push_one(&mut line, " commands, ", bytes);
    line.push_str(" bytes\n");
    line
}

/// Puts a text and a number at the end.
pub(crate) fn push_one(line: &mut GameLine, text: &str, n: u64)
    requires { array_string_len line.old + length text.now + 20 ≤ 96 }
    ensures text { line.new.bytes ≡ line.old.bytes ++ (text.now ++ decimal n) }
    ensures short { array_string_len line.new ≤ array_string_len line.old + length text.now + 20 }
{
    let mut digits = Buffer::new();
    line.push_str(text);
    line.push_str(digits.format(n));
}
