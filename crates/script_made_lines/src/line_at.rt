ghost use Rattle.std.specs.Prelude.{◌≡◌, ◌+◌, ◌^◌, ◌<◌, slice_get, IfSome, IsSome};
ghost use Rattle.script_made_lines.specs.Buffer.{IsWithin};
ghost use Rattle.script_made_lines.specs.Lines.{lines_behind_setup, made_lines};

use crate::made_line::MadeLine;

/// The line of this number, from 0, of the script for so many documents; none behind the last.
pub(crate) fn line_at(documents: u32, number: u64) -> Option<MadeLine>
    requires { number < 2 ^ 40 }
    ensures line { result ≡ slice_get (made_lines documents) number }
    ensures less { IsSome result → number < 2 ^ 36 }
    ensures within { IfSome result IsWithin }
{
    let n = u64::from(documents);
    if number == 0 {
        Some(MadeLine::Key)
    } else if number <= n {
        Some(MadeLine::Doc(number))
    } else if number == n + 1 {
        Some(MadeLine::SetUp)
    } else {
        line_behind_setup(n, number - (n + 2))
    }
}

/// The line of this number, from 0, behind the setup.
fn line_behind_setup(n: u64, number: u64) -> Option<MadeLine>
    requires few { n < 2 ^ 32 }
    requires below { number < 2 ^ 40 }
    ensures line { result ≡ slice_get (lines_behind_setup n) number }
    ensures less { IsSome result → number < 2 ^ 35 }
    ensures within { IfSome result IsWithin }
{
    let (tenth, twentieth) = (n / 10, n / 20);
    if number < tenth {
        Some(MadeLine::Delete(10 * (number + 1)))
    } else if number < tenth + twentieth {
        Some(MadeLine::Add(20 * (number - tenth + 1)))
    } else if number < tenth + 2 * twentieth {
        Some(MadeLine::Add(n + 1 + (number - tenth - twentieth)))
    } else if number < tenth + 2 * twentieth + 200 {
        Some(MadeLine::Find(number - tenth - 2 * twentieth))
    } else {
        None
    }
}
