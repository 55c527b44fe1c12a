ghost use Rattle.std.specs.Prelude.{◌≡◌, ◌≤◌};
ghost use Rattle.sse_outside.specs.Fronts.{TookOrRose};
ghost use Rattle.script_game.specs.GameTexts.{game_last_line, game_status};

use crate::game_stop::GameStop;
use crate::printed::{GameLine, push_one};
use script_run_texts::finish;
use sse_outside::{Sink, print_all};

/// Prints the last line of a duel that stopped, as far as the sink takes it, and returns the status. It takes no memory.
pub fn finish_game<W: Sink>(sink: &mut W, stop: GameStop) -> u8
    ensures status { result ≡ game_status stop }
    ensures line { TookOrRose (W.written sink.old) (W.written sink.new) (game_last_line stop)
        (W.faults sink.old) (W.faults sink.new) (W.shortages sink.old) (W.shortages sink.new) }
    ensures later { W.faults sink.old ≤ W.faults sink.new }
{
    match stop {
        GameStop::Run(stop) => finish(sink, stop),
        GameStop::LeaksDiffer(command) => {
            let line = difference_line(command);
            let _ = print_all(sink, line.as_str().as_bytes());
            13
        }
    }
}

/// The last line of two histories that leak something else.
fn difference_line(command: u32) -> GameLine
    ensures { result.bytes ≡ game_last_line (GameStop.LeaksDiffer command) }
{
    let mut line = GameLine::new();
    push_one(
        &mut line,
        "stopped: leaks differ at command ",
        u64::from(command),
    );
    line.push_str("\n");
    line
}
