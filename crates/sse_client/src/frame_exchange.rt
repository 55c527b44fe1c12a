ghost use Rattle.std.specs.Prelude.{◌≡◌, List, map, IfOk, IfSome};
ghost use Rattle.std.specs.List.{AllByRecursion};
ghost use Rattle.client_core.specs.Owes.{AreNumbered};
ghost use Rattle.client_core.specs.TakenViews.{first_number, to_send};
ghost use Rattle.script_run_texts.specs.Causes.{PeerCause};
ghost use Rattle.keyed_fn.specs.KeyedFn.{keyed_fn};
ghost use Rattle.sse_client.specs.Calls.{shows, KeepsLink, Sends};
ghost use Rattle.sse_client.specs.RecordKept.{OwesLast};
ghost use Rattle.sse_client.specs.Steps.{AreOwed, LeavesClient, StepsOver};
ghost use Rattle.sse_frames.specs.Frames.{FrameText, IsFrame, frame_bytes};

use crate::exchange::exchange;
use crate::peer_fault::stop_of_reply;
use crate::reply_buffer::ReplyBuffer;
use client_core::{Behind, Client, Ready, Taken};
use client_recorder::Recorder;
use keyed_fn::Keyed;
use script_run_texts::PeerStop;
use sse_link::Link;

/// A client whose next frame was acknowledged.
#[derive(Drop)]
enum Step {
    /// More frames are left.
    Behind(Client<Behind>),
    /// None is left.
    Ready(Client<Ready>),
}

// Promise P144, also here; clauses: sends, keeps
/// Sends each frame that the server may lack, and takes its acknowledgement before the next.
///
/// It is what sends the frames of updates. The recorder is lent so that it stays as it is meanwhile: every crash leaves the
/// record of the update whose frames are sent. `K` is the session's keyed function, under which the records open.
pub(crate) fn catch_up<K: Keyed, L: Link, R: Recorder>(
    mut client: Client<Behind>,
    link: &mut L,
    _recorder: &R,
    buffer: &mut ReplyBuffer,
) -> Result<Client<Ready>, PeerStop>
    requires frames { AllByRecursion IsFrame (to_send client.state) }
    requires whole { R.whole _recorder.now }
    requires recorded { IfSome (R.kept _recorder.now).records (λ records. OwesLast (keyed_fn K.prf K.pad) records client) }
    ensures key { IfOk result (λ ready. ready.key ≡ client.key) }
    ensures ready { IfOk result (λ ready. ready.state ≡ client.state.ready) }
    ensures sends { (frames : List FrameText) → to_send client.state ≡ map frame_bytes frames → AreNumbered (first_number client.state) frames →
        Sends (shows (L.transcript link.old) (L.faults link.old) (L.began link.old)) (shows (L.transcript link.new) (L.faults link.new) (L.began link.new)) frames result }
    ensures keeps { KeepsLink PeerCause (shows (L.transcript link.old) (L.faults link.old) (L.began link.old)) (shows (L.transcript link.new) (L.faults link.new) (L.began link.new)) result }
{
    'frames: loop {
        match send_next(client, link, buffer)? {
            Step::Behind(next) => client = next,
            Step::Ready(ready) => return Ok(ready),
        }
    }
}

/// Sends the next frame, and takes its acknowledgement.
fn send_next<L: Link>(
    client: Client<Behind>,
    link: &mut L,
    buffer: &mut ReplyBuffer,
) -> Result<Step, PeerStop>
    requires frames { AllByRecursion IsFrame (to_send client.state) }
    ensures steps { (frames : List FrameText) → AreOwed client.state frames → StepsOver (L.transcript link.old) (L.transcript link.new) frames result }
    ensures client { IfOk result (LeavesClient client) }
    ensures keeps { KeepsLink PeerCause (shows (L.transcript link.old) (L.faults link.old) (L.began link.old)) (shows (L.transcript link.new) (L.faults link.new) (L.began link.new)) result }
{
    exchange(link, client.frame(), buffer)?;
    let reply = buffer.reply();
    match client.take_reply(reply) {
        Taken::Behind(next) => Ok(Step::Behind(next)),
        Taken::Ready(ready) => Ok(Step::Ready(ready)),
        Taken::Stopped(_spent, fault) => Err(stop_of_reply(fault, reply)),
    }
}
