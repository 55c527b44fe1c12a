ghost use Rattle.std.specs.Prelude.{◌≡◌};
ghost use Rattle.client_rebuild.specs.Recalls.{pad_of_last, shape_of_last};

use client_rebuild::Last;
use client_renewal::Past;
use std::marker::Model;

/// The state of a client that was rebuilt from records: the last one, and what a renewal of its key takes over. Which frames of
/// the last one's command the server has isn't known yet.
#[derive(Drop)]
pub struct Recorded {
    pub(crate) last: Last,
    pub(crate) past: Past,
}

impl Model for Recorded {
    ghost use Rattle.client_core.specs.States.{RecordedState};

    ghost Value = { RecordedState };

    ghost view = { λ r. record { last = r.last; past = r.past } };
}

impl Recorded {
    /// What a client keeps of the last record, where the epochs' keys have these marks. It takes no memory.
    pub(crate) fn of(marks: Vec<[u8; 16]>, last: Last) -> Recorded
        ensures last { result.last ≡ last }
        ensures marks { result.past.marks ≡ marks }
        ensures shape { shape_of_last last ≡ record { b = result.past.b; big = result.past.big } }
        ensures pad { pad_of_last last ≡ result.past.pad }
    {
        let (b, big, pad) = last.parameters();
        let past = Past { marks, b, big, pad };
        Recorded { last, past }
    }
}
