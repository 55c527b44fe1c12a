ghost use Rattle.std.specs.Prelude.{◌≡◌, List, ℕ};
ghost use Rattle.client_rebuild.specs.Rebuilds.{IsFinished};
ghost use Rattle.client_core.specs.Restores.{HashesUnder, IsRestored, restored_key};
ghost use Rattle.client_registry.specs.HashNumbers.{hash_numbers};

use crate::client::Client;
use crate::fresh::Fresh;
use crate::recorded::Recorded;
use client_rebuild::Rebuilt;

/// The client of a history that was rebuilt from records.
#[derive(Drop)]
pub enum Restored {
    /// There was no record.
    Fresh(Client<Fresh>),
    /// The server may lack frames of the last record's command, which the client keeps: [`Client::resume`] tells.
    Recorded(Client<Recorded>),
}

impl Restored {
    // Promise P120 (caller): A restored client resumes at the server's next number with exactly the frames the server is missing, or names why it can't.
    //   clauses: key, restored, hash_keys; assumes: earlier calls; not: That the server holds the frames before that number. Out of memory may come, but never in place of
    //     `PeerElsewhere`.
    /// The client of what records told. It takes no memory.
    pub fn of(rebuilt: Rebuilt) -> Restored
        ensures key { restored_key result ≡ rebuilt.key }
        ensures restored { (mark : List ℕ) (payloads : List (List ℕ)) → IsFinished mark payloads rebuilt → IsRestored mark payloads result }
        ensures hash_keys { (mark : List ℕ) (payloads : List (List ℕ)) → IsFinished mark payloads rebuilt → HashesUnder (hash_numbers rebuilt.hash_keys) result }
    {
        let Rebuilt {
            key,
            hash_keys: _,
            marks,
            last,
        } = rebuilt;
        match last {
            None => Restored::Fresh(Client { key, state: Fresh }),
            Some(last) => Restored::Recorded(Client {
                key,
                state: Recorded::of(marks, last),
            }),
        }
    }
}
