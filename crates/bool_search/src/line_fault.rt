ghost use Rattle.std.specs.Prelude.{◌≡◌};
ghost use Rattle.script_documents.specs.LineFaults.{fault_refusal};
ghost use Rattle.bool_search.specs.LineRefusals.{query_refused};

use crate::fault::QueryFault;
use script_documents::LineFault;
use sse_script::Refusal;

impl From<QueryFault> for LineFault {
    ghost from_gives = { λ cause fault. fault_refusal fault ≡ query_refused cause };

    fn from(fault: QueryFault) -> LineFault {
        match fault {
            QueryFault::TooManyFields(n) => LineFault::Refused(Refusal::TooManyFields { n }),
            QueryFault::BadQuery(place) => LineFault::Refused(Refusal::BadQuery { place }),
            QueryFault::BadWord { position, fault } => LineFault::of_word(fault, position),
            QueryFault::NoMemory => LineFault::NoMemory,
        }
    }
}
