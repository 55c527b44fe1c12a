ghost use Rattle.std.specs.Prelude.{◌≡◌, ◌+◌, ◌<◌, ◌∷◌, ◌++◌, [], ℕ, Bool, List, true, None, OnErr, IfOk, IfSome, option_map};
ghost use Rattle.std.specs.declared.option.Option.{Option};
ghost use Rattle.sse_outside.specs.Causes.{HasCause};
ghost use Rattle.tcp_service.specs.declared.duplex.Duplex.{Duplex};

use crate::{ConnEnd, Duplex};
use sse_outside::{Failed, Sink, Source};
use std::fmt;

/// Where connections come from, one after the other.
///
/// It tells contracts its count of faults (`faults`), how many connections it gave (`given`), how many of these weren't given
/// back (`lent`), and whether it has answered that there are no more (`ended`). Where it can, it also tells those that it
/// gave, each as it was then (`offered`), and those that were given back, each as it was then (`returned`). A real one can't
/// tell these, and then they are `None`.
pub trait Conns {
    type In: Source + Drop;

    type Out: Sink + Drop;

    ghost faults: { Self → ℕ };

    ghost given: { Self → ℕ };

    ghost lent: { Self → ℕ };

    ghost ended: { Self → Bool };

    ghost offered: { Self → Option (List (Duplex Self.In Self.Out)) };

    ghost returned: { Self → Option (List (Duplex Self.In Self.Out)) };

    // Promise P135, also here; clauses: counted, lent, err_given, err_lent, cause, end
    /// The next connection, or `None` where there are no more. After `Failed` the count of faults rose, and no connection
    /// was given.
    fn next(&mut self) -> Result<Option<Duplex<Self::In, Self::Out>>, Failed>
        ensures one { IfOk result (λ next. IfSome next (λ conn. offered self.new ≡ option_map (λ conns. conns ++ conn ∷ []) (offered self.old))) }
        ensures counted { IfOk result (λ next. IfSome next (λ _. given self.new ≡ given self.old + 1)) }
        ensures lent { IfOk result (λ next. IfSome next (λ _. lent self.new ≡ lent self.old + 1)) }
        ensures end { IfOk result (λ next. next ≡ None → ended self.new ≡ true) }
        ensures end_given { IfOk result (λ next. next ≡ None → given self.new ≡ given self.old) }
        ensures end_offered { IfOk result (λ next. next ≡ None → offered self.new ≡ offered self.old) }
        ensures end_lent { IfOk result (λ next. next ≡ None → lent self.new ≡ lent self.old) }
        ensures err_lent { OnErr result (lent self.new ≡ lent self.old) }
        ensures err_given { OnErr result (given self.new ≡ given self.old) }
        ensures err_offered { OnErr result (offered self.new ≡ offered self.old) }
        ensures returned_kept { returned self.new ≡ returned self.old }
        ensures cause { HasCause (faults self.old) (faults self.new) result };

    /// No connection is asked for, since what serves them was not started, for this cause. If there is an operator, they may be
    /// told.
    fn not_started<E: fmt::Display>(&self, _cause: &E) {}

    /// Takes a connection back, which ends it, with how its frames ended. One is still lent. It takes no memory and can't fail.
    fn done(&mut self, conn: Duplex<Self::In, Self::Out>, end: ConnEnd)
        requires lent { 0 < lent self.old }
        ensures returned { returned self.new ≡ option_map (λ conns. conns ++ conn ∷ []) (returned self.old) }
        ensures back { lent self.old ≡ lent self.new + 1 }
        ensures offered_kept { offered self.new ≡ offered self.old }
        ensures given_kept { given self.new ≡ given self.old }
        ensures ended_kept { ended self.new ≡ ended self.old }
        ensures steady { faults self.new ≡ faults self.old };
}
