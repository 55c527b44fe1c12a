ghost use Rattle.std.specs.Prelude.{◌≡◌, ◌+◌, ◌-◌, ◌≤◌, ◌<◌, ◌∷◌, ◌++◌, ◌↔◌, ◌^◌, [], true, false, min, length, Contains, Some, None, Ok, IfOk, IfSome, IsErr, OnErr, option_map, option_copied, vec_capacity};
ghost use Rattle.sse_outside.specs.Causes.{HasCause};
ghost use Rattle.tcp_service.specs.Scripts.{AreMade};
ghost use Rattle.tcp_service.specs.QueuedConns.{IsFront};

use crate::script::connections;
use crate::{ConnEnd, Conns, Duplex, Script};
use sse_outside::{Failed, FailingCalls, MemSink, MemSource};
use std::alloc::{AllocError, Global};
use std::snapshot::Snapshot;

/// Connections in memory, of which chosen calls of `next` fail.
///
/// `next` answers `None` where the scripts are used up and this call isn't one that fails.
#[derive(Drop)]
pub struct MemConns {
    /// Those that weren't given yet, the last one first.
    waiting: Vec<Duplex<MemSource, MemSink>>,
    /// Those that were given back, in order, with room for all.
    back: Vec<Duplex<MemSource, MemSink>>,
    /// How many were given and not given back.
    lent: usize,
    ended: bool,
    calls: FailingCalls,
    /// All of them, the last one first, each as it was made, which only contracts see.
    all: Snapshot<Vec<Duplex<MemSource, MemSink>>>,
    ghost in_room: { lent + length waiting.items + length back.items ≤ vec_capacity back },
    ghost in_order: { IsFront waiting.items all.value.items },
}

impl MemConns {
    ghost use Rattle.tcp_service.specs.MemConns.{to_come, written_by, offered_by, returned_by, given_by, lent_by, fails_by, next_call_by};

    // Promise P134 (caller): Connections in memory are those of their scripts, in order, and fail at exactly the chosen numbers.
    //   clauses: made, fails, first
    /// A connection for each script, in order. The calls of `next` of the numbers in `fails`, counted from 0, answer `Failed`
    /// and give nothing.
    pub fn new(alloc: Global, scripts: Vec<Script>, fails: Vec<u64>) -> Result<MemConns, AllocError>
        ensures made { IfOk result (λ conns. AreMade (to_come conns) scripts.items) }
        ensures none_given { IfOk result (λ conns. given_by conns ≡ 0) }
        ensures none_offered { IfOk result (λ conns. offered_by conns ≡ []) }
        ensures none_returned { IfOk result (λ conns. returned_by conns ≡ []) }
        ensures none_lent { IfOk result (λ conns. lent_by conns ≡ 0) }
        ensures fails { IfOk result (λ conns. fails_by conns ≡ fails.items) }
        ensures first { IfOk result (λ conns. next_call_by conns ≡ 0) }
    {
        let back = Vec::with_capacity(alloc, scripts.len())?;
        let waiting = connections(alloc, scripts)?;
        let all = Snapshot::of(&waiting);
        Ok(MemConns {
            waiting,
            back,
            lent: 0,
            ended: false,
            calls: FailingCalls::new(fails),
            all,
        })
    }

    // Promise P134, also here; clauses: ensures
    /// The bytes that were written to connection `i`, counted from 0 as they were given back; none where there aren't so many.
    pub fn written(&self, i: usize) -> Option<&[u8]>
        ensures { option_copied result ≡ written_by self.now i }
    {
        match self.back.get(i) {
            Some(conn) => Some(conn.sink.bytes()),
            None => None,
        }
    }
}

impl Conns for MemConns {
    ghost use Rattle.tcp_service.specs.MemConns.{to_come, left_by, offered_by, returned_by, given_by, lent_by, ended_by, fails_by, next_call_by, faults_by};

    type In = MemSource;

    type Out = MemSink;

    ghost faults = { faults_by };

    ghost given = { given_by };

    ghost lent = { lent_by };

    ghost ended = { ended_by };

    ghost offered = { λ c. Some (offered_by c) };

    ghost returned = { λ c. Some (returned_by c) };

    // Promise P134, also here; clauses: first, used_up, listed, others
    fn next(&mut self) -> Result<Option<Duplex<MemSource, MemSink>>, Failed>

        // Which calls fail, and where there are no more.
        ensures listed { IsErr result ↔ Contains (fails_by self.old) (next_call_by self.old) }
        ensures same_list { fails_by self.new ≡ fails_by self.old }
        ensures next { next_call_by self.new ≡ min (next_call_by self.old + 1) (2 ^ 64 - 1) }
        ensures used_up { IfOk result (λ next. (next ≡ None) ↔ (left_by self.old ≡ 0)) }
        ensures first { IfOk result (λ next. IfSome next (λ conn. to_come self.old ≡ conn ∷ to_come self.new)) }
        ensures others { IsErr result → to_come self.new ≡ to_come self.old }

        // As of all.
        ensures one { IfOk result (λ next. IfSome next (λ conn. Some (offered_by self.new) ≡ option_map (λ conns. conns ++ conn ∷ []) (Some (offered_by self.old)))) }
        ensures counted { IfOk result (λ next. IfSome next (λ _. given_by self.new ≡ given_by self.old + 1)) }
        ensures lent { IfOk result (λ next. IfSome next (λ _. lent_by self.new ≡ lent_by self.old + 1)) }
        ensures end { IfOk result (λ next. next ≡ None → ended_by self.new ≡ true) }
        ensures end_given { IfOk result (λ next. next ≡ None → given_by self.new ≡ given_by self.old) }
        ensures end_offered { IfOk result (λ next. next ≡ None → Some (offered_by self.new) ≡ Some (offered_by self.old)) }
        ensures end_lent { IfOk result (λ next. next ≡ None → lent_by self.new ≡ lent_by self.old) }
        ensures err_lent { OnErr result (lent_by self.new ≡ lent_by self.old) }
        ensures err_given { OnErr result (given_by self.new ≡ given_by self.old) }
        ensures err_offered { OnErr result (Some (offered_by self.new) ≡ Some (offered_by self.old)) }
        ensures returned_kept { Some (returned_by self.new) ≡ Some (returned_by self.old) }
        ensures cause { HasCause (faults_by self.old) (faults_by self.new) result }
    {
        self.calls.count()?;
        match self.waiting.pop() {
            Some(conn) => {
                self.lent += 1;
                Ok(Some(conn))
            }
            None => {
                self.ended = true;
                Ok(None)
            }
        }
    }

    fn done(&mut self, conn: Duplex<MemSource, MemSink>, _end: ConnEnd)
        requires lent { 0 < lent_by self.old }
        ensures returned { Some (returned_by self.new) ≡ option_map (λ conns. conns ++ conn ∷ []) (Some (returned_by self.old)) }
        ensures back { lent_by self.old ≡ lent_by self.new + 1 }
        ensures offered_kept { Some (offered_by self.new) ≡ Some (offered_by self.old) }
        ensures given_kept { given_by self.new ≡ given_by self.old }
        ensures ended_kept { ended_by self.new ≡ ended_by self.old }
        ensures steady { faults_by self.new ≡ faults_by self.old }
    {
        self.lent -= 1;
        self.back.push_reserved(conn);
    }
}
