ghost use Rattle.std.specs.Prelude.{◌≡◌, ℕ, ◌+◌, ◌<◌, ◌++◌, ◌∷◌, ◌↔◌, [], map, Err, None, Some, length, IfOk, OnErr, OnOk};
ghost use Rattle.sse_simulator.specs.Simulator as simulator;
ghost use Rattle.sse_simulator.specs.Simulator.{frames_simulated, sim_at_first};
ghost use Rattle.leakage_frames.specs.MadeFrames.{HasRun, kept_view, made_onto};
ghost use Rattle.leakage_frames.specs.Steps as steps;
ghost use Rattle.leakage_frames.specs.Steps.{bytes_simulated};
ghost use Rattle.leakage_frames.specs.Views.{draw_view, leak_view};
ghost use Rattle.leakage_frames.specs.declared.fault.SimFault.TheVariants.{BadLeak};

use crate::absent::{is_made, is_made_at};
use crate::drawn::item_at;
use crate::earlier::Earlier;
use crate::fault::SimFault;
use crate::kept::{Kept, kept_of};
use crate::leak::{Draw, Leak};
use crate::made_frames::make;
use crate::not_made::NotMade;
use crate::passed::Passing;
use sse_frames::Items;
use std::alloc::Global;
use std::marker::Model;

/// A simulator of what passes: what it kept of each command so far, and the number of the next update frame.
#[derive(Drop)]
pub struct Sim {
    kept: Items<Kept>,
    next: u64,
}

impl Model for Sim {
    ghost use Rattle.std.specs.Prelude.{map};
    ghost use Rattle.sse_simulator.specs.Simulator as sim;

    ghost Value = { sim.Sim };

    ghost use Rattle.leakage_frames.specs.MadeFrames.{kept_view};

    ghost view = { λ s. record { kept = map kept_view s.kept; next = s.next } };
}

impl Sim {
    /// The simulator of a server that has taken nothing. It takes no memory.
    pub fn new(alloc: Global) -> Sim
        ensures { result ≡ sim_at_first }
    {
        Sim {
            kept: Items::new(alloc),
            next: 0,
        }
    }
}

/// What passes for an item, and what is kept of it.
fn take(
    alloc: Global,
    kept: &mut Items<Kept>,
    leak: &Leak,
    draws: &[Draw],
    passing: &mut Passing,
) -> Result<(), NotMade>
    ensures made { OnOk result (made_onto passing.old.texts (map kept_view kept.old) passing.old.next (leak_view leak.now) (map draw_view draws.now) ≡ Some (passing.new.texts, passing.new.next)) }
    ensures kept { OnOk result (map kept_view kept.new ≡ map kept_view kept.old ++ simulator.kept_of (leak_view leak.now) (map draw_view draws.now) ∷ []) }
    ensures unchanged { OnErr result (kept.new ≡ kept.old) }
{
    make(alloc, kept.as_slice(), leak, draws, passing)?;
    let own = kept_of(alloc, leak, draws)?;
    kept.push(own)?;
    Ok(())
}

// Promise P44 (caller): From only leakage and draws a program gets the bytes that the simulator makes, or the number of the first bad item.
//   clauses: made, bad, unchanged; checks: .ci/leakage
/// The bytes that pass for the next command, by what it leaks and draws: each frame of the client and each reply of the server,
/// in the order in which they pass.
///
/// Errors: `BadLeak(command)` with the number of this command, counted from 0, exactly where the item names a command, a
/// place or a draw that isn't there; else `NoMemory` where there is no memory, or no number of 64 bits for the frame after this.
/// After an error the simulator is as before.
pub fn simulate_step(
    alloc: Global,
    sim: &mut Sim,
    leak: &Leak,
    draws: &Items<Draw>,
) -> Result<Items<Items<u8>>, SimFault>
    ensures made { IfOk result (λ texts. steps.step sim.old (leak_view leak.now) (map draw_view draws.now) ≡ Some (texts, sim.new)) }
    ensures bad { (command : ℕ) → (result ≡ Err (BadLeak command)) ↔ ((steps.step sim.old (leak_view leak.now) (map draw_view draws.now) ≡ None) × (command ≡ length sim.old.kept)) }
    ensures unchanged { OnErr result (sim.new ≡ sim.old) }
{
    let mut passing = Passing {
        texts: Items::new(alloc),
        next: sim.next,
    };
    match take(alloc, &mut sim.kept, leak, draws.as_slice(), &mut passing) {
        Ok(()) => {
            let Passing { texts, next } = passing;
            sim.next = next;
            Ok(texts)
        }
        Err(NotMade) => Err(fault_of(sim.kept.as_slice(), leak, draws.as_slice())),
    }
}

/// The fault of an item of which nothing was made: that it names what isn't there, or else that memory is wanting.
fn fault_of(kept: &[Kept], leak: &Leak, draws: &[Draw]) -> SimFault
    ensures { (q command : ℕ) → (result ≡ BadLeak command) ↔ ((frames_simulated (map kept_view kept.now) q (leak_view leak.now) (map draw_view draws.now) ≡ None) × (command ≡ length kept.now)) }
{
    if is_made(&Earlier::Stored(kept), leak, draws) {
        SimFault::NoMemory
    } else {
        SimFault::BadLeak(kept.len() as u64)
    }
}

/// What passes for the item at this place and the draws at the same place, and what is kept of it.
fn take_at(
    alloc: Global,
    kept: &mut Items<Kept>,
    leaks: &[Leak],
    draws: &[Items<Draw>],
    k: usize,
    passing: &mut Passing,
) -> Result<(), NotMade>
    requires { k < length leaks.now }
    ensures { OnOk result (
        HasRun k (map leak_view leaks.now) (map (map draw_view) draws.now) passing.old.texts (record { kept = map kept_view kept.old; next = passing.old.next })
        → HasRun (k + 1) (map leak_view leaks.now) (map (map draw_view) draws.now) passing.new.texts (record { kept = map kept_view kept.new; next = passing.new.next })) }
{
    match item_at(draws, k) {
        Some(own) => take(alloc, kept, &leaks[k], own.as_slice(), passing),
        None => Err(NotMade),
    }
}

/// The first item that names a command, a place or a draw that isn't there, or that has no draws beside it; where there is none,
/// that memory is wanting. It takes no memory.
fn first_fault(leaks: &[Leak], draws: &[Items<Draw>]) -> SimFault
    ensures { (command : ℕ) → (result ≡ BadLeak command) ↔ steps.IsFirstBad command (map leak_view leaks.now) (map (map draw_view) draws.now) }
{
    for k in 0..leaks.len() {
        if !is_made_at(leaks, draws, k) {
            return SimFault::BadLeak(k as u64);
        }
    }
    SimFault::NoMemory
}

/// The bytes of all that passes for these items and their draws.
fn pass_all(
    alloc: Global,
    leaks: &[Leak],
    draws: &[Items<Draw>],
) -> Result<Items<Items<u8>>, NotMade>
    ensures { IfOk result (λ texts. bytes_simulated (map leak_view leaks.now) (map (map draw_view) draws.now) ≡ Some texts) }
{
    let mut kept = Items::new(alloc);
    let mut passing = Passing::greeted(alloc)?;
    for k in 0..leaks.len() {
        take_at(alloc, &mut kept, leaks, draws, k, &mut passing)?;
    }
    let Passing { texts, .. } = passing;
    Ok(texts)
}

// Promise P44, also here; clauses: made, bad
/// The bytes of all that passes for commands in a row, from a server that has taken nothing: Hello and its reply, and then what
/// passes for each command, by what it leaks and draws.
///
/// Errors: `BadLeak(command)` for the first command, counted from 0, whose item names a command, a place or a draw that isn't there, or
/// that has no draws beside it, also where memory is wanting; `NoMemory`, where there is no such item, as for `simulate_step`.
pub fn simulate(
    alloc: Global,
    leaks: &Items<Leak>,
    draws: &Items<Items<Draw>>,
) -> Result<Items<Items<u8>>, SimFault>
    ensures made { IfOk result (λ texts. bytes_simulated (map leak_view leaks.now) (map (map draw_view) draws.now) ≡ Some texts) }
    ensures bad { (command : ℕ) → (result ≡ Err (BadLeak command)) ↔ steps.IsFirstBad command (map leak_view leaks.now) (map (map draw_view) draws.now) }
{
    match pass_all(alloc, leaks.as_slice(), draws.as_slice()) {
        Ok(texts) => Ok(texts),
        Err(NotMade) => Err(first_fault(leaks.as_slice(), draws.as_slice())),
    }
}
