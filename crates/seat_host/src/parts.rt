//! The parts of a host, which no type names yet.
ghost use Rattle.std.specs.Prelude.{◌≡◌, ◌<◌, ◌≤◌, ◌⊎◌, ◌↔◌, [], All, IsTrue, OnOk, IfOk, IfErr, length, vec_len};
ghost use Rattle.seat_display.specs.Faces.{opened};
ghost use Rattle.seat_rules.specs.Journal.{IsLegal};
ghost use Rattle.seat_rules.specs.Histories.{OnlyFirst};
ghost use Rattle.seat_host.specs.declared.parts.HostFault.TheVariants.{Sessions, Memory as NoMemory};

use crate::ledgers::Blanks;
use airline_base::Memory;
use seat_core::Core;
use seat_display::{Publisher, Shows, Viewer, open as open_display};
use seat_journal::Entry;
use seat_nesting::Grid;
use std::alloc::Global;
use std::marker::Model;
use std::sync::Wait;

/// Why no host was opened.
#[derive(Clone, Copy)]
pub enum HostFault {
    /// The number of sessions is not 1 to 8.
    Sessions,
    /// A growth was refused.
    Memory,
}

/// The parts of a host. They are never dropped: `Host::open` uses them up.
pub struct Parts {
    pub(crate) grid: Grid,
    pub(crate) core: Core,
    pub(crate) publisher: Publisher,
    pub(crate) viewers: Vec<Viewer>,
    pub(crate) sessions: u8,
    pub(crate) blanks: Blanks,
}

impl Model for Parts {
    ghost use Rattle.std.specs.Prelude.{◌≡◌, ◌+◌, ◌<◌, ◌≤◌, [], All, vec_len};
    ghost use Rattle.seat_display.specs.Faces.{opened};
    ghost use Rattle.seat_rules.specs.Histories.{OnlyFirst};
    ghost use Rattle.seat_host.specs.Named.{Named};

    ghost Value = { Named };

    ghost view = { λ p. record { grid = p.core.grid; cap = p.core.cap; book = p.publisher.book; sessions = p.sessions; names = p.blanks; past = p.core.journal } };

    ghost invariant = { λ p. (p.core.cap ≤ 999999) × OnlyFirst p.sessions p.core.journal × (p.grid ≡ p.core.grid) × (p.publisher.grid ≡ p.core.grid) × (p.publisher.visible ≡ p.core.journal) × (p.publisher.pending ≡ []) × (0 < p.sessions) × (p.sessions < 9) × (vec_len p.viewers ≡ p.sessions + 1) × All (λ v. v ≡ opened p.publisher.book p.core.grid) p.viewers.items };
}

impl Parts {
    /// The parts of a host for a manager and so many sessions, 1 to 8, over a grid. Its journal takes `cap` lines, 1 to 999,999.
    /// Whether a look finds rooms is as `shows` says.
    #[tactic(auto, using(crate::proofs::Opening::only_none))]
    pub fn new<R: Wait>(
        rt: &R,
        alloc: Global,
        grid: Grid,
        sessions: u8,
        cap: u32,
        shows: Shows,
    ) -> Result<Parts, HostFault>
        requires cap { (1 ≤ cap) × (cap ≤ 999999) }
        ensures parts { IfOk result (λ p. (p.grid ≡ grid) × (p.cap ≡ cap) × (p.sessions ≡ sessions)) }
        ensures past { IfOk result (λ p. p.past ≡ []) }
        ensures range { OnOk result ((1 ≤ sessions) × (sessions ≤ 8)) }
        ensures sessions { IfErr result (λ f. f ≡ Sessions → (sessions < 1) ⊎ (8 < sessions)) }
        ensures memory { IfErr result (λ f. f ≡ NoMemory → (1 ≤ sessions) × (sessions ≤ 8)) }
    {
        if !is_in_range(sessions) {
            return Err(HostFault::Sessions);
        }
        match Core::new(alloc, grid, cap) {
            Ok(core) => Parts::over(rt, alloc, core, sessions, shows),
            Err(Memory) => Err(HostFault::Memory),
        }
    }

    /// The parts of a host for a manager and so many sessions, 1 to 8, that goes on from an inventory: its limits, its most
    /// lines, at most 999,999, and its lines, of which none may be of a session above these. Each line stays the receipt of
    /// its session, and is visible from the first. Whether a look finds rooms is as `shows` says.
    pub fn over<R: Wait>(
        rt: &R,
        alloc: Global,
        core: Core,
        sessions: u8,
        shows: Shows,
    ) -> Result<Parts, HostFault>
        requires most { core.cap ≤ 999999 }
        requires only { OnlyFirst sessions core.journal }
        ensures parts { IfOk result (λ p. (p.grid ≡ core.grid) × (p.cap ≡ core.cap) × (p.sessions ≡ sessions)) }
        ensures past { IfOk result (λ p. p.past ≡ core.journal) }
        ensures range { OnOk result ((1 ≤ sessions) × (sessions ≤ 8)) }
        ensures sessions { IfErr result (λ f. f ≡ Sessions → (sessions < 1) ⊎ (8 < sessions)) }
        ensures memory { IfErr result (λ f. f ≡ NoMemory → (1 ≤ sessions) × (sessions ≤ 8)) }
    {
        if !is_in_range(sessions) {
            return Err(HostFault::Sessions);
        }
        match Parts::beside(rt, alloc, core, sessions, shows) {
            Ok(parts) => Ok(parts),
            Err(Memory) => Err(HostFault::Memory),
        }
    }

    // The parts around an inventory: a copy of its limits, and a table that shows its lines.
    fn beside<R: Wait>(
        rt: &R,
        alloc: Global,
        core: Core,
        sessions: u8,
        shows: Shows,
    ) -> Result<Parts, Memory>
        requires most { core.cap ≤ 999999 }
        requires only { OnlyFirst sessions core.journal }
        requires sessions { (1 ≤ sessions) × (sessions ≤ 8) }
        ensures parts { IfOk result (λ p. (p.grid ≡ core.grid) × (p.cap ≡ core.cap) × (p.sessions ≡ sessions)) }
        ensures past { IfOk result (λ p. p.past ≡ core.journal) }
    {
        let Ok(grid) = core.grid().copy(alloc) else {
            return Err(Memory);
        };
        let Ok((publisher, viewers)) = shown_over(
            rt,
            alloc,
            &grid,
            core.journal(),
            sessions + 1,
            shows,
        ) else {
            return Err(Memory);
        };
        Ok(Parts {
            grid,
            core,
            publisher,
            viewers,
            sessions,
            blanks: Blanks::new(),
        })
    }
}

// A table for so many places that shows these lines, with its viewers.
fn shown_over<R: Wait>(
    rt: &R,
    alloc: Global,
    grid: &Grid,
    lines: &[Entry],
    places: u8,
    shows: Shows,
) -> Result<(Publisher, Vec<Viewer>), Memory>
    requires places { (0 < places) × (places < 10) }
    requires legal { IsLegal grid.now lines.now }
    requires few { length lines.now ≤ 999999 }
    ensures publisher { IfOk result (λ r. (r.0.grid ≡ grid.now) × (r.0.visible ≡ lines.now) × (r.0.pending ≡ [])) }
    ensures viewers { IfOk result (λ r. (vec_len r.1 ≡ places) × All (λ v. v ≡ opened r.0.book grid.now) r.1.items) }
{
    let Ok((publisher, viewers)) = open_display(rt, alloc, grid, places, shows) else {
        return Err(Memory);
    };
    let Ok(publisher) = showing(rt, alloc, publisher, lines) else {
        return Err(Memory);
    };
    Ok((publisher, viewers))
}

// Whether a host can have so many sessions.
fn is_in_range(sessions: u8) -> bool
    ensures { IsTrue result ↔ (1 ≤ sessions) × (sessions ≤ 8) }
{
    sessions >= 1 && sessions <= 8
}

/// A table that shows these lines, each a copy, where it has shown none: at most 999,999 lines that are legal over its limits. A
/// host or an inventory that goes on from older lines starts so. Where memory is wanting the publisher is used up.
pub fn showing<R: Wait>(
    rt: &R,
    alloc: Global,
    publisher: Publisher,
    lines: &[Entry],
) -> Result<Publisher, Memory>
    requires empty { (publisher.visible ≡ []) × (publisher.pending ≡ []) }
    requires legal { IsLegal publisher.grid lines.now }
    requires few { length lines.now ≤ 999999 }
    ensures visible { IfOk result (λ p. (p.visible ≡ lines.now) × (p.pending ≡ [])) }
    ensures same { IfOk result (λ p. (p.book ≡ publisher.book) × (p.grid ≡ publisher.grid)) }
{
    let mut publisher = publisher;
    match append_all(alloc, &mut publisher, lines) {
        Ok(()) => {
            publisher.publish(rt);
            Ok(publisher)
        }
        Err(Memory) => {
            publisher.end(rt);
            Err(Memory)
        }
    }
}

// Appends a copy of each line.
fn append_all(alloc: Global, publisher: &mut Publisher, lines: &[Entry]) -> Result<(), Memory>
    requires empty { (publisher.old.visible ≡ []) × (publisher.old.pending ≡ []) }
    requires legal { IsLegal publisher.old.grid lines.now }
    requires few { length lines.now ≤ 999999 }
    ensures pending { OnOk result (publisher.new.pending ≡ lines.now) }
    ensures same { (publisher.new.book ≡ publisher.old.book) × (publisher.new.grid ≡ publisher.old.grid)
        × (publisher.new.visible ≡ publisher.old.visible) }
{
    for line in lines {
        let Ok(shown) = line.copy(alloc) else {
            return Err(Memory);
        };
        let Ok(()) = publisher.append(shown) else {
            return Err(Memory);
        };
    }
    Ok(())
}
