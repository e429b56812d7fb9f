//! The viewers of a table that no desk has yet.
ghost use Rattle.std.specs.Prelude.{◌≡◌, ◌+◌, IfOk, IfSome, OnErr, vec_len};
ghost use Rattle.std.specs.Option.{MatchOption};
ghost use Rattle.std.specs.Arc.{arc_value};
ghost use Rattle.desk_answers.specs.Hosts.{AreViewers};
ghost use Rattle.desk_looks.specs.Galleries.{IsNext};

use crate::looks::Looks;
use crate::season::Season;
use airline_base::Memory;
use seat_display::Viewer;
use std::marker::Model;
use std::sync::Arc;

/// Flights that threads share, and viewers of a table over their legs, each for one desk.
#[derive(Drop)]
pub struct Gallery {
    season: Arc<Season>,
    viewers: Vec<Viewer>,
}

impl Model for Gallery {
    ghost use Rattle.std.specs.Arc.{arc_value};
    ghost use Rattle.desk_answers.specs.Hosts.{AreViewers};
    ghost use Rattle.std.specs.Prelude.{vec_len};
    ghost use Rattle.desk_looks.specs.Galleries.{Hung};

    ghost Value = { Hung };

    ghost view = { λ s. record { flown = arc_value s.season; left = vec_len s.viewers } };

    ghost invariant = { λ s. AreViewers (arc_value s.season).grid s.viewers.items };
}

impl Gallery {
    pub fn new(season: &Arc<Season>, viewers: Vec<Viewer>) -> Result<Gallery, Memory>
        requires viewers { AreViewers (arc_value season.now).grid viewers.items }
        ensures { IfOk result (λ gallery. (gallery.flown ≡ arc_value season.now) × (gallery.left ≡ vec_len viewers)) }
    {
        let season = Arc::try_clone(season)?;
        Ok(Gallery { season, viewers })
    }

    /// What a desk's looks are answered by, as long as there is a viewer that no desk has.
    pub fn next(&mut self) -> Result<Option<Looks>, Memory>
        ensures next { IfOk result (IsNext self.old self.new) }
        ensures memory { OnErr result (self.new ≡ self.old) }
    {
        let season = Arc::try_clone(&self.season)?;
        match take_viewer(&season, &mut self.viewers) {
            Some(viewer) => Ok(Some(Looks::new(season, viewer))),
            None => Ok(None),
        }
    }
}

#[tactic(auto, using(crate::proofs::Galleries::last_viewer, crate::proofs::Galleries::others))]
fn take_viewer(season: &Season, viewers: &mut Vec<Viewer>) -> Option<Viewer>
    requires viewers { AreViewers season.now.grid viewers.old.items }
    ensures viewer { IfSome result (λ viewer. viewer.grid ≡ season.now.grid) }
    ensures left { MatchOption result ((vec_len viewers.old ≡ 0) × (vec_len viewers.new ≡ 0)) (λ _. vec_len viewers.new + 1 ≡ vec_len viewers.old) }
    ensures others { AreViewers season.now.grid viewers.new.items }
{
    viewers.pop()
}
