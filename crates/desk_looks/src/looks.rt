//! What the looks of a desk are answered by.
ghost use Rattle.std.specs.Prelude.{◌≡◌};
ghost use Rattle.std.specs.Arc.{arc_value};

use crate::season::Season;
use crate::window::Window;
use seat_display::Viewer;
use std::marker::Model;
use std::sync::Arc;

/// What the looks of a desk are answered by: flights that threads share, and a window of its own to a table over their legs.
#[derive(Drop)]
pub struct Looks {
    season: Arc<Season>,
    window: Window,
}

impl Model for Looks {
    ghost use Rattle.std.specs.Prelude.{◌≡◌};
    ghost use Rattle.std.specs.Arc.{arc_value};
    ghost use Rattle.desk_looks.specs.Watching.{Outfit};

    ghost Value = { Outfit };

    ghost view = { λ s. record { flown = arc_value s.season; window = s.window } };

    ghost invariant = { λ s. s.window.grid ≡ (arc_value s.season).grid };
}

impl Looks {
    /// By a viewer of a table over the legs of these flights.
    pub(crate) fn new(season: Arc<Season>, viewer: Viewer) -> Looks
        requires { viewer.grid ≡ (arc_value season).grid }
        ensures { result.flown ≡ arc_value season }
    {
        Looks {
            season,
            window: Window::new(viewer),
        }
    }

    pub(crate) fn into_parts(self) -> (Arc<Season>, Window)
        ensures parts { (arc_value result.0 ≡ self.flown) × (result.1 ≡ self.window) }
        ensures grid { result.1.grid ≡ (arc_value result.0).grid }
    {
        let Looks { season, window } = self;
        (season, window)
    }
}
