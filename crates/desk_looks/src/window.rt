//! A viewer of the published table, and how often nothing was seen.
ghost use Rattle.std.specs.Prelude.{◌≡◌, IfNone, IfSome, length};
ghost use Rattle.std.specs.Fn.{FnOnceReturnsAt};
ghost use Rattle.seat_display.specs.Faces.{viewed};
ghost use Rattle.seat_rules.specs.Prefixes.{Begins};
ghost use Rattle.desk_looks.specs.Windows.{IsSameTable, refused_once};

use seat_display::{Sight, Viewer};
use std::marker::Model;

/// It counts each look by which nothing was seen: no reader was let in, or memory was wanting for what was seen.
#[derive(Drop)]
pub struct Window {
    viewer: Viewer,
    refused: u64,
}

impl Model for Window {
    ghost use Rattle.desk_looks.specs.Windows.{Windowed};

    ghost Value = { Windowed };

    ghost view = { λ s. record {
      book = s.viewer.book;
      grid = s.viewer.grid;
      front = s.viewer.front;
      refused = s.refused;
    } };
}

impl Window {
    /// Over a viewer by which nothing was refused yet.
    pub fn new(viewer: Viewer) -> Window
        ensures table { (result.book ≡ viewer.book) × (result.grid ≡ viewer.grid) × (result.front ≡ viewer.front) }
        ensures none { result.refused ≡ 0 }
    {
        Window { viewer, refused: 0 }
    }

    /// How many lines were seen.
    pub fn seen(&self) -> u32
        ensures { result ≡ length self.now.front }
    {
        self.viewer.seen()
    }

    /// Has `at` look at what is then seen, as `Viewer::look` does. `None` counts.
    pub fn look<T: Drop, F: FnOnce(&Sight) -> T>(&mut self, at: F) -> Option<T>
        requires { F.IsAlwaysCallable at }
        ensures found { IfSome result (λ t. FnOnceReturnsAt F.FnOnce at (viewed self.new.book self.new.grid self.new.front) t) }
        ensures front { Begins self.old.front self.new.front }
        ensures none { IfNone result (self.new ≡ refused_once self.old) }
        ensures some { IfSome result (λ _. self.new.refused ≡ self.old.refused) }
        ensures same { IsSameTable self.old self.new }
    {
        let seen = self.viewer.look(at);
        if seen.is_none() {
            self.refuse();
        }
        seen
    }

    /// Counts a look for which memory was wanting.
    pub(crate) fn refuse(&mut self)
        ensures { self.new ≡ refused_once self.old }
    {
        self.refused = self.refused.saturating_add(1);
    }
}
