//! A layout that a grid, its copies and the counters over it share.
ghost use Rattle.std.specs.Prelude.{◌≡◌, IfOk};

use crate::ladder::Ladder;
use crate::laid_out::Layout;
use airline_base::Memory;
use std::alloc::Global;
use std::marker::Model;
use std::sync::Arc;

/// One of the owners of a layout.
#[derive(Drop)]
pub struct SharedLayout {
    layout: Arc<Layout>,
}

impl Model for SharedLayout {
    ghost use Rattle.std.specs.Arc.{arc_value};
    ghost use Rattle.seat_nesting.specs.declared.laid_out.Layout.{Layout};

    ghost Value = { Layout };

    ghost view = { λ s. arc_value s.layout };
}

impl SharedLayout {
    /// The first owner of a layout.
    pub fn of(alloc: Global, layout: Layout) -> Result<SharedLayout, Memory>
        ensures { IfOk result (λ shared. shared ≡ layout) }
    {
        match Arc::new(alloc, layout) {
            Ok(layout) => Ok(SharedLayout { layout }),
            Err(_) => Err(Memory),
        }
    }

    /// One owner more.
    pub fn again(&self) -> Result<SharedLayout, Memory>
        ensures { IfOk result (λ shared. shared ≡ self.now) }
    {
        match Arc::try_clone(&self.layout) {
            Ok(layout) => Ok(SharedLayout { layout }),
            Err(_) => Err(Memory),
        }
    }

    /// The layout.
    pub fn get(&self) -> &Layout
        ensures { result.now ≡ self.now }
    {
        &*self.layout
    }

    /// The ladders that its legs share.
    pub fn ladders(&self) -> &[Ladder]
        ensures { result.now ≡ self.now.shared.items }
    {
        self.get().shared.as_slice()
    }
}
