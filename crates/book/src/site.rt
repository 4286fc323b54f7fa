// A site as the code takes it along: the settings of a book, and the grids that they give.
ghost use Rattle.std.specs.Prelude.{◌≡◌};
ghost use Rattle.book.specs.Grids.{grids_of};

use crate::grid::Grids;
pub use crate::sites::site_of;
use model::Settings;

#[derive(Clone, Copy)]
pub struct Site {
    pub settings: Settings,
    pub grids: Grids,
    pub ghost sited: { grids ≡ grids_of settings },
}
