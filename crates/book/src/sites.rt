// The site of settings.
ghost use Rattle.std.specs.Prelude.{◌≡◌};
ghost use Rattle.units.specs.Ranges.{Ranges};
ghost use Rattle.book.specs.Sites.{site_of};

use crate::grid::grids_of;
use crate::site::Site;
use model::Settings;

pub fn site_of(s: Settings) -> Site
    requires { Ranges s }
    ensures { result ≡ site_of s }
{
    let grids = grids_of(s);
    Site { settings: s, grids }
}
