// A diary that passes questions 1 and 2, lent to be read, with its site: what a question may take for granted of its words. A request that is
// carried out has a lent book and a site apart, since its words are no good diary between two writes.
ghost use Rattle.std.specs.Prelude.{◌≡◌, ◌<◌};
ghost use Rattle.model.specs.Site.{capacity as capacity_of};
ghost use Rattle.book.specs.Good.{Good};
ghost use Rattle.book.specs.Lent.{reading};

use crate::grid::FIXED_WORDS;
use crate::region::Cells;
use crate::site::Site;

#[derive(Clone, Copy)]
pub struct Diary<'a> {
    pub words: &'a [u32],
    pub site: Site,
    pub ghost good: { Good site.settings (reading words.now) },
}

// A function for each region: which field of a struct is meant can't be handed to a function.
impl<'a> Diary<'a> {
    pub fn leave(self) -> Cells<'a>
        ensures grid { result.grid ≡ self.entry.site.grids.leave }
        ensures words { result.words.now ≡ self.entry.words.now }
    {
        Cells {
            words: self.words,
            grid: self.site.grids.leave,
        }
    }

    pub fn hotel(self) -> Cells<'a>
        ensures grid { result.grid ≡ self.entry.site.grids.hotel }
        ensures words { result.words.now ≡ self.entry.words.now }
    {
        Cells {
            words: self.words,
            grid: self.site.grids.hotel,
        }
    }

    pub fn standing(self) -> Cells<'a>
        ensures grid { result.grid ≡ self.entry.site.grids.standing }
        ensures words { result.words.now ≡ self.entry.words.now }
    {
        Cells {
            words: self.words,
            grid: self.site.grids.standing,
        }
    }

    pub fn attend(self) -> Cells<'a>
        ensures grid { result.grid ≡ self.entry.site.grids.attend }
        ensures words { result.words.now ≡ self.entry.words.now }
    {
        Cells {
            words: self.words,
            grid: self.site.grids.attend,
        }
    }

    pub fn conf(self) -> Cells<'a>
        ensures grid { result.grid ≡ self.entry.site.grids.conf }
        ensures words { result.words.now ≡ self.entry.words.now }
    {
        Cells {
            words: self.words,
            grid: self.site.grids.conf,
        }
    }

    pub fn lunch(self) -> Cells<'a>
        ensures grid { result.grid ≡ self.entry.site.grids.lunch }
        ensures words { result.words.now ≡ self.entry.words.now }
    {
        Cells {
            words: self.words,
            grid: self.site.grids.lunch,
        }
    }

    pub fn ride(self) -> Cells<'a>
        ensures grid { result.grid ≡ self.entry.site.grids.ride }
        ensures words { result.words.now ≡ self.entry.words.now }
    {
        Cells {
            words: self.words,
            grid: self.site.grids.ride,
        }
    }

    // The seat capacity of a dining room, read where it stands in the book: settings that are indexed would be laid out in memory, all of
    // them, for every request.
    pub fn capacity(self, room: u32) -> u32
        requires room_lt_dining { room < self.site.settings.dining }
        ensures { result ≡ capacity_of self.entry.site.settings room }
    {
        self.words[FIXED_WORDS + (room as usize)]
    }
}
