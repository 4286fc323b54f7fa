// Who attends what in a session, from one look at each attend cell.
ghost use Rattle.std.specs.Prelude.{◌≡◌, ◌<◌};
ghost use Rattle.model.specs.Site.{all_sessions};
ghost use Rattle.model.specs.Reading.{state_of};
ghost use Rattle.book.specs.Lent.{reading};
ghost use Rattle.pages.specs.Pages.{Tally};

use book::diary::Diary;
use model::Session;

// The most meetings of a site, and an entry for visitors who attend none.
const ENTRIES: usize = 128 + 1;

// How many visitors attend each meeting in the session: entry m + 1 is of meeting m, so that a cell is the index of its entry.
pub fn tally(diary: Diary<'_>, session: Session) -> [u32; ENTRIES]
    requires { session.0 < all_sessions diary.site.settings }
    ensures { Tally (state_of (reading diary.entry.words.now)) session.0 result }
{
    let attend = diary.attend();
    let mut table = [0u32; ENTRIES];
    for v in 0..diary.site.settings.visitors {
        let w = attend.cell(session.0, v) as usize;
        table[w] += 1;
    }
    table
}
