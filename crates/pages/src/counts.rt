// How many lines there are: the conference rooms in use in a session, and in the sessions of a run.
ghost use Rattle.std.specs.Prelude.{◌≡◌, ◌≤◌, ◌<◌};
ghost use Rattle.model.specs.Site.{all_sessions};
ghost use Rattle.model.specs.Page.{session_lines};
ghost use Rattle.model.specs.Reading.{state_of};
ghost use Rattle.book.specs.Lent.{reading};
ghost use Rattle.pages.specs.Pages.{Count, between};

use book::diary::Diary;
use model::Session;
use queries::bookings::full;

fn lines_in(diary: Diary<'_>, session: Session) -> u32
    requires { session.0 < all_sessions diary.site.settings }
    ensures { Count (session_lines (state_of (reading diary.entry.words.now)) session.0) 64 result }
{
    let conf = diary.conf();
    (0..diary.site.settings.rooms)
        .map(|room| full(conf.cell(session.0, room)))
        .sum()
}

// The sessions from `from` to before `to`.
pub fn lines_between(diary: Diary<'_>, from: Session, to: Session) -> u32
    requires { (from.0 ≤ to.0) × (to.0 ≤ all_sessions diary.site.settings) }
    ensures { Count (between (state_of (reading diary.entry.words.now)) from.0 to.0) 409600 result }
{
    (from.0..to.0).map(|i| lines_in(diary, Session(i))).sum()
}
