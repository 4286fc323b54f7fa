// Dates: the visitors with leave on one, and the first on which a meeting stands in no session.
ghost use Rattle.std.specs.Prelude.{◌≡◌, ◌≤◌, ◌<◌};
ghost use Rattle.model.specs.Bounded.{count, failing};
ghost use Rattle.model.specs.Questions.{stands_on};
ghost use Rattle.model.specs.Reading.{state_of};
ghost use Rattle.book.specs.Lent.{reading};

use crate::entries::member_between;
use book::diary::Diary;
use model::{Date, Session};
use units::{after, first_on};

// How many visitors have leave on the date.
pub fn members(diary: Diary<'_>, date: Date) -> u32
    requires date_lt_dates { date.0 < diary.site.settings.dates }
    ensures { result ≡ count (λ v. (state_of (reading diary.entry.words.now)).leave date.0 v) diary.entry.site.settings.visitors }
{
    diary.leave().row_members(date.0)
}

// The lowest date of first..last on which the meeting stands in no session. A date's sessions end where the next date's begin, which is
// computed once for both: so the loop is written out, and is no `first_slot`.
pub fn first_without_session(diary: Diary<'_>, meeting: u32, first: Date, last: Date) -> Option<u32>
    requires meeting_lt_meetings { meeting < diary.site.settings.meetings }
    requires first_le_last { first.0 ≤ last.0 }
    requires last_lt_dates { last.0 < diary.site.settings.dates }
    ensures { result ≡ failing (λ d. stands_on (state_of (reading diary.entry.words.now)) d meeting) first.0 last.0 }
{
    let mut from = first_on::<Session>(diary.site.settings, first);
    for d in first.0..last.0 + 1 {
        let to = first_on::<Session>(diary.site.settings, after(Date(d)));
        if !member_between(diary.standing(), meeting, from.0, to.0) {
            return Some(d);
        }
        from = to;
    }
    None
}
