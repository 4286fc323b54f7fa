// Questions of a visitor, a meeting or a dining room that look at a slot's date or at several sets: 9, 14, 18 and 19.
ghost use Rattle.std.specs.Prelude.{◌≡◌, ◌≤◌, ◌<◌};
ghost use Rattle.model.specs.Kinds.{slots_of};
ghost use Rattle.model.specs.Reading.{state_of};
ghost use Rattle.model.specs.Site.{all_sessions};
ghost use Rattle.book.specs.Lent.{reading};
ghost use Rattle.questions.specs.Asked.{OnLeave, RoomLeft, NoBookings, NotHeld, holds_in, slots_fail, room_left, not_held};

use crate::short::Search;
use book::diary::Diary;
use model::{Date, Session};
use queries::bookings::has_bookings;
use queries::entries::{conf_held, first_on_leave, lunch_held, on_leave};
use queries::rooms::reserved;
use queries::search::first_slot;
use units::{Slot, after, date_of};

// Has the visitor leave on the date of the unit's slot i?
pub(crate) fn on_leave_in<U: Slot>(diary: Diary<'_>, visitor: u32, i: u32) -> bool
    requires i_bound { i < slots_of diary.site.settings U.unit }
    requires visitor_lt_visitors { visitor < diary.site.settings.visitors }
    ensures { result ≡ holds_in diary.entry.site.settings (state_of (reading diary.entry.words.now)) (OnLeave U.unit) visitor 0 i }
{
    let date = date_of(diary.site.settings, U::numbered(i));
    on_leave(diary, date, visitor)
}

// Question 9 of kinds 6 and 10: the lowest slot of first..last on whose date the visitor has no leave.
pub fn first_off_leave<S: Search, U: Slot>(
    diary: Diary<'_>,
    visitor: u32,
    first: U,
    last: U,
) -> Option<u32>
    requires last_bound { U.at last < slots_of diary.site.settings U.unit }
    requires visitor_lt_visitors { visitor < diary.site.settings.visitors }
    ensures { result ≡ slots_fail diary.entry.site.settings (reading diary.entry.words.now) (OnLeave U.unit) visitor 0 (U.at first) (U.at last) }
{
    S::lowest(
        first.number(),
        last.number(),
        |i| !on_leave_in::<U>(diary, visitor, i),
    )
}

// Question 14 on one date.
fn room_left(diary: Diary<'_>, date: Date, room: u32, n: u32) -> bool
    requires date_lt_dates { date.0 < diary.site.settings.dates }
    requires room_lt_dining { room < diary.site.settings.dining }
    requires n_bound { n ≤ 1000 }
    ensures { result ≡ room_left diary.entry.site.settings (state_of (reading diary.entry.words.now)) date.0 room n }
{
    reserved(diary, date, room) + n <= diary.capacity(room)
}

// Question 14: the lowest date of first..last on which n seats more are too many for the dining room.
pub fn first_over(diary: Diary<'_>, room: u32, n: u32, first: Date, last: Date) -> Option<u32>
    requires last_lt_dates { last.0 < diary.site.settings.dates }
    requires room_lt_dining { room < diary.site.settings.dining }
    requires n_bound { n ≤ 1000 }
    ensures { result ≡ slots_fail diary.entry.site.settings (reading diary.entry.words.now) RoomLeft room n first.0 last.0 }
{
    first_slot(first.0, last.0, |i| !room_left(diary, Date(i), room, n))
}

// Question 18: the lowest date of first..last on which the visitor has a hotel, ride or attend entry. There is none without leave, so the dates
// with leave are looked for.
pub fn first_booked(diary: Diary<'_>, visitor: u32, first: Date, last: Date) -> Option<u32>
    requires last_lt_dates { last.0 < diary.site.settings.dates }
    requires visitor_lt_visitors { visitor < diary.site.settings.visitors }
    ensures { result ≡ slots_fail diary.entry.site.settings (reading diary.entry.words.now) NoBookings visitor 0 first.0 last.0 }
{
    let mut from = first;
    while let Some(d) = first_on_leave(diary, visitor, from, last) {
        let date = Date(d);
        if has_bookings(diary, visitor, date) {
            return Some(d);
        }
        from = after(date);
    }
    None
}

// Question 19 in one session: what costs less is asked first.
pub fn not_held(diary: Diary<'_>, session: Session, meeting: u32) -> bool
    requires session_bound { session.0 < all_sessions diary.site.settings }
    requires meeting_lt_meetings { meeting < diary.site.settings.meetings }
    ensures { result ≡ not_held diary.entry.site.settings (state_of (reading diary.entry.words.now)) session.0 meeting }
{
    let date = date_of(diary.site.settings, session);
    if lunch_held(diary, date, meeting) {
        return false;
    }
    !conf_held(diary, session, meeting)
}

// Question 19: the lowest session of first..last in which the meeting has a conference room, or a lunch on its date.
pub fn first_held(diary: Diary<'_>, meeting: u32, first: Session, last: Session) -> Option<u32>
    requires last_bound { last.0 < all_sessions diary.site.settings }
    requires meeting_lt_meetings { meeting < diary.site.settings.meetings }
    ensures { result ≡ slots_fail diary.entry.site.settings (reading diary.entry.words.now) NotHeld meeting 0 first.0 last.0 }
{
    first_slot(first.0, last.0, |i| !not_held(diary, Session(i), meeting))
}
