// The hotel, ride and attend entries of a visitor on a run of dates.
ghost use Rattle.std.specs.Prelude.{◌≡◌, ◌≤◌, ◌<◌, not, eqb};
ghost use Rattle.model.specs.Bounded.{one};
ghost use Rattle.model.specs.Questions.{bookings as bookings_in};
ghost use Rattle.model.specs.Reading.{state_of};
ghost use Rattle.queries.specs.Shown.{column_count};
ghost use Rattle.book.specs.Lent.{reading};

use crate::entries::on_leave;
use book::diary::Diary;
use book::region::Cells;
use model::{Date, Session, Time};
use units::on_dates;

// 1 for a cell with an entry, whose first word is not 0.
pub fn full(w: u32) -> u32
    ensures { result ≡ one (not (eqb w 0)) }
{
    u32::from(w != 0)
}

// In how many of the slots lo..hi, hi left out, the item's cell is full.
fn column_count(g: Cells<'_>, item: u32, lo: u32, hi: u32) -> u32
    requires item_lt_g { item < g.grid.items }
    requires lo_le_hi { (lo ≤ hi) × (hi ≤ g.grid.slots) × (g.grid.slots ≤ 38400) }
    ensures { result ≡ column_count g.entry.grid (reading g.entry.words.now) item lo hi }
{
    (lo..hi).map(|i| full(g.cell(i, item))).sum()
}

// Is the item's cell full in one of them? The rows lie far apart, so that the search ends with the first.
fn column_has(g: Cells<'_>, item: u32, lo: u32, hi: u32) -> bool
    requires item_lt_g { item < g.grid.items }
    requires hi_le_slots { hi ≤ g.grid.slots }
    ensures { result ≡ not (eqb (column_count g.entry.grid (reading g.entry.words.now) item lo hi) 0) }
{
    for i in lo..hi {
        if g.cell(i, item) != 0 {
            return true;
        }
    }
    false
}

// The entries of the visitor on the date: there are none without leave, and else they are searched for in every slot of the date.
fn entries_on(diary: Diary<'_>, visitor: u32, date: Date) -> u32
    requires visitor_lt_visitors { visitor < diary.site.settings.visitors }
    requires date_lt_dates { date.0 < diary.site.settings.dates }
    ensures { result ≡ bookings_in (state_of (reading diary.entry.words.now)) visitor date.0 date.0 }
{
    if !on_leave(diary, date, visitor) {
        return 0;
    }
    let sessions = on_dates::<Session>(diary.site.settings, date, date);
    let times = on_dates::<Time>(diary.site.settings, date, date);
    let nights = diary.hotel().row_count(date.0, visitor + 1);
    let meetings = column_count(diary.attend(), visitor, sessions.from.0, sessions.to.0);
    let rides = diary
        .ride()
        .rows_count(visitor + 1, times.from.0, times.to.0);
    nights + meetings + rides
}

// The entries of the visitor on the dates first..last, date by date.
pub fn bookings(diary: Diary<'_>, visitor: u32, first: Date, last: Date) -> u32
    requires visitor_lt_visitors { visitor < diary.site.settings.visitors }
    requires first_le_last { first.0 ≤ last.0 }
    requires last_lt_dates { last.0 < diary.site.settings.dates }
    ensures { result ≡ bookings_in (state_of (reading diary.entry.words.now)) visitor first.0 last.0 }
{
    (first.0..last.0 + 1)
        .map(|d| entries_on(diary, visitor, Date(d)))
        .sum()
}

// Has the visitor an entry on the date? What costs least is asked first: leave, without which there is none, a meeting, whose cell is the
// visitor's own, a hotel room, which is searched for in a row, and a ride, searched for in a row of each time.
pub fn has_bookings(diary: Diary<'_>, visitor: u32, date: Date) -> bool
    requires visitor_lt_visitors { visitor < diary.site.settings.visitors }
    requires date_lt_dates { date.0 < diary.site.settings.dates }
    ensures { result ≡ not (eqb (bookings_in (state_of (reading diary.entry.words.now)) visitor date.0 date.0) 0) }
{
    // taken out once, so that the site itself is not laid out in memory for the calls below
    let s = diary.site.settings;
    if !on_leave(diary, date, visitor) {
        return false;
    }
    let sessions = on_dates::<Session>(s, date, date);
    if column_has(diary.attend(), visitor, sessions.from.0, sessions.to.0) {
        return true;
    }
    if diary.hotel().row_count(date.0, visitor + 1) != 0 {
        return true;
    }
    let times = on_dates::<Time>(s, date, date);
    diary
        .ride()
        .rows_have(visitor + 1, times.from.0, times.to.0)
}
