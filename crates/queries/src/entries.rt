// One slot: a member of a pool, a meeting's room or lunch, and who attends what.
ghost use Rattle.std.specs.Prelude.{◌≡◌, ◌&&◌, ◌/◌, ◌%◌, ◌≤◌, ◌<◌, leb, not};
ghost use Rattle.model.specs.Bounded.{any, bit, failing};
ghost use Rattle.model.specs.Site.{all_sessions};
ghost use Rattle.model.specs.Questions.{conf_held, lunch_held, meeting_of};
ghost use Rattle.model.specs.Reading.{state_of};
ghost use Rattle.book.specs.Grids.{cell_at};
ghost use Rattle.book.specs.Lent.{reading};

use crate::search::first_slot;
use book::diary::Diary;
use book::region::Cells;
use model::{Date, Session};

// Bit v of a slot of a pool.
pub fn member(g: Cells<'_>, slot: u32, v: u32) -> bool
    requires slot_lt_slots { slot < g.grid.slots }
    requires v_bound { v / 32 < g.grid.items }
    ensures { result ≡ bit (cell_at g.entry.grid (reading g.entry.words.now) slot (v / 32)) (v % 32) }
{
    let word = g.cell(slot, v / 32);
    pool::has(word, v % 32)
}

// Has a slot of lo..hi, hi left out, bit v?
pub fn member_between(g: Cells<'_>, v: u32, lo: u32, hi: u32) -> bool
    requires hi_le_slots { hi ≤ g.grid.slots }
    requires v_bound { v / 32 < g.grid.items }
    ensures { result ≡ any (λ i. leb lo i && bit (cell_at g.entry.grid (reading g.entry.words.now) i (v / 32)) (v % 32)) hi }
{
    for i in lo..hi {
        if member(g, i, v) {
            return true;
        }
    }
    false
}

// Has the visitor leave on the date?
pub fn on_leave(diary: Diary<'_>, date: Date, visitor: u32) -> bool
    requires date_lt_dates { date.0 < diary.site.settings.dates }
    requires visitor_lt_visitors { visitor < diary.site.settings.visitors }
    ensures { result ≡ (state_of (reading diary.entry.words.now)).leave date.0 visitor }
{
    member(diary.leave(), date.0, visitor)
}

// The lowest slot of first..last that has bit v. A call, and not compiled into its callers: of a loop among their other work the compiler keeps
// what they make of the slot in memory, for each slot that is passed, and a slot then takes up to 1.7 times as long.
#[inline(never)]
pub fn first_member(g: Cells<'_>, v: u32, first: u32, last: u32) -> Option<u32>
    requires last_lt_slots { last < g.grid.slots }
    requires v_bound { v / 32 < g.grid.items }
    ensures { result ≡ failing (λ i. not (bit (cell_at g.entry.grid (reading g.entry.words.now) i (v / 32)) (v % 32))) first last }
{
    first_slot(first, last, |i| member(g, i, v))
}

// The lowest date of first..last on which the visitor has leave.
pub fn first_on_leave(diary: Diary<'_>, visitor: u32, first: Date, last: Date) -> Option<u32>
    requires last_lt_dates { last.0 < diary.site.settings.dates }
    requires visitor_lt_visitors { visitor < diary.site.settings.visitors }
    ensures { result ≡ failing (λ d. not ((state_of (reading diary.entry.words.now)).leave d visitor)) first.0 last.0 }
{
    first_member(diary.leave(), visitor, first.0, last.0)
}

// Has the meeting a conference room in the session?
pub fn conf_held(diary: Diary<'_>, session: Session, meeting: u32) -> bool
    requires session_bound { session.0 < all_sessions diary.site.settings }
    requires meeting_lt_meetings { meeting < diary.site.settings.meetings }
    ensures { result ≡ conf_held (state_of (reading diary.entry.words.now)) session.0 meeting }
{
    diary.conf().row_has(session.0, meeting + 1)
}

// Has the meeting a lunch on the date?
pub fn lunch_held(diary: Diary<'_>, date: Date, meeting: u32) -> bool
    requires date_lt_dates { date.0 < diary.site.settings.dates }
    requires meeting_lt_meetings { meeting < diary.site.settings.meetings }
    ensures { result ≡ lunch_held (state_of (reading diary.entry.words.now)) date.0 meeting }
{
    diary.lunch().cell(date.0, meeting) != 0
}

// The meeting that the visitor attends in the session.
pub fn meeting_of(diary: Diary<'_>, session: Session, visitor: u32) -> Option<u32>
    requires session_bound { session.0 < all_sessions diary.site.settings }
    requires visitor_lt_visitors { visitor < diary.site.settings.visitors }
    ensures { result ≡ meeting_of (state_of (reading diary.entry.words.now)) session.0 visitor }
{
    diary.attend().cell(session.0, visitor).checked_sub(1)
}
