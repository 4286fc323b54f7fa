// Rooms: the lowest conference room that is free in a run of sessions, and the seats reserved in a dining room.
ghost use Rattle.std.specs.Prelude.{◌≡◌, ◌≤◌, ◌<◌};
ghost use Rattle.model.specs.Bounded.{lowest};
ghost use Rattle.model.specs.Site.{all_sessions};
ghost use Rattle.model.specs.State.{reserved as reserved_in};
ghost use Rattle.model.specs.Questions.{lowest_free};
ghost use Rattle.model.specs.Reading.{state_of};
ghost use Rattle.book.specs.Lent.{reading};
ghost use Rattle.queries.specs.Shown.{Seats, empty_in, weights_of};

use crate::search::middle_of;
use book::diary::Diary;
use book::region::Cells;
use model::{Date, Session};

// The lowest conference room free in every session of first..last: a room is left at the first session in which it is taken. Two loops and
// a label: the form of this search is a rule of the project (docs/PROOFS.md, "Forms of the language").
fn lowest_in(diary: Diary<'_>, first: Session, last: Session) -> Option<u32>
    requires first_le_last { first.0 ≤ last.0 }
    requires last_bound { last.0 < all_sessions diary.site.settings }
    ensures { result ≡ lowest_free (state_of (reading diary.entry.words.now)) first.0 last.0 }
{
    let rooms = diary.site.settings.rooms;
    let from = first.0;
    let to = last.0;
    let mut next: u32 = 0;
    'rooms: loop {
        if next == rooms {
            break 'rooms None;
        }
        let room = next;
        next += 1;
        for slot in from..=to {
            if diary.conf().cell(slot, room) != 0 {
                continue 'rooms;
            }
        }
        break 'rooms Some(room);
    }
}

// The cells of an item in three slots are empty. All three are read, with no branch between them that the processor would not foresee.
fn empty_in(g: Cells<'_>, first: u32, middle: u32, last: u32, item: u32) -> bool
    requires first_lt_slots { (first < g.grid.slots) × (middle < g.grid.slots) × (last < g.grid.slots) × (item < g.grid.items) }
    ensures { result ≡ empty_in g.entry.grid (reading g.entry.words.now) first middle last item }
{
    (g.cell(first, item) == 0) & (g.cell(middle, item) == 0) & (g.cell(last, item) == 0)
}

// The lowest item whose cells in three slots are empty.
fn lowest_soon(g: Cells<'_>, items: u32, first: u32, middle: u32, last: u32) -> Option<u32>
    requires first_lt_slots { (first < g.grid.slots) × (middle < g.grid.slots) × (last < g.grid.slots) × (items ≤ g.grid.items) }
    ensures { result ≡ lowest (empty_in g.entry.grid (reading g.entry.words.now) first middle last) 0 items }
{
    (0..items).find(|item| empty_in(g, first, middle, last, *item))
}

// The lowest conference room free in every session of first..last. A run of at most three sessions is asked as three, its first, its
// middle and its last, of which some are the same if it is shorter: the processor does not foresee where a loop over so few ends.
pub fn lowest_free(diary: Diary<'_>, first: Session, last: Session) -> Option<u32>
    requires first_le_last { first.0 ≤ last.0 }
    requires last_bound { last.0 < all_sessions diary.site.settings }
    ensures { result ≡ lowest_free (state_of (reading diary.entry.words.now)) first.0 last.0 }
{
    let from = first.0;
    let to = last.0;
    if to - from <= 2 {
        let conf = diary.conf();
        let middle = middle_of(from, to);
        return lowest_soon(conf, diary.site.settings.rooms, from, middle, to);
    }
    lowest_in(diary, first, last)
}

// The seats of the meeting's lunch, if it is in the dining room. A lunch cell holds its room plus 1, or 0 for no lunch, and each of these 17
// has a weight: 1 for this room, 0 for all others. The word of the seats is taken times the weight, for the processor does not foresee a
// branch on the cell.
fn seats_at(diary: Diary<'_>, date: Date, room: u32, weights: &[u32; 17], meeting: u32) -> u32
    requires date_lt_dates { date.0 < diary.site.settings.dates }
    requires room_lt_dining { room < diary.site.settings.dining }
    requires weighed { weights.now ≡ weights_of room }
    requires meeting_lt_meetings { meeting < diary.site.settings.meetings }
    ensures { Seats (state_of (reading diary.entry.words.now)) date.0 room meeting result }
{
    let lunch = diary.lunch();
    let at = lunch.cell(date.0, meeting) as usize;
    lunch.word(date.0, meeting, 1) * weights[at]
}

// The seats reserved in a dining room on a date.
pub fn reserved(diary: Diary<'_>, date: Date, room: u32) -> u32
    requires date_lt_dates { date.0 < diary.site.settings.dates }
    requires room_lt_dining { room < diary.site.settings.dining }
    ensures { result ≡ reserved_in (state_of (reading diary.entry.words.now)) date.0 room }
{
    let mut weights = [0u32; 17];
    weights[(room + 1) as usize] = 1;
    (0..diary.site.settings.meetings)
        .map(|m| seats_at(diary, date, room, &weights, m))
        .sum()
}
