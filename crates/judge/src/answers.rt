// The questions of each kind past 7, in order, and the value of a request that is done.
//
// A run is searched at once (`questions::short`) where it is open in which slot the first no comes, if one does. Question 15 goes by a loop: an
// entry that is to be erased is mostly not there in the first slot already, and a loop that ends there is foreseen.
ghost use Rattle.std.specs.Prelude.{◌≡◌, ◌-◌, ◌≤◌, ◌<◌};
ghost use Rattle.model.specs.Kinds.{dates, times};
ghost use Rattle.model.specs.Reading.{state_of};
ghost use Rattle.model.specs.Site.{all_sessions, all_times, capacity as capacity_of};
ghost use Rattle.model.specs.State.{reserved as reserved_in};
ghost use Rattle.book.specs.Lent.{reading};
ghost use Rattle.judge.specs.Chains.{ask_of};
ghost use Rattle.judge.specs.Chains.{add_stay, attend_adds, conf_adds, lunch_adds, lunch_fits, standing_ends, erase_all, erase_pair};

use book::diary::Diary;
use book::region::Cells;
use model::{Answer, Date, Refusal, Session, Time, refused};
use queries::dates::first_without_session;
use queries::rooms::reserved;
use questions::cells::{
    first_not_member, first_row_with, first_row_without, first_with, first_without,
};
use questions::short::{AtOnce, ByLoop};
use questions::slots::{first_held, first_off_leave, first_over};
use units::date_of;

// A question with its number: on to the next where it found no slot, or refused at the slot found.
pub(crate) fn ask(number: u32, found: Option<u32>) -> Result<(), Refusal>
    ensures { result ≡ ask_of number found }
{
    match found {
        Some(place) => refused(number, place),
        None => Ok(()),
    }
}

// Kind 4. After question 11 the room's cell does not hold the visitor, so that 13 may ask the whole row.
pub fn add_hotel(diary: Diary<'_>, a: u32, b: u32, first: Date, last: Date) -> Answer
    requires last_lt_dates { last.0 < diary.site.settings.dates }
    requires a_lt_hotels { a < diary.site.settings.hotels }
    requires b_lt_visitors { b < diary.site.settings.visitors }
    ensures { result ≡ add_stay diary.entry.site.settings (reading diary.entry.words.now) diary.entry.site.grids.hotel dates a b first.0 last.0 }
{
    let away = first_not_member::<AtOnce>(diary.leave(), b, first.0, last.0);
    ask(9, away)?;
    let cells = diary.hotel();
    let there = first_with::<AtOnce>(cells, a, b + 1, first.0, last.0);
    ask(11, there)?;
    ask(12, first_without::<AtOnce>(cells, a, 0, first.0, last.0))?;
    ask(13, first_row_with(cells, b + 1, first.0, last.0))?;
    Ok(0)
}

// Kind 6: the same of a transport, where leave is asked of the date of a time. It is not one function with kind 4, as in `eager`: with two
// callers it would be called from the loop over requests, and its cells laid out in memory (docs/DECISIONS, "One call of the step").
pub fn add_ride(diary: Diary<'_>, a: u32, b: u32, first: Time, last: Time) -> Answer
    requires last_bound { last.0 < all_times diary.site.settings }
    requires a_lt_transports { a < diary.site.settings.transports }
    requires b_lt_visitors { b < diary.site.settings.visitors }
    ensures { result ≡ add_stay diary.entry.site.settings (reading diary.entry.words.now) diary.entry.site.grids.ride times a b first.0 last.0 }
{
    let away = first_off_leave::<AtOnce, _>(diary, b, first, last);
    ask(9, away)?;
    let cells = diary.ride();
    let there = first_with::<AtOnce>(cells, a, b + 1, first.0, last.0);
    ask(11, there)?;
    ask(12, first_without::<AtOnce>(cells, a, 0, first.0, last.0))?;
    ask(13, first_row_with(cells, b + 1, first.0, last.0))?;
    Ok(0)
}

// Kind 10. After question 11 the visitor's cell does not hold the meeting, so that 13 asks whether it is empty.
pub fn add_attend(diary: Diary<'_>, a: u32, b: u32, first: Session, last: Session) -> Answer
    requires last_bound { last.0 < all_sessions diary.site.settings }
    requires a_lt_meetings { a < diary.site.settings.meetings }
    requires b_lt_visitors { b < diary.site.settings.visitors }
    ensures { result ≡ attend_adds diary.entry.site.settings (reading diary.entry.words.now) diary.entry.site.grids.attend a b first.0 last.0 }
{
    let away = first_off_leave::<AtOnce, _>(diary, b, first, last);
    ask(9, away)?;
    let ended = first_not_member::<AtOnce>(diary.standing(), a, first.0, last.0);
    ask(10, ended)?;
    let cells = diary.attend();
    let there = first_with::<AtOnce>(cells, b, a + 1, first.0, last.0);
    ask(11, there)?;
    ask(13, first_without::<AtOnce>(cells, b, 0, first.0, last.0))?;
    Ok(0)
}

// Kind 12.
pub fn add_conf(diary: Diary<'_>, a: u32, b: u32, first: Session, last: Session) -> Answer
    requires last_bound { last.0 < all_sessions diary.site.settings }
    requires a_lt_rooms { a < diary.site.settings.rooms }
    requires b_lt_meetings { b < diary.site.settings.meetings }
    ensures { result ≡ conf_adds diary.entry.site.settings (reading diary.entry.words.now) diary.entry.site.grids.conf a b first.0 last.0 }
{
    let ended = first_not_member::<AtOnce>(diary.standing(), b, first.0, last.0);
    ask(10, ended)?;
    let pairs = diary.conf();
    let there = first_with::<AtOnce>(pairs, a, b + 1, first.0, last.0);
    ask(11, there)?;
    ask(12, first_without::<AtOnce>(pairs, a, 0, first.0, last.0))?;
    Ok(0)
}

// Kind 14 from question 10 on; question 13 as for kind 10.
fn add_lunch(diary: Diary<'_>, a: u32, b: u32, n: u32, first: Date, last: Date) -> Answer
    requires last_lt_dates { last.0 < diary.site.settings.dates }
    requires a_lt_dining { a < diary.site.settings.dining }
    requires b_lt_meetings { b < diary.site.settings.meetings }
    requires n_bound { n ≤ 1000 }
    requires first_le_last { first.0 ≤ last.0 }
    ensures { result ≡ lunch_adds diary.entry.site.settings (reading diary.entry.words.now) diary.entry.site.grids.lunch a b n first.0 last.0 }
{
    ask(10, first_without_session(diary, b, first, last))?;
    let triples = diary.lunch();
    let there = first_with::<AtOnce>(triples, b, a + 1, first.0, last.0);
    ask(11, there)?;
    let elsewhere = first_without::<AtOnce>(triples, b, 0, first.0, last.0);
    ask(13, elsewhere)?;
    ask(14, first_over(diary, a, n, first, last))?;
    Ok(0)
}

// Kind 14.
pub fn lunch_fits(diary: Diary<'_>, a: u32, b: u32, n: u32, first: Date, last: Date) -> Answer
    requires last_lt_dates { last.0 < diary.site.settings.dates }
    requires a_lt_dining { a < diary.site.settings.dining }
    requires b_lt_meetings { b < diary.site.settings.meetings }
    requires first_le_last { first.0 ≤ last.0 }
    ensures { result ≡ lunch_fits diary.entry.site.settings (reading diary.entry.words.now) diary.entry.site.grids.lunch a b n first.0 last.0 }
{
    if n < 1 {
        return refused(8, 0);
    }
    if diary.capacity(a) < n {
        return refused(8, 0);
    }
    add_lunch(diary, a, b, n, first, last)
}

// Kind 9.
pub fn end_standing(diary: Diary<'_>, a: u32, first: Session, last: Session) -> Answer
    requires last_bound { last.0 < all_sessions diary.site.settings }
    requires a_lt_meetings { a < diary.site.settings.meetings }
    ensures { result ≡ standing_ends diary.entry.site.settings (reading diary.entry.words.now) a first.0 last.0 }
{
    ask(19, first_held(diary, a, first, last))?;
    let missing = first_not_member::<AtOnce>(diary.standing(), a, first.0, last.0);
    ask(20, missing)?;
    Ok(0)
}

// Kind 16: a conference room in each session, and a lunch on each date from first's to last's.
pub fn erase_all(diary: Diary<'_>, b: u32, first: Session, last: Session) -> Answer
    requires last_bound { last.0 < all_sessions diary.site.settings }
    requires b_lt_meetings { b < diary.site.settings.meetings }
    ensures { result ≡ erase_all diary.entry.site.settings (reading diary.entry.words.now) b first.0 last.0 }
{
    ask(16, first_row_without(diary.conf(), b + 1, first.0, last.0))?;
    let from = date_of(diary.site.settings, first);
    let to = date_of(diary.site.settings, last);
    ask(17, first_with::<AtOnce>(diary.lunch(), b, 0, from.0, to.0))?;
    Ok(0)
}

// Kinds 5, 7, 11 and 15: the item's cell holds w in each slot.
pub fn erase(cells: Cells<'_>, item: u32, w: u32, first: u32, last: u32) -> Answer
    requires last_lt_slots { last < cells.grid.slots }
    requires item_lt_cells { item < cells.grid.items }
    ensures { result ≡ erase_pair (reading cells.entry.words.now) cells.entry.grid item w first last }
{
    ask(15, first_without::<ByLoop>(cells, item, w, first, last))?;
    Ok(0)
}

// Kind 19.
pub fn seats_left(diary: Diary<'_>, date: Date, room: u32) -> u32
    requires date_lt_dates { date.0 < diary.site.settings.dates }
    requires room_lt_dining { room < diary.site.settings.dining }
    ensures { result ≡ capacity_of diary.entry.site.settings room - reserved_in (state_of (reading diary.entry.words.now)) date.0 room }
{
    diary.capacity(room) - reserved(diary, date, room)
}
