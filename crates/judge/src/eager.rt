// Eight kinds for whoever asks or brings a party: every question is put, and the first no is the answer. The answers are those of `visitors`
// and `meetings`, whose functions are left to the loop over requests: a function with one caller is compiled into it, and with a second
// caller these eight, the longest, would be called there, with the diary and the request laid out in memory (docs/DECISIONS, "What asking costs
// the loop").
ghost use Rattle.std.specs.Prelude.{◌≡◌, ◌≤◌, ◌<◌};
ghost use Rattle.model.specs.Machine.{step};
ghost use Rattle.model.specs.Questions.{stands_on};
ghost use Rattle.model.specs.Reading.{state_of};
ghost use Rattle.model.specs.Site.{all_sessions};
ghost use Rattle.book.specs.Lent.{reading};
ghost use Rattle.questions.specs.Asked.{NoBookings, NotHeld, StandsThatDate, slots_fail};
ghost use Rattle.judge.specs.Chains.{lunch_adds, stay_adds};

use crate::answers::ask;
use book::diary::Diary;
use book::region::Cells;
use kinds::fields::fields;
use kinds::table::{
    add_conf_row, add_lunch_row, attend_row, hotel_row, meeting_row, ride_row, standing_row,
    visitor_row,
};
use model::{Answer, Date, Request, Session, Time, refused};
use queries::bookings::bookings;
use queries::entries::member_between;
use queries::search::first_slot;
use questions::cells::{
    first_not_member, first_row_with, first_row_without, first_with, first_without,
};
use questions::short::ByLoop;
use questions::slots::{first_off_leave, first_over, not_held};
use units::{date_of, on_dates};

// Question 18 by counting: the lowest date of first..last on which the visitor has a booking.
fn first_booked(diary: Diary<'_>, visitor: u32, first: Date, last: Date) -> Option<u32>
    requires last_lt_dates { last.0 < diary.site.settings.dates }
    requires visitor_lt_visitors { visitor < diary.site.settings.visitors }
    ensures { result ≡ slots_fail diary.entry.site.settings (reading diary.entry.words.now) NoBookings visitor 0 first.0 last.0 }
{
    first_slot(
        first.0,
        last.0,
        |i| bookings(diary, visitor, Date(i), Date(i)) != 0,
    )
}

// Kind 2: a visitor's leave ends.
pub fn end_leave(diary: Diary<'_>, r: Request) -> Answer
    requires kind_value { r.kind ≡ 2 }
    ensures { result ≡ (step (state_of (reading diary.entry.words.now)) r).answer }
{
    fields(visitor_row(diary.site.settings), r)?;
    let booked = first_booked(diary, r.b, Date(r.first), Date(r.last));
    ask(18, booked)?;
    Ok(0)
}

// Kinds 4 and 6: by what question 9 found, whether a hotel room or a transport takes the visitor, for whom w stands in a cell.
fn stay(away: Option<u32>, cells: Cells<'_>, a: u32, w: u32, first: u32, last: u32) -> Answer
    requires last_lt_slots { last < cells.grid.slots }
    requires a_lt_items { a < cells.grid.items }
    ensures { result ≡ stay_adds away (reading cells.entry.words.now) cells.entry.grid a w first last }
{
    let there = first_with::<ByLoop>(cells, a, w, first, last);
    let taken = first_without::<ByLoop>(cells, a, 0, first, last);
    let elsewhere = first_row_with(cells, w, first, last);
    ask(9, away)?;
    ask(11, there)?;
    ask(12, taken)?;
    ask(13, elsewhere)?;
    Ok(0)
}

// Kind 4: a visitor gets a hotel room.
pub fn add_hotel(diary: Diary<'_>, r: Request) -> Answer
    requires kind_value { r.kind ≡ 4 }
    ensures { result ≡ (step (state_of (reading diary.entry.words.now)) r).answer }
{
    fields(hotel_row(diary.site.settings), r)?;
    let away = first_not_member::<ByLoop>(diary.leave(), r.b, r.first, r.last);
    stay(away, diary.hotel(), r.a, r.b + 1, r.first, r.last)
}

// Kind 6: a visitor gets a ride.
pub fn add_ride(diary: Diary<'_>, r: Request) -> Answer
    requires kind_value { r.kind ≡ 6 }
    ensures { result ≡ (step (state_of (reading diary.entry.words.now)) r).answer }
{
    fields(ride_row(diary.site.settings), r)?;
    let away = first_off_leave::<ByLoop, _>(diary, r.b, Time(r.first), Time(r.last));
    stay(away, diary.ride(), r.a, r.b + 1, r.first, r.last)
}

// Question 19: the lowest session of first..last in which the meeting has a conference room, or a lunch on its date. As in `questions`, whose
// function is left to the loop over requests too.
fn first_held(diary: Diary<'_>, meeting: u32, first: Session, last: Session) -> Option<u32>
    requires last_bound { last.0 < all_sessions diary.site.settings }
    requires meeting_lt_meetings { meeting < diary.site.settings.meetings }
    ensures { result ≡ slots_fail diary.entry.site.settings (reading diary.entry.words.now) NotHeld meeting 0 first.0 last.0 }
{
    first_slot(first.0, last.0, |i| !not_held(diary, Session(i), meeting))
}

// Kind 9: a meeting no longer stands.
pub fn end_standing(diary: Diary<'_>, r: Request) -> Answer
    requires kind_value { r.kind ≡ 9 }
    ensures { result ≡ (step (state_of (reading diary.entry.words.now)) r).answer }
{
    fields(standing_row(diary.site.settings), r)?;
    let held = first_held(diary, r.a, Session(r.first), Session(r.last));
    let ended = first_not_member::<ByLoop>(diary.standing(), r.a, r.first, r.last);
    ask(19, held)?;
    ask(20, ended)?;
    Ok(0)
}

// Kind 10: a visitor attends a meeting.
pub fn add_attend(diary: Diary<'_>, r: Request) -> Answer
    requires kind_value { r.kind ≡ 10 }
    ensures { result ≡ (step (state_of (reading diary.entry.words.now)) r).answer }
{
    fields(attend_row(diary.site.settings), r)?;
    let away = first_off_leave::<ByLoop, _>(diary, r.b, Session(r.first), Session(r.last));
    let ended = first_not_member::<ByLoop>(diary.standing(), r.a, r.first, r.last);
    let cells = diary.attend();
    let there = first_with::<ByLoop>(cells, r.b, r.a + 1, r.first, r.last);
    let elsewhere = first_without::<ByLoop>(cells, r.b, 0, r.first, r.last);
    ask(9, away)?;
    ask(10, ended)?;
    ask(11, there)?;
    ask(13, elsewhere)?;
    Ok(0)
}

// Kind 12: a meeting gets a conference room.
pub fn add_conf(diary: Diary<'_>, r: Request) -> Answer
    requires kind_value { r.kind ≡ 12 }
    ensures { result ≡ (step (state_of (reading diary.entry.words.now)) r).answer }
{
    fields(add_conf_row(diary.site.settings), r)?;
    let ended = first_not_member::<ByLoop>(diary.standing(), r.b, r.first, r.last);
    let pairs = diary.conf();
    let there = first_with::<ByLoop>(pairs, r.a, r.b + 1, r.first, r.last);
    let in_use = first_without::<ByLoop>(pairs, r.a, 0, r.first, r.last);
    ask(10, ended)?;
    ask(11, there)?;
    ask(12, in_use)?;
    Ok(0)
}

// Does the meeting stand in a session of the date?
fn stands_on(diary: Diary<'_>, meeting: u32, date: Date) -> bool
    requires meeting_lt_meetings { meeting < diary.site.settings.meetings }
    requires date_lt_dates { date.0 < diary.site.settings.dates }
    ensures { result ≡ stands_on (state_of (reading diary.entry.words.now)) date.0 meeting }
{
    let run = on_dates::<Session>(diary.site.settings, date, date);
    member_between(diary.standing(), meeting, run.from.0, run.to.0)
}

// Question 10 of kind 14: the lowest date of first..last on which the meeting stands in no session.
fn first_not_standing(diary: Diary<'_>, meeting: u32, first: Date, last: Date) -> Option<u32>
    requires last_lt_dates { last.0 < diary.site.settings.dates }
    requires meeting_lt_meetings { meeting < diary.site.settings.meetings }
    ensures { result ≡ slots_fail diary.entry.site.settings (reading diary.entry.words.now) StandsThatDate meeting 0 first.0 last.0 }
{
    first_slot(first.0, last.0, |i| !stands_on(diary, meeting, Date(i)))
}

// Kind 14 from question 10 on.
fn lunch_fits(diary: Diary<'_>, a: u32, b: u32, n: u32, first: Date, last: Date) -> Answer
    requires last_lt_dates { last.0 < diary.site.settings.dates }
    requires a_lt_dining { a < diary.site.settings.dining }
    requires b_lt_meetings { b < diary.site.settings.meetings }
    requires n_bound { n ≤ 1000 }
    ensures { result ≡ lunch_adds diary.entry.site.settings (reading diary.entry.words.now) diary.entry.site.grids.lunch a b n first.0 last.0 }
{
    let ended = first_not_standing(diary, b, first, last);
    let triples = diary.lunch();
    let there = first_with::<ByLoop>(triples, b, a + 1, first.0, last.0);
    let elsewhere = first_without::<ByLoop>(triples, b, 0, first.0, last.0);
    let over = first_over(diary, a, n, first, last);
    ask(10, ended)?;
    ask(11, there)?;
    ask(13, elsewhere)?;
    ask(14, over)?;
    Ok(0)
}

// Kind 14: a meeting gets a lunch.
pub fn add_lunch(diary: Diary<'_>, r: Request) -> Answer
    requires kind_value { r.kind ≡ 14 }
    ensures { result ≡ (step (state_of (reading diary.entry.words.now)) r).answer }
{
    fields(add_lunch_row(diary.site.settings), r)?;
    if r.n < 1 {
        return refused(8, 0);
    }
    if diary.capacity(r.a) < r.n {
        return refused(8, 0);
    }
    lunch_fits(diary, r.a, r.b, r.n, Date(r.first), Date(r.last))
}

// Kind 16: a meeting gives back its conference rooms and lunches.
pub fn erase_conf_and_lunch(diary: Diary<'_>, r: Request) -> Answer
    requires kind_value { r.kind ≡ 16 }
    ensures { result ≡ (step (state_of (reading diary.entry.words.now)) r).answer }
{
    fields(meeting_row(diary.site.settings), r)?;
    let from = date_of(diary.site.settings, Session(r.first));
    let to = date_of(diary.site.settings, Session(r.last));
    let roomless = first_row_without(diary.conf(), r.b + 1, r.first, r.last);
    let unfed = first_with::<ByLoop>(diary.lunch(), r.b, 0, from.0, to.0);
    ask(16, roomless)?;
    ask(17, unfed)?;
    Ok(0)
}
