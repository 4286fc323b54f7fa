// Kinds 1 to 7: the answer of a request about a visitor's leave, hotel rooms or rides.
//
// One function for each kind: questions 4 to 7 with its row, and past them its own. Whoever calls it has asked question 3. The functions look
// alike, here, in `meetings` and in `asking`; but each kind has its own row and its own questions in their own order, and who carries a
// request out is handed the function of its kind.
ghost use Rattle.std.specs.Prelude.{◌≡◌};
ghost use Rattle.model.specs.Machine.{step};
ghost use Rattle.model.specs.Reading.{state_of};
ghost use Rattle.book.specs.Lent.{reading};

use crate::answers;
use crate::answers::{ask, erase};
use book::diary::Diary;
use kinds::fields::fields;
use kinds::table::{hotel_row, ride_row, visitor_row};
use model::{Answer, Date, Request, Time};
use queries::bookings::bookings;
use questions::slots::first_booked;

// Kind 1: a visitor gets leave.
pub fn add_leave(diary: Diary<'_>, r: Request) -> Answer
    requires kind_value { r.kind ≡ 1 }
    ensures { result ≡ (step (state_of (reading diary.entry.words.now)) r).answer }
{
    fields(visitor_row(diary.site.settings), r)?;
    Ok(0)
}

// Kind 2: a visitor's leave ends.
pub fn end_leave(diary: Diary<'_>, r: Request) -> Answer
    requires kind_value { r.kind ≡ 2 }
    ensures { result ≡ (step (state_of (reading diary.entry.words.now)) r).answer }
{
    fields(visitor_row(diary.site.settings), r)?;
    let booked = first_booked(diary, r.b, Date(r.first), Date(r.last));
    ask(18, booked)?;
    Ok(0)
}

// Kind 3: a visitor is removed; the value is how many bookings go.
pub fn remove_visitor(diary: Diary<'_>, r: Request) -> Answer
    requires kind_value { r.kind ≡ 3 }
    ensures { result ≡ (step (state_of (reading diary.entry.words.now)) r).answer }
{
    fields(visitor_row(diary.site.settings), r)?;
    Ok(bookings(diary, r.b, Date(r.first), Date(r.last)))
}

// Kind 4: a visitor gets a hotel room.
pub fn add_hotel(diary: Diary<'_>, r: Request) -> Answer
    requires kind_value { r.kind ≡ 4 }
    ensures { result ≡ (step (state_of (reading diary.entry.words.now)) r).answer }
{
    fields(hotel_row(diary.site.settings), r)?;
    answers::add_hotel(diary, r.a, r.b, Date(r.first), Date(r.last))
}

// Kind 5: a hotel room is given back.
pub fn erase_hotel(diary: Diary<'_>, r: Request) -> Answer
    requires kind_value { r.kind ≡ 5 }
    ensures { result ≡ (step (state_of (reading diary.entry.words.now)) r).answer }
{
    fields(hotel_row(diary.site.settings), r)?;
    erase(diary.hotel(), r.a, r.b + 1, r.first, r.last)
}

// Kind 6: a visitor gets a ride.
pub fn add_ride(diary: Diary<'_>, r: Request) -> Answer
    requires kind_value { r.kind ≡ 6 }
    ensures { result ≡ (step (state_of (reading diary.entry.words.now)) r).answer }
{
    fields(ride_row(diary.site.settings), r)?;
    answers::add_ride(diary, r.a, r.b, Time(r.first), Time(r.last))
}

// Kind 7: a ride is given back.
pub fn erase_ride(diary: Diary<'_>, r: Request) -> Answer
    requires kind_value { r.kind ≡ 7 }
    ensures { result ≡ (step (state_of (reading diary.entry.words.now)) r).answer }
{
    fields(ride_row(diary.site.settings), r)?;
    erase(diary.ride(), r.a, r.b + 1, r.first, r.last)
}
