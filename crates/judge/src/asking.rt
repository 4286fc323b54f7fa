// Kinds 17 to 20: the answer of a request that asks and changes nothing. As in `visitors`.
ghost use Rattle.std.specs.Prelude.{◌≡◌};
ghost use Rattle.model.specs.Machine.{step};
ghost use Rattle.model.specs.Reading.{state_of};
ghost use Rattle.book.specs.Lent.{reading};

use crate::answers;
use book::diary::Diary;
use kinds::fields::fields;
use kinds::table::{count_leave_row, free_room_row, seats_left_row, which_meeting_row};
use model::{Answer, Date, Refusal, Request, Session};
use queries::dates::members;
use queries::entries::meeting_of;
use queries::rooms::lowest_free;

// Kind 17: which meeting a visitor attends.
pub fn which_meeting(diary: Diary<'_>, r: Request) -> Answer
    requires kind_value { r.kind ≡ 17 }
    ensures { result ≡ (step (state_of (reading diary.entry.words.now)) r).answer }
{
    fields(which_meeting_row(diary.site.settings), r)?;
    meeting_of(diary, Session(r.first), r.b).ok_or(Refusal {
        number: 21,
        place: r.first,
    })
}

// Kind 18: how many visitors are on leave.
pub fn count_leave(diary: Diary<'_>, r: Request) -> Answer
    requires kind_value { r.kind ≡ 18 }
    ensures { result ≡ (step (state_of (reading diary.entry.words.now)) r).answer }
{
    fields(count_leave_row(diary.site.settings), r)?;
    Ok(members(diary, Date(r.first)))
}

// Kind 19: how many seats a dining room has left.
pub fn seats_left(diary: Diary<'_>, r: Request) -> Answer
    requires kind_value { r.kind ≡ 19 }
    ensures { result ≡ (step (state_of (reading diary.entry.words.now)) r).answer }
{
    fields(seats_left_row(diary.site.settings), r)?;
    Ok(answers::seats_left(diary, Date(r.first), r.a))
}

// Kind 20: the lowest conference room that is free. Compiled into its callers, as the other kinds are without being told.
#[inline(always)]
pub fn free_room(diary: Diary<'_>, r: Request) -> Answer
    requires kind_value { r.kind ≡ 20 }
    ensures { result ≡ (step (state_of (reading diary.entry.words.now)) r).answer }
{
    fields(free_room_row(diary.site.settings), r)?;
    lowest_free(diary, Session(r.first), Session(r.last)).ok_or(Refusal {
        number: 22,
        place: 0,
    })
}
