// Kinds 8 to 16: the answer of a request about meetings, who attends them, their rooms and their lunches. As in `visitors`.
ghost use Rattle.std.specs.Prelude.{◌≡◌};
ghost use Rattle.model.specs.Machine.{step};
ghost use Rattle.model.specs.Reading.{state_of};
ghost use Rattle.book.specs.Lent.{reading};

use crate::answers;
use crate::answers::{ask, erase, erase_all, lunch_fits};
use book::diary::Diary;
use kinds::fields::fields;
use kinds::table::{
    add_conf_row, add_lunch_row, attend_row, erase_lunch_row, meeting_row, standing_row,
};
use model::{Answer, Date, Request, Session};
use questions::cells::first_row_without;

// Kind 8: a meeting stands.
pub fn add_standing(diary: Diary<'_>, r: Request) -> Answer
    requires kind_value { r.kind ≡ 8 }
    ensures { result ≡ (step (state_of (reading diary.entry.words.now)) r).answer }
{
    fields(standing_row(diary.site.settings), r)?;
    Ok(0)
}

// Kind 9: a meeting no longer stands.
pub fn end_standing(diary: Diary<'_>, r: Request) -> Answer
    requires kind_value { r.kind ≡ 9 }
    ensures { result ≡ (step (state_of (reading diary.entry.words.now)) r).answer }
{
    fields(standing_row(diary.site.settings), r)?;
    answers::end_standing(diary, r.a, Session(r.first), Session(r.last))
}

// Kind 10: a visitor attends a meeting.
pub fn add_attend(diary: Diary<'_>, r: Request) -> Answer
    requires kind_value { r.kind ≡ 10 }
    ensures { result ≡ (step (state_of (reading diary.entry.words.now)) r).answer }
{
    fields(attend_row(diary.site.settings), r)?;
    answers::add_attend(diary, r.a, r.b, Session(r.first), Session(r.last))
}

// Kind 11: a visitor no longer attends a meeting.
pub fn erase_attend(diary: Diary<'_>, r: Request) -> Answer
    requires kind_value { r.kind ≡ 11 }
    ensures { result ≡ (step (state_of (reading diary.entry.words.now)) r).answer }
{
    fields(attend_row(diary.site.settings), r)?;
    erase(diary.attend(), r.b, r.a + 1, r.first, r.last)
}

// Kind 12: a meeting gets a conference room.
pub fn add_conf(diary: Diary<'_>, r: Request) -> Answer
    requires kind_value { r.kind ≡ 12 }
    ensures { result ≡ (step (state_of (reading diary.entry.words.now)) r).answer }
{
    fields(add_conf_row(diary.site.settings), r)?;
    answers::add_conf(diary, r.a, r.b, Session(r.first), Session(r.last))
}

// Kind 13: a meeting gives back its conference rooms.
pub fn erase_conf(diary: Diary<'_>, r: Request) -> Answer
    requires kind_value { r.kind ≡ 13 }
    ensures { result ≡ (step (state_of (reading diary.entry.words.now)) r).answer }
{
    fields(meeting_row(diary.site.settings), r)?;
    ask(
        16,
        first_row_without(diary.conf(), r.b + 1, r.first, r.last),
    )?;
    Ok(0)
}

// Kind 14: a meeting gets a lunch.
pub fn add_lunch(diary: Diary<'_>, r: Request) -> Answer
    requires kind_value { r.kind ≡ 14 }
    ensures { result ≡ (step (state_of (reading diary.entry.words.now)) r).answer }
{
    fields(add_lunch_row(diary.site.settings), r)?;
    lunch_fits(diary, r.a, r.b, r.n, Date(r.first), Date(r.last))
}

// Kind 15: a meeting gives back a lunch.
pub fn erase_lunch(diary: Diary<'_>, r: Request) -> Answer
    requires kind_value { r.kind ≡ 15 }
    ensures { result ≡ (step (state_of (reading diary.entry.words.now)) r).answer }
{
    fields(erase_lunch_row(diary.site.settings), r)?;
    erase(diary.lunch(), r.b, r.a + 1, r.first, r.last)
}

// Kind 16: a meeting gives back its conference rooms and lunches.
pub fn erase_conf_and_lunch(diary: Diary<'_>, r: Request) -> Answer
    requires kind_value { r.kind ≡ 16 }
    ensures { result ≡ (step (state_of (reading diary.entry.words.now)) r).answer }
{
    fields(meeting_row(diary.site.settings), r)?;
    erase_all(diary, r.b, Session(r.first), Session(r.last))
}
