// The answers of requests on a good diary, kind by kind: reads only.
#![tactic(auto)]

pub mod answers;
pub mod asking;
pub mod eager;
pub mod meetings;
pub mod visitors;

ghost use Rattle.std.specs.Prelude.{◌≡◌};
ghost use Rattle.model.specs.Machine.{step};
ghost use Rattle.model.specs.Reading.{state_of};
ghost use Rattle.book.specs.Lent.{reading};

use book::diary::Diary;
use model::{Answer, Request, refused};

// The answer that a request of any kind would get, question 3 included, where nothing is to be written. By number: the kind of a request is
// any word of a caller, and an enum would be made by the same choice.
pub fn judge(diary: Diary<'_>, r: Request) -> Answer
    ensures { result ≡ (step (state_of (reading diary.entry.words.now)) r).answer }
{
    match r.kind {
        1 => visitors::add_leave(diary, r),
        2 => eager::end_leave(diary, r),
        3 => visitors::remove_visitor(diary, r),
        4 => eager::add_hotel(diary, r),
        5 => visitors::erase_hotel(diary, r),
        6 => eager::add_ride(diary, r),
        7 => visitors::erase_ride(diary, r),
        8 => meetings::add_standing(diary, r),
        9 => eager::end_standing(diary, r),
        10 => eager::add_attend(diary, r),
        11 => meetings::erase_attend(diary, r),
        12 => eager::add_conf(diary, r),
        13 => meetings::erase_conf(diary, r),
        14 => eager::add_lunch(diary, r),
        15 => meetings::erase_lunch(diary, r),
        16 => eager::erase_conf_and_lunch(diary, r),
        17 => asking::which_meeting(diary, r),
        18 => asking::count_leave(diary, r),
        19 => asking::seats_left(diary, r),
        20 => asking::free_room(diary, r),
        _ => refused(3, 0),
    }
}
