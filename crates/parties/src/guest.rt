// One guest, added and taken out as kinds 10 and 11 do it. An adding is judged by `eager`'s function: the one of `meetings` is left to the
// loop over requests, into which a function with one caller is compiled. Each is a kind's own two functions handed to `carry_out`, and no more.
ghost use Rattle.std.specs.Prelude.{◌≡◌};
ghost use Rattle.model.specs.Machine.{step};
ghost use Rattle.model.specs.Reading.{state_of};
ghost use Rattle.book.specs.Good.{Good, answered, in_words};
ghost use Rattle.book.specs.Lent.{reading};

use model::{Answer, Request, Settings};
use step::carry::carry_out;

// As kind 10: a visitor attends a meeting.
pub fn add_attend(diary: &mut [u32], s: Settings, r: Request) -> Answer
    requires good { Good s (reading diary.old) }
    requires kind_value { r.kind ≡ 10 }
    ensures { answered result (reading diary.new) ≡ in_words (step (state_of (reading diary.old)) r) }
{
    carry_out(
        diary,
        s,
        r,
        judge::eager::add_attend,
        apply::meetings::add_attend,
    )
}

// As kind 11: they no longer do.
pub fn erase_attend(diary: &mut [u32], s: Settings, r: Request) -> Answer
    requires good { Good s (reading diary.old) }
    requires kind_value { r.kind ≡ 11 }
    ensures { answered result (reading diary.new) ≡ in_words (step (state_of (reading diary.old)) r) }
{
    carry_out(
        diary,
        s,
        r,
        judge::meetings::erase_attend,
        apply::meetings::erase_attend,
    )
}
