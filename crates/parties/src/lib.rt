// A party: many guests for one meeting, all of them or none. Each is added by kind 10's own function, and where one is refused those before
// are taken back by kind 11's, the last one first. So a refusal leaves every word as it was, and no copy of the book is kept. Both work on
// the diary: the change count is raised once, when all the guests are in.
#![tactic(auto)]

mod guest;

ghost use Rattle.std.specs.Prelude.{◌≡◌};
ghost use Rattle.model.specs.Calls.{call_party};
ghost use Rattle.book.specs.Good.{Good, GoodBook, answered};
ghost use Rattle.book.specs.Lent.{reading};
ghost use Rattle.parties.specs.Guests.{guest_request, Adds, TakenBack, of_party};

use crate::guest::{add_attend, erase_attend};
use header::settings::{diary_len, settings};
use model::{Answer, Guest, Refusal, Request, Settings, refused};
use ring::changes::{MOST_CHANGES, count, raise};

// The kinds that add a visitor to a meeting and take them out again.
const ADD_ATTEND: u32 = 10;

const ERASE_ATTEND: u32 = 11;

// The most guests of a party.
const MOST_GUESTS: usize = 64;

// The request of a kind for a guest.
fn request_for(kind: u32, meeting: u32, g: Guest) -> Request
    ensures { result ≡ guest_request kind meeting g }
{
    Request {
        kind,
        a: meeting,
        b: g.visitor,
        first: g.first,
        last: g.last,
        n: 0,
        info: 0,
    }
}

// Takes the guests back, the last one first: every word is as it was before they were added. Who is in can be taken out, so no answer is
// looked at.
fn take_back(diary: &mut [u32], s: Settings, meeting: u32, guests: &[Guest])
    requires good { Good s (reading diary.old) }
    ensures { TakenBack s meeting guests.now (reading diary.old) (reading diary.new) }
{
    for &g in guests.iter().rev() {
        let r = request_for(ERASE_ATTEND, meeting, g);
        let _ = erase_attend(diary, s, r);
    }
}

// Adds the guests one by one; at the first who is refused those before are taken back.
fn add_guests(diary: &mut [u32], s: Settings, meeting: u32, guests: &[Guest]) -> Result<(), Refusal>
    requires good { Good s (reading diary.old) }
    ensures { Adds s (reading diary.old) meeting guests.now result (reading diary.new) }
{
    for (i, &g) in guests.iter().enumerate() {
        let r = request_for(ADD_ATTEND, meeting, g);
        if let Err(refusal) = add_attend(diary, s, r) {
            take_back(diary, s, meeting, &guests[..i]);
            return Err(refusal);
        }
    }
    Ok(())
}

// All the guests and one change more, or none. Question 30 stands behind the guests: where all are in and the count cannot rise, they are
// taken back.
fn join(book: &mut [u32], s: Settings, meeting: u32, guests: &[Guest]) -> Answer
    requires good_book { GoodBook s book.old }
    ensures { answered result book.new ≡ of_party book.old meeting guests.now }
{
    let diary = diary_len(s);
    let changes = count(book);
    add_guests(&mut book[..diary], s, meeting, guests)?;
    if changes == MOST_CHANGES {
        take_back(&mut book[..diary], s, meeting, guests);
        return refused(30, 0);
    }
    raise(book, changes);
    Ok(0)
}

// A party on any words as a book: questions 1, 2 and 27, then the guests in the order of the list, each as kind 10 adds them, and 30 behind
// them. Done, all are added, and the change count is one more; refused, with the number and place of the first refusal, every word of the
// book is as it was. Of more than 64 guests none is read.
pub fn party(book: &mut [u32], meeting: u32, guests: &[Guest]) -> Answer
    ensures { answered result book.new ≡ call_party book.old meeting guests.now }
{
    checking::check(book)?;
    if guests.is_empty() || guests.len() > MOST_GUESTS {
        return refused(27, 0);
    }
    let s = settings(book);
    join(book, s, meeting, guests)
}
