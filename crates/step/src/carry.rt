// One request of a kind carried out: judged, and written where the answer is done.
//
// The site is made for each request because its grids are a few products, and a struct of that size passed by value is copied at every call.
ghost use Rattle.std.specs.Prelude.{◌≡◌, false};
ghost use Rattle.model.specs.Bounded.{within};
ghost use Rattle.model.specs.Machine.{step};
ghost use Rattle.model.specs.Words.{words};
ghost use Rattle.model.specs.Reading.{state_of};
ghost use Rattle.book.specs.Good.{Good, answered, in_words};
ghost use Rattle.book.specs.Lent.{reading};
ghost use Rattle.step.specs.Carried.{Judges, Writes};

use apply::removal;
use book::diary::Diary;
use book::grid::{Site, site_of};
use kinds::fields::fields;
use kinds::table::visitor_row;
use model::{Answer, Date, Request, Settings};

// A request of any kind but 3, by the two functions of its kind. Each arm of a choice by kind gives its own two, which are then called at one
// place only, and so are compiled into it.
pub fn carry_out<J: FnOnce(Diary<'_>, Request) -> Answer, W: FnOnce(&mut [u32], Site, Request)>(
    book: &mut [u32],
    s: Settings,
    r: Request,
    judge: J,
    write: W,
) -> Answer
    requires good { Good s (reading book.old) }
    requires judges { Judges J.FnOnce judge s book.old r }
    requires writes { Writes W.FnOnce write s book.old r }
    ensures { answered result (reading book.new) ≡ in_words (step (state_of (reading book.old)) r) }
{
    let site = site_of(s);
    let value = judge(Diary { words: book, site }, r)?;
    write(book, site, r);
    Ok(value)
}

// The writes of kinds 17 to 20, which only ask: none.
pub fn nothing(_book: &mut [u32], _site: Site, r: Request)
    requires good { Good _site.settings (reading _book.old) }
    requires kind_value { within 1 16 r.kind ≡ false }
    ensures { reading _book.new ≡ words (step (state_of (reading _book.old)) r).state }
{}

// Kind 3: a visitor is removed. It has no question past 7, and its value is the number of bookings that go: they are counted where they
// are erased, in one pass.
pub fn remove_visitor(book: &mut [u32], s: Settings, r: Request) -> Answer
    requires good { Good s (reading book.old) }
    requires kind_value { r.kind ≡ 3 }
    ensures { answered result (reading book.new) ≡ in_words (step (state_of (reading book.old)) r) }
{
    fields(visitor_row(s), r)?;
    let site = site_of(s);
    let gone = removal::remove_visitor(book, site, r.b, Date(r.first), Date(r.last));
    Ok(gone)
}
