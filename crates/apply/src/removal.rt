// Kind 3, date by date: a visitor's leave, hotel room, rides and meetings, erased and counted in one pass.
ghost use Rattle.std.specs.Prelude.{◌≡◌, ◌<◌};
ghost use Rattle.model.specs.Questions.{bookings};
ghost use Rattle.model.specs.Words.{words};
ghost use Rattle.model.specs.Reading.{state_of};
ghost use Rattle.book.specs.Grids.{Laid};
ghost use Rattle.book.specs.Good.{Good};
ghost use Rattle.book.specs.Lent.{reading};
ghost use Rattle.apply.specs.Removals.{without, Erased};

use crate::cells::empty_column;
use crate::sets::turn;
use book::diary::Diary;
use book::grid::Site;
use book::runs::{sweep_long, sweep_run};
use model::{Date, Session, Time};
use queries::entries::first_on_leave;
use units::{after, on_dates};

// What the visitor has on a date: leave, the hotel room, the rides at its times and the meetings in its sessions; how many bookings.
fn erase(book: &mut [u32], site: Site, v: u32, date: Date) -> u32
    requires laid { Laid site.settings (reading book.old) }
    requires v_lt_visitors { v < site.settings.visitors }
    requires date_lt_dates { date.0 < site.settings.dates }
    ensures { Erased site.settings v date.0 (reading book.old) (reading book.new) result }
{
    turn(book, site.grids.leave, false, v, date.0, date.0);
    let hotel = site.grids.hotel;
    let nights = sweep_run(book, hotel, v + 1, date.0, date.0 + 1);
    let times = on_dates::<Time>(site.settings, date, date);
    let ride = site.grids.ride;
    let rides = sweep_long(book, ride, v + 1, times.from.0, times.to.0);
    let sessions = on_dates::<Session>(site.settings, date, date);
    let attend = site.grids.attend;
    let meetings = empty_column(book, attend, v, sessions.from.0, sessions.to.0);
    nights + rides + meetings
}

// The dates first..last, both included; how many bookings are erased. A visitor without leave on a date has no entry on it, so the dates with
// leave are looked for.
pub fn remove_visitor(book: &mut [u32], site: Site, v: u32, first: Date, last: Date) -> u32
    requires good { Good site.settings (reading book.old) }
    requires v_lt_visitors { v < site.settings.visitors }
    requires last_lt_dates { last.0 < site.settings.dates }
    ensures book_after { reading book.new ≡ words (without (state_of (reading book.old)) v first.0 last.0) }
    ensures value { result ≡ bookings (state_of (reading book.old)) v first.0 last.0 }
{
    let mut n: u32 = 0;
    let mut from = first;
    while let Some(d) = first_on_leave(Diary { words: book, site }, v, from, last) {
        let date = Date(d);
        n += erase(book, site, v, date);
        from = after(date);
    }
    n
}
