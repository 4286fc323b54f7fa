// What the kinds write, in the slots first..last, both included.
ghost use Rattle.std.specs.Prelude.{◌≡◌, ◌+◌, ◌/◌, ◌<◌};
ghost use Rattle.book.specs.Grids.{Laid};
ghost use Rattle.book.specs.Lent.{reading};
ghost use Rattle.book.specs.Stores.{Wrote, empty, swept};
ghost use Rattle.apply.specs.Stores.{Span, Single, full, filled, marked_all, standing_ended, meeting_erased};

use crate::bits::mark_all;
use crate::cells::{fill, sweep_rows};
use book::grid::{Grid, Grids, Site};
use book::puts::{Content, EMPTY};
use book::runs::sweep_run;
use model::Session;
use units::date_of;

// What a cell holds of an entry: the number of who has it plus 1, and the words beside it.
pub fn entry(who: u32, second: u32, third: u32) -> Content
    requires { who < 1000 }
    ensures { result ≡ full who second third }
{
    Content {
        entry: who + 1,
        second,
        third,
    }
}

// One entry into the cells of an item.
pub fn add(book: &mut [u32], g: Grid, item: u32, c: Content, first: u32, last: u32)
    requires span { Span g (reading book.old) last }
    requires item_lt_g { item < g.items }
    ensures { Wrote (filled g item c first (last + 1)) (reading book.old) (reading book.new) }
{
    fill(book, g, item, c, first, last + 1);
}

// What is taken away again is an item's cells, whoever has them (`take`), an entry wherever it stands (`drop`), or a bit (`turn`): each has its
// own way through a grid, so they are three functions.
//
// The cells of an item emptied.
pub fn take(book: &mut [u32], g: Grid, item: u32, first: u32, last: u32)
    requires span { Span g (reading book.old) last }
    requires item_lt_g { item < g.items }
    ensures { Wrote (filled g item empty first (last + 1)) (reading book.old) (reading book.new) }
{
    fill(book, g, item, EMPTY, first, last + 1);
}

// One entry erased from every cell that holds it.
pub fn drop(book: &mut [u32], g: Grid, who: u32, first: u32, last: u32)
    requires span { Span g (reading book.old) last }
    requires who_bound { who < 1000 }
    ensures { Wrote (swept g (who + 1) first (last + 1)) (reading book.old) (reading book.new) }
{
    sweep_rows(book, g, who + 1, first, last + 1);
}

// A member's bit set or cleared.
#[inline(always)]
pub fn turn(book: &mut [u32], g: Grid, on: bool, v: u32, first: u32, last: u32)
    requires span { Span g (reading book.old) last }
    requires v_bound { v / 32 < g.items }
    ensures { Wrote (marked_all g on v first (last + 1)) (reading book.old) (reading book.new) }
{
    mark_all(book, g, on, v, first, last + 1);
}

// Kind 9: the meeting no longer stands, and nobody attends it.
pub fn end_standing(book: &mut [u32], g: Grids, a: u32, first: Session, last: Session)
    requires span { Span g.standing (reading book.old) last.0 }
    requires single { Single g.attend (reading book.old) (last.0 + 1) }
    requires a_bound { a / 32 < g.standing.items }
    requires a_bound_2 { a < 1000 }
    ensures { Wrote (standing_ended g a first.0 last.0) (reading book.old) (reading book.new) }
{
    turn(book, g.standing, false, a, first.0, last.0);
    let attend = g.attend;
    sweep_run(book, attend, a + 1, first.0, last.0 + 1);
}

// Kind 16: the meeting's conference rooms, and its lunches on the dates from first's to last's.
pub fn erase_conf_and_lunch(book: &mut [u32], site: Site, b: u32, first: Session, last: Session)
    requires laid { Laid site.settings (reading book.old) }
    requires last_lt_slots { last.0 < site.grids.conf.slots }
    requires b_lt_meetings { b < site.settings.meetings }
    ensures { Wrote (meeting_erased site.settings site.grids b first.0 last.0) (reading book.old) (reading book.new) }
{
    drop(book, site.grids.conf, b, first.0, last.0);
    let from = date_of(site.settings, first);
    let to = date_of(site.settings, last);
    take(book, site.grids.lunch, b, from.0, to.0);
}
