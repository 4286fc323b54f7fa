// Writes to the cells of a grid: a column filled, and rows swept of a word.
ghost use Rattle.std.specs.Prelude.{◌≡◌, ◌≤◌, ◌<◌};
ghost use Rattle.book.specs.Lent.{reading, Lies};
ghost use Rattle.book.specs.Stores.{Wrote, swept_row, swept};
ghost use Rattle.apply.specs.Stores.{filled, Emptied};

use book::grid::Grid;
use book::puts::{Content, EMPTY, clear, put};
use book::region::Cells;

// The cell of one item in each slot from `from` to before `to`.
pub fn fill(book: &mut [u32], g: Grid, item: u32, c: Content, from: u32, to: u32)
    requires lies { Lies g (reading book.old) }
    requires width_bound { g.width ≤ 3 }
    requires to_le_slots { to ≤ g.slots }
    requires item_lt_g { item < g.items }
    ensures { Wrote (filled g item c from to) (reading book.old) (reading book.new) }
{
    for i in from..to {
        put(book, g, i, item, c);
    }
}

// The cells of one item emptied, in each slot from `from` to before `to`, of one-word cells; how many of them were full.
pub fn empty_column(book: &mut [u32], g: Grid, item: u32, from: u32, to: u32) -> u32
    requires lies { Lies g (reading book.old) }
    requires width_value { g.width ≡ 1 }
    requires to_le_slots { to ≤ g.slots }
    requires item_lt_g { item < g.items }
    ensures { Emptied g item from to (reading book.old) (reading book.new) result }
{
    let mut n: u32 = 0;
    for i in from..to {
        let held = Cells {
            words: book,
            grid: g,
        }
        .cell(i, item);
        n += u32::from(held != 0);
        put(book, g, i, item, EMPTY);
    }
    n
}

// Every cell of a slot that holds w becomes empty.
fn sweep_row(book: &mut [u32], g: Grid, slot: u32, w: u32)
    requires lies { Lies g (reading book.old) }
    requires width_bound { g.width ≤ 3 }
    requires slot_lt_slots { slot < g.slots }
    ensures { Wrote (swept_row g w slot) (reading book.old) (reading book.new) }
{
    for j in 0..g.items {
        clear(book, g, slot, j, w);
    }
}

// The same in the slots from `from` to before `to`, of cells of any number of words.
pub fn sweep_rows(book: &mut [u32], g: Grid, w: u32, from: u32, to: u32)
    requires lies { Lies g (reading book.old) }
    requires width_bound { g.width ≤ 3 }
    requires to_le_slots { to ≤ g.slots }
    ensures { Wrote (swept g w from to) (reading book.old) (reading book.new) }
{
    for i in from..to {
        sweep_row(book, g, i, w);
    }
}
