// Writes to one cell: all its words, its first word alone, or all words emptied where the first is a given word. That a cell has at most three
// words is a clause where all of them are written, and no fact of a grid: the others know nothing of it.
ghost use Rattle.std.specs.Prelude.{◌≡◌, ◌+◌, ◌≤◌, ◌<◌, length};
ghost use Rattle.book.specs.Lent.{reading, Lies};
ghost use Rattle.book.specs.Stores.{puts, replaced, stored, cleared, Wrote};

use crate::grid::{Grid, at};

// What a cell holds: the entry, and the words beside it, as many as the cell has.
#[derive(Clone, Copy)]
pub struct Content {
    pub entry: u32,
    pub second: u32,
    pub third: u32,
}

// A constant, and no `Default`, which would not say that such a cell holds nothing.
pub const EMPTY: Content = Content {
    entry: 0,
    second: 0,
    third: 0,
};

// The words of a cell at place n, one by one: `copy_from_slice` would want them in an array first.
fn store(book: &mut [u32], n: usize, width: u32, c: Content)
    requires width_in_bounds { n + width ≤ length book.old }
    requires le_width { (1 ≤ width) × (width ≤ 3) }
    ensures { book.new ≡ puts c n width book.old }
{
    book[n] = c.entry;
    if width == 1 {
        return;
    }
    book[n + 1] = c.second;
    if width == 2 {
        return;
    }
    book[n + 2] = c.third;
}

// The words of a cell.
pub fn put(book: &mut [u32], g: Grid, slot: u32, item: u32, c: Content)
    requires lies { Lies g (reading book.old) }
    requires width_bound { g.width ≤ 3 }
    requires slot_lt_slots { slot < g.slots }
    requires item_lt_g { item < g.items }
    ensures { Wrote (stored g c slot item) (reading book.old) (reading book.new) }
{
    let width = g.width;
    let n = at(g, slot, item);
    store(book, n, width, c);
}

// The first word of a cell.
pub fn put_word(book: &mut [u32], g: Grid, slot: u32, item: u32, w: u32)
    requires lies { Lies g (reading book.old) }
    requires slot_lt_slots { slot < g.slots }
    requires item_lt_g { item < g.items }
    ensures { Wrote (replaced g w slot item) (reading book.old) (reading book.new) }
{
    let n = at(g, slot, item);
    book[n] = w;
}

// A cell that holds w becomes empty, all its words.
pub fn clear(book: &mut [u32], g: Grid, slot: u32, item: u32, w: u32)
    requires lies { Lies g (reading book.old) }
    requires width_bound { g.width ≤ 3 }
    requires slot_lt_slots { slot < g.slots }
    requires item_lt_g { item < g.items }
    ensures { Wrote (cleared g w slot item) (reading book.old) (reading book.new) }
{
    let width = g.width;
    let n = at(g, slot, item);
    if book[n] != w {
        return;
    }
    store(book, n, width, EMPTY);
}
