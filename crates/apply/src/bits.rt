// Writes to a grid of pool words: one member's bit in a run of slots.
ghost use Rattle.std.specs.Prelude.{◌≡◌, ◌/◌, ◌≤◌, ◌<◌};
ghost use Rattle.book.specs.Lent.{reading, Lies};
ghost use Rattle.book.specs.Stores.{Wrote};
ghost use Rattle.apply.specs.Stores.{flipped, marked, marked_three, marked_all};

use book::grid::Grid;
use book::puts::put_word;
use book::region::Cells;
use queries::search::middle_of;

// A pool word with bit k set or cleared.
fn flip<const ON: bool>(w: u32, k: u32) -> u32
    requires { k < 32 }
    ensures { result ≡ flipped ON w k }
{
    if ON {
        pool::with(w, k)
    } else {
        pool::without(w, k)
    }
}

// The bit of member v in one slot.
fn mark<const ON: bool>(book: &mut [u32], g: Grid, v: u32, slot: u32)
    requires lies { Lies g (reading book.old) }
    requires slot_lt_slots { slot < g.slots }
    requires v_bound { v / 32 < g.items }
    ensures { Wrote (marked g ON v slot) (reading book.old) (reading book.new) }
{
    let word = Cells {
        words: book,
        grid: g,
    }
    .cell(slot, v / 32);
    let next = flip::<ON>(word, v % 32);
    put_word(book, g, slot, v / 32, next);
}

// The bit of member v in three slots, some of which may be the same: no branch depends on how many they are.
fn mark_three<const ON: bool>(book: &mut [u32], g: Grid, v: u32, first: u32, middle: u32, last: u32)
    requires lies { Lies g (reading book.old) }
    requires first_lt_slots { (first < g.slots) × (middle < g.slots) × (last < g.slots) }
    requires v_bound { v / 32 < g.items }
    ensures { Wrote (marked_three g ON v first middle last) (reading book.old) (reading book.new) }
{
    mark::<ON>(book, g, v, first);
    mark::<ON>(book, g, v, middle);
    mark::<ON>(book, g, v, last);
}

// The bit of member v in the slots from `from` to before `to`, slot by slot.
fn mark_each<const ON: bool>(book: &mut [u32], g: Grid, v: u32, from: u32, to: u32)
    requires lies { Lies g (reading book.old) }
    requires to_le_slots { to ≤ g.slots }
    requires v_bound { v / 32 < g.items }
    ensures { Wrote (marked_all g ON v from to) (reading book.old) (reading book.new) }
{
    for i in from..to {
        mark::<ON>(book, g, v, i);
    }
}

// The same. Most requests are for one to three slots, and the processor does not foresee where so short a loop ends:
// they are marked without one.
fn mark_run<const ON: bool>(book: &mut [u32], g: Grid, v: u32, from: u32, to: u32)
    requires lies { Lies g (reading book.old) }
    requires to_le_slots { to ≤ g.slots }
    requires v_bound { v / 32 < g.items }
    ensures { Wrote (marked_all g ON v from to) (reading book.old) (reading book.new) }
{
    if to <= from {
        return;
    }
    let last = to - 1;
    if last - from <= 2 {
        let middle = middle_of(from, last);
        mark_three::<ON>(book, g, v, from, middle, last);
        return;
    }
    mark_each::<ON>(book, g, v, from, to);
}

// The same, with the direction as a value: a caller may have it in a variable.
#[inline(always)]
pub fn mark_all(book: &mut [u32], g: Grid, on: bool, v: u32, from: u32, to: u32)
    requires lies { Lies g (reading book.old) }
    requires to_le_slots { to ≤ g.slots }
    requires v_bound { v / 32 < g.items }
    ensures { Wrote (marked_all g on v from to) (reading book.old) (reading book.new) }
{
    if on {
        mark_run::<true>(book, g, v, from, to);
    } else {
        mark_run::<false>(book, g, v, from, to);
    }
}
