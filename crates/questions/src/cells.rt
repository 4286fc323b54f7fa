// Questions asked of the cells of one grid: 9 to 13, 15 to 17 and 20. Each is a small search over plain rows, so that the compiler puts it
// where it is asked. What it means is said where it is called, and so is how the run is searched (`short`).
//
// The first and the last of a run are two parameters, from a request's words to the loop that counts from one to the other: a struct of the two
// would be made of the words and taken apart again at each call. That a number is within its limit is a clause, since the limit is the
// diary's: a type of such numbers would take the diary along.
ghost use Rattle.std.specs.Prelude.{◌≡◌, ◌/◌, ◌<◌};
ghost use Rattle.book.specs.Lent.{reading};
ghost use Rattle.questions.specs.Asked.{first_with, first_without, first_row_with, first_row_without, first_not_member};

use crate::short::Search;
use book::region::Cells;
use queries::entries::member;
use queries::search::first_slot;

// The lowest row of first..last in which the item's cell holds w.
pub fn first_with<S: Search>(g: Cells<'_>, item: u32, w: u32, first: u32, last: u32) -> Option<u32>
    requires last_lt_slots { last < g.grid.slots }
    requires item_lt_g { item < g.grid.items }
    ensures { result ≡ first_with g.entry.grid (reading g.entry.words.now) item w first last }
{
    S::lowest(first, last, |i| g.cell(i, item) == w)
}

// The lowest row of first..last in which the item's cell does not hold w.
pub fn first_without<S: Search>(
    g: Cells<'_>,
    item: u32,
    w: u32,
    first: u32,
    last: u32,
) -> Option<u32>
    requires last_lt_slots { last < g.grid.slots }
    requires item_lt_g { item < g.grid.items }
    ensures { result ≡ first_without g.entry.grid (reading g.entry.words.now) item w first last }
{
    S::lowest(first, last, |i| g.cell(i, item) != w)
}

// The lowest row of first..last in which some cell holds w.
pub fn first_row_with(g: Cells<'_>, w: u32, first: u32, last: u32) -> Option<u32>
    requires last_lt_slots { last < g.grid.slots }
    ensures { result ≡ first_row_with g.entry.grid (reading g.entry.words.now) w first last }
{
    first_slot(first, last, |i| g.row_has(i, w))
}

// The lowest row of first..last in which no cell holds w.
pub fn first_row_without(g: Cells<'_>, w: u32, first: u32, last: u32) -> Option<u32>
    requires last_lt_slots { last < g.grid.slots }
    ensures { result ≡ first_row_without g.entry.grid (reading g.entry.words.now) w first last }
{
    first_slot(first, last, |i| !g.row_has(i, w))
}

// The lowest row of first..last in which v is not in the pool. Compiled into its callers: a call has the cells laid out in memory.
#[inline(always)]
pub fn first_not_member<S: Search>(pool: Cells<'_>, v: u32, first: u32, last: u32) -> Option<u32>
    requires last_lt_slots { last < pool.grid.slots }
    requires v_bound { v / 32 < pool.grid.items }
    ensures { result ≡ first_not_member pool.entry.grid (reading pool.entry.words.now) v first last }
{
    S::lowest(first, last, |i| !member(pool, i, v))
}
