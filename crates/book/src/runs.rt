// Rows of one-word cells stand one behind the other: a run of them is a run of words, which the compiler takes several at once.
ghost use Rattle.std.specs.Prelude.{◌≡◌, cond, ◌+◌, ◌%◌, ◌≤◌, ◌<◌, eqb, length, min};
ghost use Rattle.book.specs.Lent.{reading, Lies};
ghost use Rattle.book.specs.Grids.{Fits};
ghost use Rattle.book.specs.Stores.{Stretch, over, zeroed, Cleared, Swept, Inside, Listed, block_zeroed};

use crate::grid::Grid;
use crate::rows::part_count;
use std::ops::Range;

// How many words are looked at before any of them is written.
const BLOCK: usize = 64;

// How many words are worth reading in two places at once: a shorter run has fewer than 32 whole blocks.
const LONG: usize = 2048;

// x, or 0 where x is w.
fn unless(x: u32, w: u32) -> u32
    ensures { result ≡ cond (eqb x w) 0 x }
{
    if x == w {
        return 0;
    }
    x
}

// The words of a run that are w become 0. That a run lies in the book is a clause of each function here: the run goes on where the book is lent
// anew, part by part.
fn clear_words(book: &mut [u32], w: u32, run: Range<usize>)
    requires { run.end ≤ length book.old }
    ensures { book.new ≡ over (zeroed w) run.start run.end book.old }
{
    for n in run.start..run.end {
        book[n] = unless(book[n], w);
    }
}

// The same of a short run, which is only read where no word is w; how many there were.
fn clear_block(book: &mut [u32], w: u32, run: Range<usize>) -> u32
    requires { (run.start ≤ run.end) × (run.end ≤ length book.old) × (length book.old ≤ 1000000000) }
    ensures { Cleared w run.start run.end book.old book.new result }
{
    let here = part_count(&book[run.start..run.end], w);
    if here == 0 {
        return 0;
    }
    clear_words(book, w, run);
    here
}

// The same of a run of any length, block by block.
fn clear_run(book: &mut [u32], w: u32, run: Range<usize>) -> u32
    requires { (run.start ≤ run.end) × (run.end ≤ length book.old) × (length book.old ≤ 1000000000) }
    ensures { Cleared w run.start run.end book.old book.new result }
{
    // By hand, like the loop of `clear_halves`: the library says nothing of what words end as that were lent by `chunks_mut` or `as_chunks_mut`.
    let mut cleared: u32 = 0;
    let mut n = run.start;
    while BLOCK <= run.end - n {
        cleared += clear_block(book, w, n..n + BLOCK);
        n += BLOCK;
    }
    cleared + clear_block(book, w, n..run.end)
}

// The same of two runs of `half` words each, the second behind the first, a block of each in turn.
fn clear_halves(book: &mut [u32], w: u32, start: usize, half: usize) -> u32
    requires { (half % 64 ≡ 0) × (start + half + half ≤ length book.old) × (length book.old ≤ 1000000000) }
    ensures { Cleared w start (start + half + half) book.old book.new result }
{
    let middle = start + half;
    let mut cleared: u32 = 0;
    let mut n = start;
    while n < middle {
        cleared += clear_block(book, w, n..n + BLOCK);
        cleared += clear_block(book, w, n + half..n + half + BLOCK);
        n += BLOCK;
    }
    cleared
}

// How many blocks of a run hold w, and how many of their words are w. The blocks' places stand in the caller's array, since nothing is allocated.
#[derive(Clone, Copy)]
pub struct Holding {
    pub blocks: usize,
    pub words: u32,
}

// The places of the whole blocks of a short run that hold w, and at their end the place behind the last whole block. Every block's place is
// written, and a block without w leaves it to the next: there is no branch on what a block holds, so the memory is read ahead.
fn list_blocks(book: &[u32], w: u32, run: Range<usize>, places: &mut [usize]) -> Holding
    requires start_le_end { (run.start ≤ run.end) × (run.end ≤ length book.now) × (length book.now ≤ 1000000000) }
    requires end_bound { (run.end < run.start + 2048) × (length places.old ≡ 32) }
    ensures { Listed w run.start run.end book.now places.new result.blocks result.words }
{
    // By hand: the loop goes on with where it is, and writes that place down at its end.
    let mut blocks: usize = 0;
    let mut words: u32 = 0;
    let mut n = run.start;
    while BLOCK <= run.end - n {
        let here = part_count(&book[n..n + BLOCK], w);
        places[blocks] = n;
        blocks += usize::from(here != 0);
        words += here;
        n += BLOCK;
    }
    places[blocks] = n;
    Holding { blocks, words }
}

// The words that are w in the blocks at the places of a list become 0.
fn clear_listed(book: &mut [u32], w: u32, places: &[usize])
    requires inside { Inside places.now (length places.now) (length book.old) }
    requires long { length book.old ≤ 1000000000 }
    ensures { book.new ≡ over (block_zeroed w places.now) 0 (length places.now) book.old }
{
    for at in places {
        clear_words(book, w, *at..*at + BLOCK);
    }
}

// What `clear_run` does, of a short run and in two passes: all blocks are read first, and those that hold w are cleared then.
fn clear_short(book: &mut [u32], w: u32, run: Range<usize>) -> u32
    requires start_le_end { (run.start ≤ run.end) × (run.end ≤ length book.old) × (length book.old ≤ 1000000000) }
    requires end_bound { run.end < run.start + 2048 }
    ensures { Cleared w run.start run.end book.old book.new result }
{
    let end = run.end;
    let mut places = [0usize; 32];
    let found = list_blocks(book, w, run, &mut places);
    let blocks = found.blocks;
    let words = found.words;
    clear_listed(book, w, &places[..blocks]);
    let rest = places[blocks];
    words + clear_block(book, w, rest..end)
}

// Half the words of a run, in whole blocks.
fn half_of(words: usize) -> usize
    ensures { (result % 64 ≡ 0) × (result + result ≤ words) }
{
    words / (2 * BLOCK) * BLOCK
}

// The same of a run of any length: a short one in two passes; the halves of a long one are read side by side, because the memory brings the
// words of two places at once.
fn clear_long(book: &mut [u32], w: u32, run: Range<usize>) -> u32
    requires { (run.start ≤ run.end) × (run.end ≤ length book.old) × (length book.old ≤ 1000000000) }
    ensures { Cleared w run.start run.end book.old book.new result }
{
    if run.end - run.start < LONG {
        return clear_short(book, w, run);
    }
    let half = half_of(run.end - run.start);
    let cleared = clear_halves(book, w, run.start, half);
    cleared + clear_run(book, w, run.start + half + half..run.end)
}

// Where the rows of the slots from `from` to before `to` stand, of one-word cells; an empty run where there are no such slots.
fn rows_run(g: Grid, from: u32, to: u32) -> Range<usize>
    requires fits { Fits g 1000000000 }
    requires width_value { g.width ≡ 1 }
    requires to_le_slots { to ≤ g.slots }
    ensures { Stretch g (min from to) to result.start result.end }
{
    let items = g.items as usize;
    let first = from.min(to);
    g.base + (first as usize) * items..g.base + (to as usize) * items
}

// Every cell that holds w in the slots from `from` to before `to`, of one-word cells; how many there were.
pub fn sweep_run(book: &mut [u32], g: Grid, w: u32, from: u32, to: u32) -> u32
    requires lies { Lies g (reading book.old) }
    requires width_value { g.width ≡ 1 }
    requires to_le_slots { to ≤ g.slots }
    ensures { Swept g w from to (reading book.old) (reading book.new) result }
{
    clear_run(book, w, rows_run(g, from, to))
}

// The same by another way through the words, and so another function: a long run is read in two places at once.
pub fn sweep_long(book: &mut [u32], g: Grid, w: u32, from: u32, to: u32) -> u32
    requires lies { Lies g (reading book.old) }
    requires width_value { g.width ≡ 1 }
    requires to_le_slots { to ≤ g.slots }
    ensures { Swept g w from to (reading book.old) (reading book.new) result }
{
    clear_long(book, w, rows_run(g, from, to))
}
