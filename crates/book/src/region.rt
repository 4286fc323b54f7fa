// The cells of a region as they are read: a grid and the words that it lies in.
ghost use Rattle.std.specs.Prelude.{◌≡◌, not, ◌*◌, ◌-◌, ◌≤◌, ◌<◌, eqb};
ghost use Rattle.book.specs.Lent.{reading, Lies, Lies-prop};
ghost use Rattle.book.specs.Blocks.{Part, across, block_of};
ghost use Rattle.book.specs.Grids.{word_at, cell_at};
ghost use Rattle.book.specs.Rows.{rows_count, row_count, row_has, row_members};

use crate::grid::{Grid, at};
use crate::rows::{part_count, part_has};

#[derive(Clone, Copy)]
pub struct Cells<'a> {
    pub words: &'a [u32],
    pub grid: Grid,
    pub ghost lies: { Lies grid (reading words.now) } by { Lies-prop grid (reading words.now) },
}

impl<'a> Cells<'a> {
    // The first word of a cell.
    pub fn cell(self, slot: u32, item: u32) -> u32
        requires slot_lt_slots { slot < self.grid.slots }
        requires item_lt_items { item < self.grid.items }
        ensures { result ≡ cell_at self.entry.grid (reading self.entry.words.now) slot item }
    {
        self.words[at(self.grid, slot, item)]
    }

    // Word k of a cell of several words.
    pub fn word(self, slot: u32, item: u32, k: u32) -> u32
        requires slot_lt_slots { slot < self.grid.slots }
        requires item_lt_items { item < self.grid.items }
        requires k_lt_width { k < self.grid.width }
        ensures { result ≡ word_at self.entry.grid (reading self.entry.words.now) slot item k }
    {
        self.words[at(self.grid, slot, item) + (k as usize)]
    }

    // The rows of the slots from `from` to before `to`, one after the other as one slice; none if the two are the same. Who is lent a block
    // need not know where it stands in the book.
    pub fn block(self, from: u32, to: u32) -> &'a [u32]
        requires from_le_to { (from ≤ to) × (to ≤ self.grid.slots) }
        ensures { Part result.now ((to - from) * across self.entry.grid) (block_of self.entry.grid (reading self.entry.words.now) from to) }
    {
        let g = self.grid;
        let items = g.items as usize;
        let width = g.width as usize;
        let start = g.base + (from as usize) * items * width;
        let end = g.base + (to as usize) * items * width;
        &self.words[start..end]
    }

    // How many cells of the slots from lo to before hi hold w, of cells of one word.
    pub fn rows_count(self, w: u32, lo: u32, hi: u32) -> u32
        requires width_value { self.grid.width ≡ 1 }
        requires lo_le_hi { (lo ≤ hi) × (hi ≤ self.grid.slots) }
        ensures { result ≡ rows_count self.entry.grid (reading self.entry.words.now) w lo hi }
    {
        part_count(self.block(lo, hi), w)
    }

    // Does one of them hold w?
    pub fn rows_have(self, w: u32, lo: u32, hi: u32) -> bool
        requires width_value { self.grid.width ≡ 1 }
        requires lo_le_hi { (lo ≤ hi) × (hi ≤ self.grid.slots) }
        ensures { result ≡ not (eqb (rows_count self.entry.grid (reading self.entry.words.now) w lo hi) 0) }
    {
        part_has(self.block(lo, hi), w)
    }

    // How many bits are set in a slot of a pool.
    pub fn row_members(self, slot: u32) -> u32
        requires width_value { (self.grid.width ≡ 1) × (self.grid.items ≤ 16) }
        requires slot_lt_slots { slot < self.grid.slots }
        ensures { result ≡ row_members self.entry.grid (reading self.entry.words.now) slot }
    {
        pool::members(self.block(slot, slot + 1))
    }

    // How many cells of a slot hold w, of cells of several words.
    fn cells_count(self, slot: u32, w: u32) -> u32
        requires slot_lt_slots { slot < self.grid.slots }
        ensures { result ≡ row_count self.entry.grid (reading self.entry.words.now) slot w }
    {
        let mut n: u32 = 0;
        for j in 0..self.grid.items {
            n += u32::from(self.cell(slot, j) == w);
        }
        n
    }

    // How many cells of a slot hold w.
    pub fn row_count(self, slot: u32, w: u32) -> u32
        requires slot_lt_slots { slot < self.grid.slots }
        ensures { result ≡ row_count self.entry.grid (reading self.entry.words.now) slot w }
    {
        if self.grid.width != 1 {
            return self.cells_count(slot, w);
        }
        self.rows_count(w, slot, slot + 1)
    }

    // Does a cell of the slot hold w?
    pub fn row_has(self, slot: u32, w: u32) -> bool
        requires slot_lt_slots { slot < self.grid.slots }
        ensures { result ≡ row_has self.entry.grid (reading self.entry.words.now) slot w }
    {
        self.row_count(slot, w) != 0
    }
}
