// The settings line: the book that it lays.
ghost use Rattle.std.specs.Prelude.{◌≤◌, length};
ghost use Rattle.model.specs.Lines.{program_words};
ghost use Rattle.lines.specs.Laying.{LaidOf, LaidBy};

use book::grid::FIXED_WORDS;
use framing::line::{line_words, whole_words};
use header::lay::lay;
use header::settings::book_len;
use model::{Refusal, refused};

// The most words of a book that the program holds.
pub const PROGRAM_WORDS: usize = 16384;

// The most dining rooms, and the most words that settings are: those before the capacities, and a capacity for each of them.
const DINING_MOST: usize = 16;

pub const SETTINGS_WORDS: usize = FIXED_WORDS + DINING_MOST;

// Lays the book that the words of a settings line ask for: its length, or the refusal.
pub fn lay_words(book: &mut [u32], words: &[u32]) -> Result<usize, Refusal>
    requires { program_words ≤ length book.old }
    ensures { LaidOf words.now book.old result book.new }
{
    let Some(size) = book_len(words) else {
        return refused(24, 0);
    };
    if PROGRAM_WORDS < size {
        return refused(25, 0);
    }
    // done: its two questions have just been answered yes
    let _ = lay(words, &mut book[..size]);
    Ok(size)
}

// The same of the words of a line.
pub fn lay_line(book: &mut [u32], line: &[u8]) -> Result<usize, Refusal>
    requires { program_words ≤ length book.old }
    ensures { LaidBy line.now book.old result book.new }
{
    if !whole_words(line) {
        return refused(24, 0);
    }
    let n = line.len() / 8;
    if SETTINGS_WORDS < n {
        return refused(24, 0);
    }
    let mut words = [0u32; SETTINGS_WORDS];
    line_words(line, &mut words);
    lay_words(book, &words[..n])
}
