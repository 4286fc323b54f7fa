// Laying a book: the settings, then zeros.
ghost use Rattle.std.specs.Prelude.{◌≡◌, ◌++◌, ◌-◌, ◌≤◌, length, replicate};
ghost use Rattle.model.specs.Calls;
ghost use Rattle.book.specs.Good.{answered};

use crate::settings::{length_of, settings, settings_good};
use model::{Answer, refused};

// The words, then zeros to the end of the book. Word by word: a copy of a slice whose length is not known would have the archive for C need
// `memmove` from outside.
fn fill(words: &[u32], book: &mut [u32])
    requires { length words.now ≤ length book.old }
    ensures { book.new ≡ words.now ++ replicate (length book.old - length words.now) 0 }
{
    let (head, rest) = book.split_at_mut(words.len());
    for (i, word) in head.iter_mut().enumerate() {
        *word = words[i];
    }
    rest.fill(0);
}

// Questions 24 and 25, and a fresh book under the settings.
pub fn lay(words: &[u32], book: &mut [u32]) -> Answer
    ensures { answered result book.new ≡ Calls.lay words.now book.old }
{
    if !settings_good(words) {
        return refused(24, 0);
    }
    let needed = length_of(settings(words));
    if book.len() != needed {
        return refused(25, 0);
    }
    fill(words, book);
    Ok(0)
}
