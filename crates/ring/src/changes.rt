// The change count, the last word of a book.
ghost use Rattle.std.specs.Prelude.{◌≡◌, false, ◌+◌, ◌-◌, ◌<◌, eqb, length, get_or, set};

// The greatest count: behind it there is none.
pub const MOST_CHANGES: u32 = 4294967295;

pub fn count(book: &[u32]) -> u32
    requires { 0 < length book.now }
    ensures { result ≡ get_or book.now (length book.now - 1) 0 }
{
    book[book.len() - 1]
}

// One change more than there were.
pub fn raise(book: &mut [u32], changes: u32)
    requires book_nonzero { 0 < length book.old }
    requires changes_value { eqb changes 4294967295 ≡ false }
    ensures { book.new ≡ set book.old (length book.old - 1) (changes + 1) }
{
    let last = book.len() - 1;
    book[last] = changes + 1;
}
