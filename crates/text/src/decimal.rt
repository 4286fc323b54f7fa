// Base ten: numbers in fields of a set width.
ghost use Rattle.std.specs.Prelude.{◌≡◌, ◌+◌, ◌≤◌, length};
ghost use Rattle.model.specs.Text.{decimal_field};
ghost use Rattle.text.specs.Put.{Put};
ghost use Rattle.text.specs.Decimals.{place_byte};

// The byte at place p, counted from the last one: a digit, or a space before the number. `left` is the number without the places behind p.
fn place_byte(left: u32, p: usize) -> u8
    ensures { result ≡ place_byte left p }
{
    if (p > 0) & (left == 0) {
        32
    } else {
        48 + (left % 10) as u8
    }
}

// A number behind what was written, right-aligned in a field of `width` bytes. It is written from its last place on, so that nothing is
// kept but what is left of the number. By index, since no proof is to be had of what a reversed `iter_mut` wrote.
pub fn put_decimal(out: &mut [u8], at: usize, width: usize, n: u32)
    requires { at + width ≤ length out.old }
    ensures { Put out.old out.new at (decimal_field width n) }
{
    let mut left = n;
    for (p, i) in (at..at + width).rev().enumerate() {
        out[i] = place_byte(left, p);
        left /= 10;
    }
}
