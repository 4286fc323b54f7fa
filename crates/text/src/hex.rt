// Lower-case hexadecimal by the word: the eight digits of a word are made and read together, as one number of 64 bits in which each digit
// has its byte, the first one the highest. The kit's crate `hex` goes byte by byte, and takes capital letters for digits.
ghost use Rattle.std.specs.Prelude.{◌≡◌, ◌+◌, ◌≤◌, length, take, drop};
ghost use Rattle.model.specs.Text.{digit, word_digits};
ghost use Rattle.text.specs.Digits.{numeral, byte_at, eight_bytes, nibble, value_in, Values, word_in};
ghost use Rattle.text.specs.Put.{Put};

use crate::store::put;

// The four bits of each digit of a word, in a byte of their own: its halves come apart, then the bytes of each, then the halves of these.
fn spread(w: u32) -> u64
    ensures { result ≡ numeral 256 (nibble w) 8 }
{
    let x = w as u64;
    let halves = x / 0x1_0000 * 0x1_0000_0000 + x % 0x1_0000;
    let bytes = (halves & 0x0000_ff00_0000_ff00) * 256 + (halves & 0x0000_00ff_0000_00ff);
    (bytes & 0x00f0_00f0_00f0_00f0) * 16 + (bytes & 0x000f_000f_000f_000f)
}

// The word of eight values, each in a byte of its own: what `spread` took apart.
fn packed(v: u64) -> u32
    requires { Values v }
    ensures { result ≡ numeral 16 (byte_at v) 8 }
{
    let bytes = (v & 0x0f00_0f00_0f00_0f00) / 16 + (v & 0x000f_000f_000f_000f);
    let halves = (bytes & 0x00ff_0000_00ff_0000) / 256 + (bytes & 0x0000_00ff_0000_00ff);
    ((halves / 0x1_0000 + halves % 0x1_0000) % 0x1_0000_0000) as u32
}

// The digit of each of eight values: '0' and the value, and 39 more from 10 on, where the letters begin.
#[tactic(auto, using(crate::proofs::Together::values_small))]
fn digits(v: u64) -> u64
    requires { Values v }
    ensures { result ≡ numeral 256 (λ k. digit (byte_at v k)) 8 }
{
    let letters = (v + 0x0606_0606_0606_0606 & 0x1010_1010_1010_1010) / 16;
    v + 0x3030_3030_3030_3030 + letters * 39
}

// The value of each of eight digits: its low four bits, and 9 more for a letter. A byte that is no digit gives some value too.
fn values(x: u64) -> u64
    ensures { result ≡ numeral 256 (λ k. value_in (byte_at x k)) 8 }
{
    let letters = (x & 0x4040_4040_4040_4040) / 64;
    (x & 0x0f0f_0f0f_0f0f_0f0f) + letters * 9 & 0x0f0f_0f0f_0f0f_0f0f
}

// The digits of a word.
pub fn digits_of(w: u32) -> u64
    ensures { eight_bytes result ≡ word_digits w }
{
    digits(spread(w))
}

// The word of eight digits, if the bytes are digits: exactly then their values, written again, are these bytes. The word is made in any
// case, so that the words of a frame are read side by side.
pub fn word_of(x: u64) -> Option<u32>
    ensures { result ≡ word_in (eight_bytes x) }
{
    let v = values(x);
    let word = packed(v);
    (digits(v) == x).then_some(word)
}

// The word of the eight bytes at a place, if they are digits. The compiler reads all of them at once.
pub fn word_at(s: &[u8], at: usize) -> Option<u32>
    requires { at + 8 ≤ length s.now }
    ensures { result ≡ word_in (take 8 (drop at s.now)) }
{
    let bytes = s[at..at + 8].try_into().unwrap();
    word_of(u64::from_be_bytes(bytes))
}

// The digits of a word behind what was written. The compiler writes all of them at once.
pub fn put_word(out: &mut [u8], at: usize, w: u32)
    requires { at + 8 ≤ length out.old }
    ensures { Put out.old out.new at (word_digits w) }
{
    let digits = digits_of(w).to_be_bytes();
    put(out, at, &digits);
}
