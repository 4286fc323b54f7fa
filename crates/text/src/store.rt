// Bytes in a lent slice.
ghost use Rattle.std.specs.Prelude.{◌+◌, ◌≤◌, length};
ghost use Rattle.text.specs.Put.{Put};

// Bytes behind what was written.
pub fn put(out: &mut [u8], at: usize, bytes: &[u8])
    requires { at + length bytes.now ≤ length out.old }
    ensures { Put out.old out.new at bytes.now }
{
    let end = at + bytes.len();
    out[at..end].copy_from_slice(bytes);
}
