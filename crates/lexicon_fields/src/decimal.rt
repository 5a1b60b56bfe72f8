//! Numbers in decimal.
ghost use Rattle.std.specs.Prelude.{◌≡◌, ◌+◌, ◌≤◌, ◌∷◌, [], length};
ghost use Rattle.std.specs.Fmt.{decimal};
ghost use Rattle.lexicon_fields.specs.Put.{Puts};

use std::str::from_utf8;

/// The most digits that a 64-bit number has in decimal.
// Not in Rust.
pub const MAX_DECIMAL_LENGTH: usize = 20;

/// A number in decimal, written into a buffer that has room for the longest.
// Not in Rust.
pub fn decimal_text(n: usize, buffer: &mut [u8; MAX_DECIMAL_LENGTH]) -> &str
    ensures { result.now ≡ decimal n }
{
    let end = put_decimal(buffer, 0, n);
    let text = &buffer[..end];
    match from_utf8(text) {
        Ok(text) => text,
        // Digits are UTF-8.
        Err(_) => unreachable!(),
    }
}

/// Writes a number in decimal at `at`, and returns where it ends.
pub(crate) fn put_decimal(out: &mut [u8], at: usize, n: usize) -> usize
    requires { at + length (decimal n) ≤ length out.old }
    ensures { Puts (decimal n) out.old at out.new result }
{
    if n < 10 {
        return put_byte(out, at, b'0' + n as u8);
    }
    let at = put_decimal(out, at, n / 10);
    put_byte(out, at, b'0' + (n % 10) as u8)
}

/// Writes a byte at `at`, and returns where it ends.
pub(crate) fn put_byte(out: &mut [u8], at: usize, byte: u8) -> usize
    requires { at + 1 ≤ length out.old }
    ensures { Puts (byte ∷ []) out.old at out.new result }
{
    out[at] = byte;
    at + 1
}
