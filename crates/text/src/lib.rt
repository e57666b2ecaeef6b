// Text into a lent buffer: bytes and decimal numbers, one after the other.
#![tactic(auto)]

ghost use Rattle.std.specs.Prelude.{◌+◌, ◌-◌, ◌^◌, ◌≤◌, ◌<◌, ◌≡◌, [], ◌∷◌, length};
ghost use Rattle.text.specs.Text.{Put, PutField, decimal, field};

// Writes a byte string at a place; the answer is the place after it.
pub fn put_bytes(out: &mut [u8], at: usize, src: &[u8]) -> usize
    requires { at + length src.now ≤ length out.old }
    ensures { Put out.old at src.now out.new result }
{
    let end = at + src.len();
    out[at..end].copy_from_slice(src);
    end
}

// Writes one byte.
fn put_byte(out: &mut [u8], at: usize, b: u8) -> usize
    requires { at < length out.old }
    ensures { Put out.old at (b ∷ []) out.new result }
{
    out[at] = b;
    at + 1
}

// The byte of a decimal digit.
fn digit(d: u64) -> u8
    requires { d < 10 }
    ensures { result ≡ 48 + d }
{
    48 + d as u8
}

// Writes a number in decimal digits, without leading zeros.
fn put_decimal(out: &mut [u8], at: usize, n: u64) -> usize
    requires { at + length (decimal n) ≤ length out.old }
    ensures { Put out.old at (decimal n) out.new result }
{
    if n < 10 {
        return put_byte(out, at, digit(n));
    }
    let next = put_decimal(out, at, n / 10);
    put_byte(out, next, digit(n % 10))
}

// Writes a number and the byte that ends its field.
fn put_ended(out: &mut [u8], at: usize, n: u64, end: u8) -> usize
    requires { at + length (field n end) ≤ length out.old }
    ensures { Put out.old at (field n end) out.new result }
{
    let next = put_decimal(out, at, n);
    put_byte(out, next, end)
}

// Writes the field of a number: its digits and the byte that ends it, at most MOST bytes.
pub fn put_number<const MOST: usize>(out: &mut [u8], at: usize, n: u64, end: u8) -> usize
    requires { (at + MOST ≤ length out.old) × (2 ≤ MOST) × (n < 10 ^ (MOST - 1)) }
    ensures { PutField MOST out.old at n end out.new result }
{
    put_ended(out, at, n, end)
}

// Writes the field of a number of 32 bits: at most 10 digits and the byte that ends it.
pub fn put_field(out: &mut [u8], at: usize, n: u32, end: u8) -> usize
    requires { at + 11 ≤ length out.old }
    ensures { PutField 11 out.old at n end out.new result }
{
    put_number::<11>(out, at, u64::from(n), end)
}

// Writes the field of a number of 64 bits: at most 20 digits and the byte that ends it.
pub fn put_wide_field(out: &mut [u8], at: usize, n: u64, end: u8) -> usize
    requires { at + 21 ≤ length out.old }
    ensures { PutField 21 out.old at n end out.new result }
{
    put_number::<21>(out, at, n, end)
}
