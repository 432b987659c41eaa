// Numbers in decimal digits, which a table of powers of ten counts.
ghost use Rattle.std.specs.Prelude.{◌≡◌, ◌+◌, ◌<◌, ◌≤◌, ◌++◌, length, drop, decimal};
ghost use Rattle.std.specs.Fmt.{signed_decimal};

use crate::buffer::{CAPACITY, Report};

const POWERS: [u64; 19] = [
    1,
    10,
    100,
    1_000,
    10_000,
    100_000,
    1_000_000,
    10_000_000,
    100_000_000,
    1_000_000_000,
    10_000_000_000,
    100_000_000_000,
    1_000_000_000_000,
    10_000_000_000_000,
    100_000_000_000_000,
    1_000_000_000_000_000,
    10_000_000_000_000_000,
    100_000_000_000_000_000,
    1_000_000_000_000_000_000,
];

// How many digits the number has. It is a rule of the project that a table of the powers of ten up to 10^18 tells this, so numbers are written
// here, and not by the library.
fn digit_count(n: u64) -> usize
    ensures count { result ≡ length (decimal n) }
    ensures least { 1 ≤ result }
    ensures most { result ≤ 20 }
{
    match POWERS.iter().position(|power| n / 10 < *power) {
        Some(k) => k + 1,
        None => 20,
    }
}

// The byte of a digit.
fn digit(d: u64) -> u8
    requires { d < 10 }
    ensures { result ≡ 48 + d }
{
    b'0' + d as u8
}

// Writes the number at the front, from its last digit to its first: how many there are.
fn put_number(out: &mut [u8], n: u64) -> usize
    requires { 20 ≤ length out.old }
    ensures count { result ≡ length (decimal n) }
    ensures bytes { out.new ≡ decimal n ++ drop result out.old }
    ensures most { result ≤ 20 }
{
    let count = digit_count(n);
    let mut place = count;
    let mut rest = n;
    while rest >= 10 {
        place -= 1;
        out[place] = digit(rest % 10);
        rest /= 10;
    }
    out[0] = digit(rest);
    count
}

impl Report {
    pub(crate) fn push_number(&mut self, n: u64)
        requires { length self.old + 20 ≤ CAPACITY }
        ensures bytes { self.new ≡ self.old ++ decimal n }
        ensures bound { length self.new ≤ length self.old + 20 }
    {
        let free = &mut self.bytes[self.length..];
        let count = put_number(free, n);
        self.length += count;
    }

    pub(crate) fn push_signed(&mut self, z: i64)
        requires { length self.old + 21 ≤ CAPACITY }
        ensures bytes { self.new ≡ self.old ++ signed_decimal z }
        ensures bound { length self.new ≤ length self.old + 21 }
    {
        if z < 0 {
            self.push(b'-');
        }
        self.push_number(z.unsigned_abs());
    }
}
