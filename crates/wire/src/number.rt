// Numbers in bytes, the most significant byte first (01: "All numbers on the wire are big-endian").
ghost use Rattle.std.specs.Prelude.{◌≡◌, ◌+◌, ◌^◌, ◌<◌, ◌≤◌, length, nat_le, slice_index};
ghost use Rattle.wire.specs.Number.{number, written};

use crate::order;
use crate::unsigned::Unsigned;

// The byte k places after `at`, or 0 past the end.
fn byte(s: &[u8], at: usize, k: usize) -> u8
    ensures { result ≡ slice_index s.now (at + k) }
{
    if at < s.len() {
        if k < s.len() - at {
            return s[at + k];
        }
    }
    0
}

// The number in the n bytes from `at`, where the bytes may end before.
fn padded(s: &[u8], at: usize, n: usize) -> u32
    requires { n ≤ 4 }
    ensures { (result ≡ number n s.now at) × (result < 256 ^ n) }
{
    let mut v: u32 = 0;
    for k in 0..n {
        let b = byte(s, at, k) as u32;
        v = 256 * v + b;
    }
    v
}

// The same, where they mostly are all there: one test finds whether they are.
fn read_bytes(s: &[u8], at: usize, n: usize) -> u32
    requires { n ≤ 4 }
    ensures { (result ≡ number n s.now at) × (result < 256 ^ n) }
{
    if at < s.len() {
        if n <= s.len() - at {
            return order::whole(true, s, at, n);
        }
    }
    padded(s, at, n)
}

// The number in the bytes from `at`, as many as its type has; a byte past the end counts as 0.
pub fn read<N: Unsigned>(s: &[u8], at: usize) -> N
    ensures { N.value result ≡ number N.WIDTH s.now at }
{
    N::narrow(read_bytes(s, at, N::WIDTH))
}

// Writes v in the bytes from `at`, as many as its type has, and answers true; where they don't fit it answers false and changes nothing.
pub fn write<N: Unsigned>(out: &mut [u8], at: usize, v: N) -> bool
    ensures fits { result ≡ nat_le (at + N.WIDTH) (length out.old) }
    ensures bytes { out.new ≡ written N.WIDTH (N.value v) at out.old }
{
    order::write(true, out, at, N::WIDTH, v.widen())
}
