// Numbers in bytes, the least significant byte first: those of the records. The order is this library's own choice: a
// compiler makes one store of the bytes of a number in it.
ghost use Rattle.std.specs.Prelude.{◌≡◌, ◌+◌, ◌^◌, ◌<◌, ◌≤◌, length, nat_le};
ghost use Rattle.wire.specs.LittleEndian.{number_at, written};

use crate::order;
use crate::unsigned::Unsigned;

// The number in the n bytes from `at`, or 0 where they are not all there: the reading that every width shares. The records' callers know
// that they are; counting those that are there would be a second way to read each number, which no compiler spares.
#[tactic(auto, unfolding(crate::specs::LittleEndian::number_at), using(crate::proofs::Laws::Layout::power_positive))]
fn read_bytes(s: &[u8], at: usize, n: usize) -> u32
    requires { n ≤ 4 }
    ensures { (result ≡ number_at n s.now at) × (result < 256 ^ n) }
{
    if s.len() < n {
        return 0;
    }
    if s.len() - n < at {
        return 0;
    }
    order::whole(false, s, at, n)
}

// The number in the bytes from `at`, as many as its type has, or 0 where they are not all there.
pub fn read<N: Unsigned>(s: &[u8], at: usize) -> N
    ensures { N.value result ≡ number_at N.WIDTH s.now at }
{
    N::narrow(read_bytes(s, at, N::WIDTH))
}

// Writes v in the bytes from `at`, as many as its type has, and answers true; where they don't fit it answers false and changes nothing.
pub fn write<N: Unsigned>(out: &mut [u8], at: usize, v: N) -> bool
    ensures fits { result ≡ nat_le (at + N.WIDTH) (length out.old) }
    ensures bytes { out.new ≡ written N.WIDTH (N.value v) at out.old }
{
    order::write(false, out, at, N::WIDTH, v.widen())
}
