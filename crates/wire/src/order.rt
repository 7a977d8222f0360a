// Numbers of up to four bytes in either order: `big` is the most significant byte first. The loops that both orders share.
ghost use Rattle.std.specs.Prelude.{◌≡◌, ◌+◌, ◌-◌, ◌^◌, ◌<◌, ◌≤◌, length, if◌then◌else◌, nat_le};
ghost use Rattle.wire.specs.Number.{number_in, written_in};

// The place of byte k of n, counted from the most significant.
fn place(big: bool, n: usize, k: usize) -> usize
    requires { k < n }
    ensures { (result ≡ (if big then k else n - 1 - k)) × (result < n) }
{
    if big {
        return k;
    }
    n - 1 - k
}

// The number in the n bytes from `at`, where all of them are there. At most four fit in 32 bits: a number of its own type for n would be
// no plainer, since only constants are given.
pub(crate) fn whole(big: bool, s: &[u8], at: usize, n: usize) -> u32
    requires { (n ≤ 4) × (at + n ≤ length s.now) }
    ensures { (result ≡ number_in big n s.now at) × (result < 256 ^ n) }
{
    let mut value: u32 = 0;
    for k in 0..n {
        let b = s[at + place(big, n, k)] as u32;
        value = 256 * value + b;
    }
    value
}

// Writes v in the n bytes from `at` and answers true; where they don't fit it answers false and changes nothing.
pub(crate) fn write(big: bool, out: &mut [u8], at: usize, n: usize, v: u32) -> bool
    ensures fits { result ≡ nat_le (at + n) (length out.old) }
    ensures bytes { out.new ≡ written_in big n v at out.old }
{
    if out.len() < n {
        return false;
    }
    if out.len() - n < at {
        return false;
    }
    let mut rest = v;
    for k in (0..n).rev() {
        out[at + place(big, n, k)] = (rest % 256) as u8;
        rest /= 256;
    }
    true
}
