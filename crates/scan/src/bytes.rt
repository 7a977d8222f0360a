// Bytes copied over others, and a byte stored in each place.
ghost use Rattle.std.specs.Prelude.{◌≡◌, length, replicate};
ghost use Rattle.scan.specs.Bytes.{copied};

// Copies `from` over the first places of `to`, as far as both go. A function apart: put into its callers it is there once for each TLV type,
// and a written message takes longer (docs/MEASURED.md).
#[inline(never)]
#[tactic(auto, unfolding(crate::specs::Bytes::copied))]
pub fn copy(to: &mut [u8], from: &[u8])
    ensures { to.new ≡ copied from.now to.old }
{
    let n = to.len().min(from.len());
    to[..n].copy_from_slice(&from[..n]);
}

// Stores `value` in each place.
pub fn fill(to: &mut [u8], value: u8)
    ensures { to.new ≡ replicate (length to.old) value }
{
    to.fill(value);
}
