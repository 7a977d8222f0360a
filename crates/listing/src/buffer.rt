// The bytes that are read and not listed yet.
ghost use Rattle.std.specs.Prelude.{◌≡◌, ◌-◌, ◌≤◌, length, take, drop};

// Moves the bytes from `from` to `to` to the front, and answers how many they are.
pub(crate) fn move_to_front(buf: &mut [u8], from: usize, to: usize) -> usize
    requires { (from ≤ to) × (to ≤ length buf.old) }
    ensures count { result ≡ to - from }
    ensures bytes { take result buf.new ≡ take result (drop from buf.old) }
{
    if from == 0 {
        return to;
    }
    buf.copy_within(from..to, 0);
    to - from
}
