// Whether new bytes conflict with old ones: some place is filled (its mark is not 0) and holds another byte. Marks, old and new bytes are three
// slices and no list of places: they are the host's, lent apart.
ghost use Rattle.std.specs.Prelude.{◌≡◌, not, ◌≤◌, ◌<◌, length, eqb};
ghost use Rattle.scan.specs.Below.{some_below};
ghost use Rattle.scan.specs.Conflict.{conflict_at, conflict_in};

use super::blocks;

// What marks a conflict, the lesser of the place's mark and of the bits in which the bytes differ: it is not 0 where neither is.
fn conflict(marks: &[u8], old: &[u8], new: &[u8], k: usize) -> u8
    requires { (k < length marks.now) × (k < length old.now) × (k < length new.now) }
    ensures { not (eqb result 0) ≡ conflict_at marks.now old.now new.now k }
{
    marks[k].min(old[k] ^ new[k])
}

// Whether one of the first n places is filled and holds another byte than the new one. Equal blocks and unfilled ones, which can't
// conflict, are skipped; the block after them is compared place by place.
fn any_by_blocks(marks: &[u8], old: &[u8], new: &[u8], n: usize) -> bool
    requires { (n ≤ length marks.now) × (n ≤ length old.now) × (n ≤ length new.now) }
    ensures { result ≡ some_below n (conflict_at marks.now old.now new.now) }
{
    // A while: a turn goes on by as many places as it skipped and compared.
    let mut k = 0;
    while k < n {
        let other = blocks::skip(k, n, 256, &|k: usize| old[k] ^ new[k]);
        let at = blocks::skip(other, n, 256, &|k: usize| marks[k]);
        let end = at + (n - at).min(256);
        if blocks::any(at, end, &|k: usize| conflict(marks, old, new, k)) {
            return true;
        }
        k = end;
    }
    false
}

// Whether some place is filled and holds another byte than the new one, as far as all three go. Fragments of up to a kilobyte are compared
// in one loop, which measured faster for a conflict at their end.
pub fn found(marks: &[u8], old: &[u8], new: &[u8]) -> bool
    ensures { result ≡ conflict_in marks.now old.now new.now }
{
    let n = marks.len().min(old.len().min(new.len()));
    if n < 1280 {
        blocks::any(0, n, &|k: usize| conflict(marks, old, new, k))
    } else {
        any_by_blocks(marks, old, new, n)
    }
}
