// Places that are looked at block by block: a place is hit where what a closure answers for it is not 0. The answer is a u8 and no bool, because
// the loop in `any` then compiles to vector instructions.
ghost use Rattle.std.specs.Prelude.{◌≡◌, ℕ, ◌+◌, ◌≤◌, ◌<◌, true};
ghost use Rattle.std.specs.Bool.{MatchBool};
ghost use Rattle.scan.specs.Blocks.{SomeHit, NoneHit, AllPassed};

// Whether a place from `from` on and before `to` is hit. Each is looked at, and nothing leaves the loop.
pub(crate) fn any<F: Fn(usize) -> u8>(from: usize, to: usize, hit: &F) -> bool
    requires { (k : ℕ) → from ≤ k → k < to → F.pre hit.now k }
    ensures { MatchBool result (SomeHit (F.post hit.now) from to) (NoneHit (F.post hit.now) from to) }
{
    let mut high: u8 = 0;
    for k in from..to {
        high = high.max(hit(k));
    }
    high != 0
}

// The same of a block, whose first place is looked at before the others: one with a hit mostly begins with one.
fn first_or_any<F: Fn(usize) -> u8>(from: usize, to: usize, hit: &F) -> bool
    requires some { from < to }
    requires callable { (k : ℕ) → from ≤ k → k < to → F.pre hit.now k }
    ensures { MatchBool result (SomeHit (F.post hit.now) from to) (NoneHit (F.post hit.now) from to) }
{
    hit(from) != 0 || any(from, to, hit)
}

// The end of the blocks that follow each other from `from` on, among the first n places: they end before the first at which a closure says to
// stop, which is asked with the place where the block begins.
pub(crate) fn skip_until<F: Fn(usize) -> bool>(
    from: usize,
    n: usize,
    size: usize,
    stop: &F,
) -> usize
    requires room { from ≤ n }
    requires some { 0 < size }
    requires callable { (k : ℕ) → from ≤ k → k + size ≤ n → F.pre stop.now k }
    ensures from_on { from ≤ result }
    ensures within { result ≤ n }
    ensures passed { AllPassed (F.post stop.now) size n from result }
    ensures stopped { result + size ≤ n → F.post stop.now result true }
{
    // A while: a turn goes on by a block, and the answer is where it stops.
    let mut k = from;
    while size <= n - k {
        if stop(k) {
            return k;
        }
        k += size;
    }
    k
}

// The end of the blocks without a hit that follow each other from `from` on, among the first n places.
pub(crate) fn skip<F: Fn(usize) -> u8>(from: usize, n: usize, size: usize, hit: &F) -> usize
    requires room { from ≤ n }
    requires some { 0 < size }
    requires callable { (k : ℕ) → from ≤ k → k < n → F.pre hit.now k }
    ensures from_on { from ≤ result }
    ensures within { result ≤ n }
    ensures skipped { NoneHit (F.post hit.now) from result }
    ensures stopped { result + size ≤ n → SomeHit (F.post hit.now) result (result + size) }
{
    skip_until(from, n, size, &|k: usize| first_or_any(k, k + size, hit))
}
