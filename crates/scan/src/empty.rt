// The first empty place of an image: the first mark that is 0.
ghost use Rattle.std.specs.Prelude.{◌≡◌, ◌+◌, ◌≤◌, length};
ghost use Rattle.scan.specs.Below.{some_below};
ghost use Rattle.scan.specs.Empty.{empty_at, first_empty};

use super::blocks;

// Whether a place of a block is empty: whether the least of its marks is 0. Each mark is read, and nothing leaves the loop.
fn has_empty(marks: &[u8], at: usize, size: usize) -> bool
    requires { at + size ≤ length marks.now }
    ensures { result ≡ some_below size (λ j. empty_at marks.now (at + j)) }
{
    let mut low: u8 = 255;
    for j in 0..size {
        low = low.min(marks[at + j]);
    }
    low == 0
}

// The first empty place, or the number of marks where there is none: full blocks of 256 are skipped, then full blocks of 16.
pub fn first(marks: &[u8]) -> usize
    ensures { result ≡ first_empty marks.now }
{
    let n = marks.len();
    let wide = blocks::skip_until(0, n, 256, &|k: usize| has_empty(marks, k, 256));
    let narrow = blocks::skip_until(wide, n, 16, &|k: usize| has_empty(marks, k, 16));
    let rest = &marks[narrow..];
    let place = rest.iter().position(|mark| *mark == 0);
    narrow + place.unwrap_or(rest.len())
}
