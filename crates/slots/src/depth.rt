// Rule 12: the lowest column that more than 8 fragments cover.
ghost use Rattle.std.specs.Prelude.{◌≡◌, ◌<◌, ◌≤◌, count_by, take, MatchOption};
ghost use Rattle.slots.specs.Algorithm.Spans.{has_column, deep_by};

use crate::spans::Span;

// How many fragments cover column c.
fn covering(m: usize, spans: &[Span; 128], c: usize) -> usize
    requires { m ≤ 128 }
    ensures { result ≡ count_by (λ span. has_column span c) (take m spans.now) }
{
    spans[..m].iter().filter(|span| span.covers(c)).count()
}

// The lowest of n columns that more than 8 fragments cover, if there is one.
pub fn first_deep(m: usize, n: usize, spans: &[Span; 128]) -> Option<usize>
    requires { m ≤ 128 }
    ensures { MatchOption result (deep_by m n spans.now ≡ n) (λ c. (c < n) × (c ≡ deep_by m n spans.now)) }
{
    for c in 0..n {
        if 8 < covering(m, spans, c) {
            return Some(c);
        }
    }
    None
}
