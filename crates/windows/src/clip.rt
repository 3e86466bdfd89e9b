// The ends of a window, clipped to the picture.

ghost use Rattle.std.specs.Prelude.{◌≡◌, suc, ◌+◌, ◌-◌, ◌<◌, min};
ghost use Rattle.numbers.specs.Sum.{dist};

// The first place at most r before i. std's method: it has a name here, so that its promise in the words of the definitions is stated once.
pub fn low(i: usize, r: usize) -> usize
    ensures { result ≡ i - r }
{
    i.saturating_sub(r)
}

// The place past the last of n places that is at most r after i. For callers that know that i is one of them.
pub fn high(i: usize, r: usize, n: usize) -> usize
    requires { i < n }
    ensures { result ≡ min (suc (i + r)) n }
{
    (i + 1).saturating_add(r).min(n)
}

// How far apart two places are. std's method, named here for the same reason.
pub fn distance(i: usize, m: usize) -> usize
    ensures { result ≡ dist i m }
{
    i.abs_diff(m)
}
