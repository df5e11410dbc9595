ghost use Rattle.std.specs.Prelude.{◌≡◌, ℕ, Bool, Option};
ghost use Rattle.tables.specs.Below.{any_below, first_below, count_below, least_below, lesser};
ghost use Rattle.tables.specs.Walks.{ComputesBelow};

// Whether a number below n passes.
pub fn any<F: Fn(usize) -> bool>(passes: F, n: usize) -> bool
    requires { F.IsAlwaysCallable passes }
    ensures { (t : ℕ → Bool) → ComputesBelow n (F.post passes) t → result ≡ any_below t n }
{
    for i in 0..n {
        if passes(i) {
            return true;
        }
    }
    false
}

// The lowest number below n that passes.
pub fn first<F: Fn(usize) -> bool>(passes: F, n: usize) -> Option<usize>
    requires { F.IsAlwaysCallable passes }
    ensures { (t : ℕ → Bool) → ComputesBelow n (F.post passes) t → result ≡ first_below t n }
{
    for i in 0..n {
        if passes(i) {
            return Some(i);
        }
    }
    None
}

// How many numbers below n pass.
pub fn count<F: Fn(usize) -> bool>(passes: F, n: usize) -> usize
    requires { F.IsAlwaysCallable passes }
    ensures { (t : ℕ → Bool) → ComputesBelow n (F.post passes) t → result ≡ count_below t n }
{
    let mut passed = 0;
    for i in 0..n {
        if passes(i) {
            passed += 1;
        }
    }
    passed
}

// The least of the places of the numbers below n.
pub fn least<F: Fn(usize) -> Option<usize>>(place: F, n: usize) -> Option<usize>
    requires { F.IsAlwaysCallable place }
    ensures { (t : ℕ → Option ℕ) → ComputesBelow n (F.post place) t → result ≡ least_below t n }
{
    let mut best = None;
    for i in 0..n {
        best = lesser_of(best, place(i));
    }
    best
}

// The lesser of two places, where there are any.
pub fn lesser_of(a: Option<usize>, b: Option<usize>) -> Option<usize>
    ensures { result ≡ lesser a b }
{
    match (a, b) {
        (Some(p), Some(q)) => Some(p.min(q)),
        (Some(p), None) => Some(p),
        (None, b) => b,
    }
}
