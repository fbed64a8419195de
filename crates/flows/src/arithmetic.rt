// Steps 3 to 7: percentages rounded down, and the smaller of two numbers of which one may be beyond 32 bits.
ghost use Rattle.std.specs.Prelude.{◌≡◌, min};
ghost use Rattle.rules.specs.Flows.{percent};

// p % of x.
pub(crate) fn percent(x: u32, p: u32) -> u64
    ensures { result ≡ percent x p }
{
    (x as u64) * (p as u64) / 100
}

// The smaller of the two, which a limit beyond 32 bits never is.
pub(crate) fn at_most(a: u32, limit: u64) -> u32
    ensures { result ≡ min a limit }
{
    (a as u64).min(limit) as u32
}
