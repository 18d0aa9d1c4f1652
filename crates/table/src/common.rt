//! Common divisors and multiples.
ghost use Rattle.std.specs.Prelude.{◌<◌, ◌≤◌};
ghost use Rattle.table.specs.Common.{Gcd, Lcm};

// The greatest common divisor.
pub(crate) fn gcd(a: u32, b: u32) -> u32
    ensures { Gcd a b result }
{
    let mut x = a;
    let mut y = b;
    while y != 0 {
        let rest = x % y;
        x = y;
        y = rest;
    }
    x
}

// The least common multiple of two numbers from 1 to 30,000.
pub(crate) fn lcm(a: u32, b: u32) -> u32
    requires some { (0 < a) × (0 < b) }
    requires small { (a ≤ 30000) × (b ≤ 30000) }
    ensures { Lcm a b result }
{
    let g = gcd(a, b);
    a / g * b
}
