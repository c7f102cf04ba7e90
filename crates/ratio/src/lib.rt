// Fractions in lowest terms.
#![tactic(auto)]

ghost use Rattle.std.specs.Prelude.{◌≡◌, ◌%◌};
ghost use Rattle.tally.specs.Tally.{apart};
ghost use Rattle.ratio.specs.Lowest.{gcd, lowest};

// A fraction: num over den.
#[derive(Clone, Copy)]
pub struct Fraction {
    pub num: u32,
    pub den: u32,
}

// The distance of two numbers.
pub fn distance(a: u32, b: u32) -> u32
    ensures { result ≡ apart a b }
{
    a.abs_diff(b)
}

// The greatest common divisor of an odd number and another one. Twos have no part in it, and what divides two numbers divides their distance.
pub fn gcd(a: u32, b: u32) -> u32
    requires { a % 2 ≡ 1 }
    ensures { result ≡ gcd a b }
{
    let mut x = a;
    let mut y = b;
    while y != 0 {
        let odd = y >> y.trailing_zeros();
        y = distance(x, odd);
        x = x.min(odd);
    }
    x
}

// The fraction a/b in lowest terms, for an odd a.
pub fn lowest(a: u32, b: u32) -> Fraction
    requires { a % 2 ≡ 1 }
    ensures { result ≡ lowest a b }
{
    let g = gcd(a, b);
    Fraction {
        num: a / g,
        den: b / g,
    }
}
