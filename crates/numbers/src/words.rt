// Steps that stay in one signed word of 64 bits, also before a common divisor is taken out.
ghost use Rattle.std.specs.Prelude.{◌≡◌, ◌+◌, ◌*◌, ◌≤◌, ◌+ℤ◌, ◌*ℤ◌, unsigned_abs};
ghost use Rattle.algebra.specs.Gcd.{gcd};
ghost use Rattle.numbers.specs.Steps.{Room, Small, sign};

// x·y
pub(crate) fn times(x: i64, y: i64) -> i64
    requires { Small x y }
    ensures { result ≡ x *ℤ y }
{
    x * y
}

// a·b + c·d
pub(crate) fn two_products(a: i64, b: i64, c: i64, d: i64) -> i64
    requires first { Small a b }
    requires second { Small c d }
    ensures value { result ≡ (a *ℤ b) +ℤ (c *ℤ d) }
    ensures bound { unsigned_abs result ≤ unsigned_abs a * unsigned_abs b + unsigned_abs c * unsigned_abs d }
{
    times(a, b) + times(c, d)
}

// x, with the other sign where `by` is negative.
pub(crate) fn turned(x: i64, by: i64) -> i64
    requires { Room (unsigned_abs x) }
    ensures { result ≡ sign by *ℤ x }
{
    if by < 0 { -x } else { x }
}

// The greatest common divisor, by Euclid.
pub(crate) fn common_divisor(a: u64, b: u64) -> u64
    ensures { result ≡ gcd a b }
{
    let (mut x, mut y) = (a, b);
    while y != 0 {
        (x, y) = (y, x % y);
    }
    x
}
