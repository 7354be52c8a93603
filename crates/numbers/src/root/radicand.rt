// What stands under the root.
ghost use Rattle.std.specs.Prelude.{◌≡◌, ℕ, ℤ, pos, refl};
ghost use Rattle.algebra.proofs.Radicands.{five, three};
ghost use Rattle.algebra.specs.Exact.{NoSquare};
ghost use Rattle.numbers.specs.Roots.{Under};
ghost use Rattle.std.proofs.Common.{lit≤};

// A number from 2 to 99 that is no square. A square divisor, as in 8 or 12, is no hindrance.
pub trait Radicand {
    const D: i64;

    ghost D: { ℤ };

    ghost radicand: { ℕ };

    ghost is: { D ≡ pos radicand };

    ghost good: { NoSquare radicand };

    ghost small: { Under radicand };
}

// A type for each number and no const parameter: a radicand is an interface that gives the constant D, a rule of the project.
pub struct Three;

impl Radicand for Three {
    const D: i64 = 3;

    ghost D = { pos 3 };

    ghost radicand = { 3 };

    ghost is = { refl };

    ghost good = { three };

    ghost small = { (lit≤ tt, lit≤ tt) };
}

pub struct Five;

impl Radicand for Five {
    const D: i64 = 5;

    ghost D = { pos 5 };

    ghost radicand = { 5 };

    ghost is = { refl };

    ghost good = { five };

    ghost small = { (lit≤ tt, lit≤ tt) };
}
