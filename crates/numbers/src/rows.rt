// Arithmetic on rows in lowest parts, the same for every kind: work the parts out exactly, divide by what they have in common,
// and refuse what is then larger than the kind holds.
ghost use Rattle.std.specs.Prelude.{◌≡◌, ℕ, ◌+◌, ◌*◌, ◌≤◌, ℤ, pos, ◌<ℤ◌, MatchOption, unsigned_abs};
ghost use Rattle.algebra.specs.Exact.{Exact, add_e, mul_e, neg_e, zero_e};
ghost use Rattle.algebra.specs.Gcd.{gcd₃};
ghost use Rattle.algebra.specs.Laws.{Plain};
ghost use Rattle.numbers.specs.Answers.{Answers};
ghost use Rattle.numbers.specs.Forms.{Formed, LowestOf, has_form, within};
ghost use Rattle.numbers.specs.Rows.{row_number};
ghost use Rattle.numbers.specs.Steps.{Room};
ghost use Rattle.numbers.specs.declared.Parts.{Parts};

use crate::words::{common_divisor, times, two_products};
use crate::{NumberFault, Parts};

// A kind of number whose values are rows of one form: lowest parts up to SIZE in size, under the root of D.
pub(crate) trait InRows: Sized {
    const D: i64;

    const SIZE: u64;

    ghost D: { ℤ };

    ghost SIZE: { ℕ };

    ghost radicand: { ℕ };

    ghost value: { Self → Exact radicand };

    fn made(row: Parts) -> Self
        requires { Formed radicand SIZE row }
        ensures { value result ≡ row_number radicand row };

    fn parts(self) -> Parts
        ensures formed { Formed radicand SIZE result }
        ensures means { row_number radicand result ≡ value self };

    ghost is: { D ≡ pos radicand };

    // Small whole numbers fit, and products have room.
    ghost large: { 9999 ≤ SIZE };

    ghost room: { Room ((radicand + 1) * (SIZE * SIZE)) };

    // Every value has a row of the form.
    ghost held: { (k : Self) → (row : Parts) × Formed radicand SIZE row × (row_number radicand row ≡ value k) };
}

// What p, q and m have in common.
fn divisor_of(row: Parts) -> u64
    ensures { result ≡ gcd₃ (unsigned_abs row.p) (unsigned_abs row.q) (unsigned_abs row.m) }
{
    let above = common_divisor(row.p.unsigned_abs(), row.q.unsigned_abs());
    common_divisor(above, row.m.unsigned_abs())
}

// The same number in lowest parts.
fn reduced(raw: Parts) -> Parts
    requires { pos 0 <ℤ raw.m }
    ensures { LowestOf raw result }
{
    if raw.m == 1 {
        return raw;
    }
    if raw.p == 0 && raw.q == 0 {
        return Parts { p: 0, q: 0, m: 1 };
    }
    // It divides m, which is above 0, so a signed word holds it: a TryFrom would add a refusal that cannot come.
    let divisor = divisor_of(raw) as i64;
    Parts {
        p: raw.p / divisor,
        q: raw.q / divisor,
        m: raw.m / divisor,
    }
}

// The same number in lowest parts; none where m is not above 0.
pub fn lowest_parts(raw: Parts) -> Option<Parts>
    ensures { MatchOption result (¬ (pos 0 <ℤ raw.m)) (λ row. LowestOf raw row) }
{
    if raw.m > 0 { Some(reduced(raw)) } else { None }
}

// Whether each part is at most `size` in size.
fn is_within(row: Parts, size: u64) -> bool
    ensures { result ≡ within size row }
{
    row.p.unsigned_abs() <= size && row.q.unsigned_abs() <= size && row.m.unsigned_abs() <= size
}

// Whether a row is one that a kind of this size writes.
fn is_formed(row: Parts, size: u64) -> bool
    ensures { result ≡ has_form size row }
{
    row.m > 0 && is_within(row, size) && divisor_of(row) == 1
}

// The value for the number that the parts stand for.
pub(crate) fn fitted<K: InRows>(raw: Parts) -> Result<K, NumberFault>
    requires above { pos 0 <ℤ raw.m }
    requires plain { Plain K.radicand raw.q }
    ensures { Answers K.value (row_number K.radicand raw) result }
{
    let row = reduced(raw);
    if is_within(row, K::SIZE) {
        Ok(K::made(row))
    } else {
        Err(NumberFault::TooLarge)
    }
}

// The value whose row it is, or 0 where it is the row of none.
pub(crate) fn read<K: InRows>(row: Parts) -> K
    ensures held { Formed K.radicand K.SIZE row → K.value result ≡ row_number K.radicand row }
    ensures other { ¬ Formed K.radicand K.SIZE row → K.value result ≡ zero_e K.radicand }
{
    if (K::D != 0 || row.q == 0) && is_formed(row, K::SIZE) {
        K::made(row)
    } else {
        K::made(Parts { p: 0, q: 0, m: 1 })
    }
}

// −k
fn opposite<K: InRows>(k: K) -> K
    ensures { K.value result ≡ neg_e (K.value k) }
{
    let Parts { p, q, m } = k.parts();
    K::made(Parts { p: -p, q: -q, m })
}

// a + b
pub(crate) fn sum<K: InRows>(a: K, b: K) -> Result<K, NumberFault>
    ensures { Answers K.value (add_e (K.value a) (K.value b)) result }
{
    let a = a.parts();
    let b = b.parts();
    let p = two_products(a.p, b.m, b.p, a.m);
    let q = two_products(a.q, b.m, b.q, a.m);
    let m = times(a.m, b.m);
    fitted(Parts { p, q, m })
}

// a − b
pub(crate) fn difference<K: InRows>(a: K, b: K) -> Result<K, NumberFault>
    ensures { Answers K.value (add_e (K.value a) (neg_e (K.value b))) result }
{
    sum(a, opposite(b))
}

// a × b
pub(crate) fn product<K: InRows>(a: K, b: K) -> Result<K, NumberFault>
    ensures { Answers K.value (mul_e (K.value a) (K.value b)) result }
{
    let a = a.parts();
    let b = b.parts();
    let under = times(K::D, a.q);
    let p = two_products(a.p, b.p, under, b.q);
    let q = two_products(a.p, b.q, a.q, b.p);
    let m = times(a.m, b.m);
    fitted(Parts { p, q, m })
}
