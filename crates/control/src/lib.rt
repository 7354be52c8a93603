#![tactic(auto)]

// The theory of the best plan, over any ordered field: nothing here speaks of machine numbers.
//
// A line has stops 0 to N. At each stop the lateness x (nx numbers) and the adjustments u (nu numbers) give the next lateness by a linear
// rule, and a cost that is a quadratic form of (u, x, 1). The functions below do nothing: each carries one theorem in its contract, for
// every lawful line of any sizes, and from every stop, lateness and list of adjustments. What the words mean is in specs/, which
// specs/Lib.antt lists; the statements are in specs/Theorems.antt. docs/CONTROL.md tells the mathematics.
ghost use Rattle.std.specs.Prelude.{ℕ};
ghost use Rattle.algebra.specs.Field.{OrderedField};
ghost use Rattle.algebra.specs.Exact.{Radicand};
ghost use Rattle.algebra.proofs.ExactField.{exact_field};
ghost use Rattle.control.specs.Line.{Line, Lawful};
ghost use Rattle.control.specs.Ones.{OnesLine};
ghost use Rattle.control.specs.Theorems.{OneStop, AlongAList, Account, BestPlan, LeastAccount, FailingPivot, ZeroResiduals, UpperHalf, Theory};

// Numbers that make an ordered field.
pub trait Numbers {
    ghost field: { OrderedField };
}

// The cost at a stop plus the value of the next lateness is the value of this lateness plus the sum of pivot × gap².
pub fn one_stop<N: Numbers>()
    ensures { (L : Line N.Numbers.field) → Lawful L → OneStop L }
{}

// The cost of a list is the value at its start plus the sum of pivot × gap² over its stops and inputs.
pub fn along_a_list<N: Numbers>()
    ensures { (L : Line N.Numbers.field) → Lawful L → AlongAList L }
{}

// The cost of the confirmed stops plus the value where they lead is the value at the start plus the excess; and, where all pivots are
// positive, the same of the least costs.
pub fn account<N: Numbers>()
    ensures values { (L : Line N.Numbers.field) → Lawful L → Account L }
    ensures least { (L : Line N.Numbers.field) → Lawful L → LeastAccount L }
{}

// Where all pivots are positive, the least cost is the value, and the plan is the one list that every other exceeds.
pub fn best_plan<N: Numbers>()
    ensures { (L : Line N.Numbers.field) → Lawful L → BestPlan L }
{}

// Where a pivot is not positive, no start has one list cheaper than all others; and one of the two cases holds.
pub fn failing_pivot<N: Numbers>()
    ensures { (L : Line N.Numbers.field) → Lawful L → FailingPivot L }
{}

// All residuals are zero for the plan with its multipliers, and for nothing else from that start.
pub fn zero_residuals<N: Numbers>()
    ensures { (L : Line N.Numbers.field) → Lawful L → ZeroResiduals L }
{}

// The recursion's matrices are symmetric, and their upper half is worked from the upper half alone.
pub fn upper_half<N: Numbers>()
    ensures { (L : Line N.Numbers.field) → Lawful L → UpperHalf L }
{}

// All of this, for every line in exact numbers (p + q√D)/m, where D is 0 or no square.
pub fn in_exact_numbers()
    ensures { (D : ℕ) (good : Radicand D) (L : Line (exact_field D good)) → Lawful L → Theory L }
{}

// The worked example of docs/CONTROL.md.
pub fn ones_line()
    ensures { OnesLine }
{}
