// What every line offers.
ghost use Rattle.std.specs.Prelude.{◌≡◌, ℕ, suc, ◌^◌, ◌<◌, ◌⊎◌, ℤ, Option, MatchOption};
ghost use Rattle.lines.specs.Kinds.{Finds};
ghost use Rattle.lines.specs.Laws.{Lawful, Levelled};
ghost use Rattle.algebra.proofs.ExactField.{exact_field};
ghost use Rattle.control.specs.Line.{Lawful as ExactLawful};
ghost use Rattle.lines.specs.Meaning.{Meaning, Answer, line_of, order_of};

use super::faults::LineFault;
use numbers::Number;

// A kind of which it is known, for every exact number, whether a value means it.
pub trait Kind: Number {
    // The value with these lowest parts, if the kind holds it.
    ghost find: { ℤ → ℤ → ℕ → Option Self };

    ghost finds: { Finds Self.Number.value find };
}

// A line of stops 0 to N: at each stop before N the rule F by which lateness travels, and at each stop the cost G.
// It tells whatever sizes it has, 0 and far beyond every limit included.
pub trait Line {
    type Number: Kind + Copy;

    ghost meaning: { Self → Meaning Self.Number };

    // The last stop.
    fn stops(&self) -> usize
        ensures { result ≡ (meaning self.now).end };

    // How many numbers the lateness at a stop is.
    fn states(&self) -> usize
        ensures { result ≡ (meaning self.now).nx };

    // How many adjustments are made at a stop.
    fn inputs(&self) -> usize
        ensures { result ≡ (meaning self.now).nu };

    // How many layers lie over a line at the bottom, this one included; 255 stands for all beyond.
    fn level(&self) -> u8
        ensures { result ≡ (meaning self.now).level };

    // An entry of F: columns are inputs, states, constant; rows are states, constant. Stop, row and column are apart here and below: contracts name each,
    // and a struct of the three would only be taken apart again.
    fn f(&self, stop: usize, row: usize, column: usize) -> Result<Self::Number, LineFault>
        ensures { Answer ((meaning self.now).F stop row column) result };

    // An entry of G: rows and columns are inputs, states, constant, and at the last stop states, constant.
    fn g(&self, stop: usize, row: usize, column: usize) -> Result<Self::Number, LineFault>
        ensures { Answer ((meaning self.now).G stop row column) result };

    ghost lawful: { (l : Self) → Lawful Self.Number.Number.value (meaning l) };

    ghost levelled: { (l : Self) → Levelled (meaning l) };
}

// In exact numbers every line is a lawful line of the theory of plans: its costs are symmetric, and F keeps the constant 1.
pub fn every_line_is_lawful<L: Line>()
    ensures { (l : L) → ExactLawful (line_of (exact_field L.Number.Number.radicand L.Number.Number.good) L.Number.Number.value (L.Line.meaning l)) }
{}

// The row and column of the constant in G at a stop of a line of these sizes. There is none past the last stop, and none that could be
// asked where the sizes add up to more than a word holds.
pub fn constant(stops: usize, states: usize, inputs: usize, stop: usize) -> Option<usize>
    ensures { MatchOption result ((order_of stops states inputs stop ≡ 0) ⊎ (2 ^ 64 < order_of stops states inputs stop)) (λ c. suc c ≡ order_of stops states inputs stop) }
{
    if stop < stops {
        return inputs.checked_add(states);
    }
    (stop == stops).then_some(states)
}
