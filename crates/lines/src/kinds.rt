// The supplied kinds of number, as kinds of which it is known what they hold.
ghost use Rattle.lines.specs.Fractions.{find_fraction};
ghost use Rattle.lines.specs.Roots.{find_root};
ghost use Rattle.lines.specs.FractionsLemmas.{fraction_finds};
ghost use Rattle.lines.specs.RootsLemmas.{root_finds};

use super::line::Kind;
use numbers::{Fraction, Radicand, Root};

impl Kind for Fraction {
    ghost find = { find_fraction };

    ghost finds = { fraction_finds };
}

impl<R: Radicand> Kind for Root<R> {
    ghost find = { find_root };

    ghost finds = { root_finds _ R.Radicand.radicand R.Radicand.small };
}
