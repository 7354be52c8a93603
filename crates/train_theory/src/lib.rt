#![tactic(auto)]

// The theory of feeds and lines together: what the feeds that a book was given make of the costs of a line.
// The function carries the theorem in its contract. What the words mean is in specs/, which specs/Lib.antt lists.
ghost use Rattle.train_theory.specs.Weighing.{TrainsWeighOnce};

use lines::line::Kind;

// A book over a line adds each train that its feeds gave once, and any further layers take the cost from there; for numbers of any kind.
#[tactic(auto, using(crate::proofs::Weighing::trains_weigh_once_lem))]
pub fn trains_weigh_once<N: Kind>()
    ensures { TrainsWeighOnce N.Number.good N.Number.value N.Kind.find }
{}
