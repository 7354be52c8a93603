#![tactic(auto)]

// The theory of exact numbers. The functions do nothing: the contract of each one is a theorem, which the check proves.
ghost use Rattle.algebra.specs.Examples.{ElevenSteps, Examples};
ghost use Rattle.algebra.specs.Laws.{ExactIsOrderedField, GcdIsGreatest, LowestPartsExist, LowestPartsUnique, PositiveOfParts, SameNumber};

// The exact numbers with √D are an ordered field, for D = 0 and for every D that is no square.
pub fn exact_is_an_ordered_field()
    ensures { ExactIsOrderedField }
{}

// Two triples mean the same number exactly where they are equal when multiplied crosswise.
pub fn triples_compare_crosswise()
    ensures { SameNumber }
{}

// A triple is positive exactly where its parts pass a test on whole numbers.
pub fn positive_is_a_test_on_parts()
    ensures { PositiveOfParts }
{}

// Every number has one triple in lowest parts.
pub fn lowest_parts_are_unique()
    ensures { LowestPartsExist × LowestPartsUnique }
{}

// The greatest common divisors of two and of three numbers are that.
pub fn gcd_is_greatest()
    ensures { GcdIsGreatest }
{}

// The worked examples come out as they should.
pub fn examples_come_out()
    ensures { Examples × ElevenSteps }
{}
