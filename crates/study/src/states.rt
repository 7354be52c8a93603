// The states of a study. Each is plain numbers: the sizes of the line, and the stop where the study stands. The sheets are the caller's, and
// are passed to each call.
ghost use Rattle.std.specs.Prelude.{◌≡◌, false, IsTrue};

use std::marker::PhantomData;
use study_terms::sizes::Sizes;
use study_terms::stops::{Departing, Standing};

// A study in numbers of the kind N whose line is not weighed yet.
#[derive(Drop)]
pub struct New<N> {
    pub(super) kind: PhantomData<N>,
}

// Its line is weighed: the gains sheet has the numbers of the plan.
#[derive(Drop)]
pub struct Weighed<N> {
    pub(super) sizes: Sizes,
    pub(super) kind: PhantomData<N>,
}

// A run is underway: the trail has its lateness and adjustments up to a stop.
#[derive(Drop)]
pub struct Underway<N> {
    pub(super) at: Standing,
    pub(super) kind: PhantomData<N>,
}

// The plan at a stop is proposed, and its order is out: it is confirmed or withdrawn.
pub struct Ordered<N> {
    pub(super) at: Departing,
    pub(super) order: Order,
    pub(super) kind: PhantomData<N>,
}

// The token of a proposed plan. Only confirm and withdraw spend it, and only a spent one is let go.
pub struct Order {
    stop: usize,
    spent: bool,
}

impl<N> Ordered<N> {
    // Spends the order, and tells the stop where it was given.
    pub(super) fn settle(self) -> Departing
        ensures { result ≡ self.at }
    {
        let Ordered { at, order, kind: _ } = self;
        order.spend();
        at
    }
}

impl Order {
    // An order that is out.
    pub(super) fn given(stop: usize) -> Order
        ensures stop { result.stop ≡ stop }
        ensures out { result.spent ≡ false }
    {
        Order { stop, spent: false }
    }

    pub(super) fn spend(mut self) {
        self.spent = true;
    }
}

impl Drop for Order {
    // An order that is out is never let go: what would have to hold is that it is spent.
    fn drop(self)
        requires { IsTrue self.spent }
    {
        let Order { stop: _, spent: _ } = self;
    }
}

impl<N> Drop for Ordered<N> {
    // A study with an order that is out is never let go: confirm the order, or withdraw it.
    fn drop(self)
        requires { IsTrue self.order.spent }
    {
        let Ordered {
            at: _,
            order: _,
            kind: _,
        } = self;
    }
}
