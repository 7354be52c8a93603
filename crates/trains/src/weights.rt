// Whole-number sums over the trains of a book.
ghost use Rattle.std.specs.Prelude.{◌≡◌, ◌*◌, ◌≤◌, length, unsigned_abs};
ghost use Rattle.trains.specs.Weights.{factor, share, weighed};

use feed_types::types::Train;

// The list (adjustments, lateness, 1) at a stop: where its lateness begins, and how long that is.
#[derive(Clone, Copy)]
pub(super) struct Places {
    pub(super) stop: usize,
    pub(super) first: usize,
    pub(super) states: usize,
}

impl Places {
    // The factor of a place of the list in the gap of a train.
    fn factor(self, t: &Train, place: usize) -> i64
        ensures value { result ≡ factor self.first self.states t.now place }
        ensures bound { unsigned_abs result ≤ 32768 }
    {
        if place < self.first {
            return t.moves.get(place).map_or(0, |factor| i64::from(*factor));
        }
        if place - self.first < self.states {
            return t
                .late
                .get(place - self.first)
                .map_or(0, |factor| i64::from(*factor));
        }
        -i64::from(t.aim)
    }

    // What a train adds to an entry of the cost. Row and column are apart, as in `Line`.
    fn share(self, t: &Train, row: usize, column: usize) -> i64
        ensures value { result ≡ share self.first self.states t.now row column }
        ensures bound { unsigned_abs result ≤ 65535 * 32768 * 32768 }
    {
        i64::from(t.weight) * self.factor(t, row) * self.factor(t, column)
    }

    // The sum over the trains that stand at the stop.
    pub(super) fn weigh(self, trains: &[Train], row: usize, column: usize) -> i64
        requires { length trains.now ≤ 64 }
        ensures { result ≡ weighed self.stop self.first self.states trains.now row column }
    {
        // a loop, since nothing bounds the sum of an iterator's signed numbers
        let mut sum = 0;
        for t in trains {
            if usize::from(t.stop) == self.stop {
                sum += self.share(t, row, column);
            }
        }
        sum
    }
}
