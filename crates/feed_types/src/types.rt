// The plain rows of a feed: its sizes, and its trains with their labels.
ghost use Rattle.std.specs.Prelude.{◌≡◌, Decides};
ghost use Rattle.feed_types.specs.declared.types.Label.{Label};
ghost use Rattle.feed_types.specs.declared.types.Train.{Train};

// The sizes of a line, as a feed's header gives them: the last stop N, the number of states, the number of inputs.
#[derive(Clone, Copy, PartialEq, Eq, Debug)]
pub struct Sizes {
    pub stops: u8,
    pub states: u8,
    pub inputs: u8,
}

// A train's label: 1 to 8 capital letters or digits, and then zeros up to the eighth byte.
// A fixed row, as `late` and `moves` are below: a train is copied and wants no memory of its own.
#[derive(Clone, Copy, PartialEq, Eq, Debug)]
pub struct Label {
    pub bytes: [u8; 8],
}

// What one operator asks of one train at one stop: `weight` times the square of
// late × lateness + moves × adjustments − aim. Stop and label tell the train.
// `late` and `moves` are 0 past the states and inputs of the feed. (A feed's key for `moves` is `move`.)
#[derive(Clone, Copy, PartialEq, Eq, Debug)]
pub struct Train {
    pub stop: u8,
    pub label: Label,
    pub weight: u16,
    pub late: [i8; 4],
    pub moves: [i8; 3],
    pub aim: i16,
}

// `==` of labels and of trains is equality of all their values. The function carries the theorem in its contract.
pub fn equality_is_of_all_values()
    ensures equal_labels { (l m : Label) → Decides (⟦<Label as PartialEq>⟧.eq l m) (l ≡ m) }
    ensures equal_trains { (t u : Train) → Decides (⟦<Train as PartialEq>⟧.eq t u) (t ≡ u) }
{}
