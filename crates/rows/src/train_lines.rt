// T and X lines.
use crate::{LineTests, TrainRows};
use lines::{FixedTrain, Train};
use model::limits::{
    FIRST_ARRIVAL, LAST_ARRIVAL, LAST_INSTANT, LEAST_CAPACITY, LEAST_RUNNING, MOST_CAPACITY,
    MOST_RUNNING, MOST_TRAINS, in_range,
};

impl Default for TrainRows {
    ghost use Rattle.std.specs.Prelude.{◌≡◌};
    ghost use Rattle.rows.specs.TrainLines.{no_trains};

    ghost is_default = { λ rows. rows ≡ no_trains };

    #[tactic(auto, unfolding(crate::specs::TrainLines::no_trains))]
    fn default() -> TrainRows {
        TrainRows {
            count: 0,
            capacity: [0; MOST_TRAINS],
            running: [0; MOST_TRAINS],
            departure: [0; MOST_TRAINS],
            arrival: [0; MOST_TRAINS],
        }
    }
}

impl TrainRows {
    ghost use Rattle.std.specs.Prelude.{◌≡◌, ◌≤◌, ◌<◌};
    ghost use Rattle.model.specs.Limits.{train_counts};
    ghost use Rattle.rows.specs.TrainLines.{train_tests, fixed_train_tests, with_train, with_fixed_train};

    // The tests of a T line after these.
    pub fn tests(&self, late_enough: bool, t: Train) -> LineTests
        ensures { result ≡ train_tests late_enough self.now.count t }
    {
        LineTests {
            late_enough,
            few: self.count < MOST_TRAINS,
            in_range: in_range(LEAST_CAPACITY, MOST_CAPACITY, t.capacity)
                && in_range(LEAST_RUNNING, MOST_RUNNING, t.running),
            in_order: true,
        }
    }

    // The tests of an X line after these.
    pub fn fixed_tests(&self, late_enough: bool, t: FixedTrain) -> LineTests
        requires { self.now.count ≤ train_counts.most }
        ensures { result ≡ fixed_train_tests late_enough self.now t }
    {
        let count = self.count;
        LineTests {
            late_enough,
            few: count < MOST_TRAINS,
            in_range: in_range(LEAST_CAPACITY, MOST_CAPACITY, t.capacity)
                && in_range(0, LAST_INSTANT, t.departure)
                && in_range(FIRST_ARRIVAL, LAST_ARRIVAL, t.arrival),
            in_order: t.departure < t.arrival
                && (count == 0
                    || (self.departure[count - 1] < t.departure
                        && self.arrival[count - 1] < t.arrival)),
        }
    }

    // One T line more.
    pub fn push(&mut self, t: Train)
        requires { self.old.count < train_counts.most }
        ensures { self.new ≡ with_train self.old t }
    {
        let at = self.count;
        self.capacity[at] = t.capacity;
        self.running[at] = t.running;
        self.count += 1;
    }

    // One X line more.
    pub fn push_fixed(&mut self, t: FixedTrain)
        requires { self.old.count < train_counts.most }
        ensures { self.new ≡ with_fixed_train self.old t }
    {
        let at = self.count;
        self.capacity[at] = t.capacity;
        self.departure[at] = t.departure;
        self.arrival[at] = t.arrival;
        self.count += 1;
    }
}
