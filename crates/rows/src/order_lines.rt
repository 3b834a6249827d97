// O lines, which both forms have.
use crate::{LineTests, OrderRows};
use lines::Order;
use model::limits::{LAST_INSTANT, LEAST_WEIGHT, MOST_ORDERS, MOST_WEIGHT, in_range};

impl Default for OrderRows {
    ghost use Rattle.std.specs.Prelude.{◌≡◌};
    ghost use Rattle.rows.specs.OrderLines.{no_orders};

    ghost is_default = { λ rows. rows ≡ no_orders };

    #[tactic(auto, unfolding(crate::specs::OrderLines::no_orders))]
    fn default() -> OrderRows {
        OrderRows {
            count: 0,
            release: [0; MOST_ORDERS],
            due: [0; MOST_ORDERS],
            weight: [0; MOST_ORDERS],
            name_start: [0; MOST_ORDERS],
            name_length: [0; MOST_ORDERS],
        }
    }
}

impl OrderRows {
    ghost use Rattle.std.specs.Prelude.{◌≡◌, ◌<◌};
    ghost use Rattle.rows.specs.OrderLines.{order_tests, with_order};
    ghost use Rattle.model.specs.Limits.{order_counts};

    // The tests of an O line after these.
    pub fn tests(&self, late_enough: bool, o: Order) -> LineTests
        ensures { result ≡ order_tests late_enough self.now.count o }
    {
        LineTests {
            late_enough,
            few: self.count < MOST_ORDERS,
            in_range: in_range(0, LAST_INSTANT, o.release)
                && in_range(0, LAST_INSTANT, o.due)
                && in_range(LEAST_WEIGHT, MOST_WEIGHT, o.weight),
            in_order: true,
        }
    }

    // One order more.
    pub fn push(&mut self, o: Order)
        requires { self.old.count < order_counts.most }
        ensures { self.new ≡ with_order self.old o }
    {
        let at = self.count;
        self.release[at] = o.release;
        self.due[at] = o.due;
        self.weight[at] = o.weight;
        self.name_start[at] = o.name_start;
        self.name_length[at] = o.name_length;
        self.count += 1;
    }
}
