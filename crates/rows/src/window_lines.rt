// W lines.
use crate::{LineTests, WindowRows};
use lines::Window;
use model::limits::{LAST_INSTANT, MOST_WINDOWS, in_range};

impl Default for WindowRows {
    ghost use Rattle.std.specs.Prelude.{◌≡◌};
    ghost use Rattle.rows.specs.WindowLines.{no_windows};

    ghost is_default = { λ rows. rows ≡ no_windows };

    #[tactic(auto, unfolding(crate::specs::WindowLines::no_windows))]
    fn default() -> WindowRows {
        WindowRows {
            count: 0,
            from: [0; MOST_WINDOWS],
            to: [0; MOST_WINDOWS],
        }
    }
}

impl WindowRows {
    ghost use Rattle.std.specs.Prelude.{◌≡◌, ◌≤◌, ◌<◌};
    ghost use Rattle.model.specs.Limits.{window_counts};
    ghost use Rattle.rows.specs.WindowLines.{window_tests, with_window};

    // The tests of a W line after these.
    pub fn tests(&self, late_enough: bool, w: Window) -> LineTests
        requires { self.now.count ≤ window_counts.most }
        ensures { result ≡ window_tests late_enough self.now w }
    {
        let count = self.count;
        LineTests {
            late_enough,
            few: count < MOST_WINDOWS,
            in_range: in_range(0, LAST_INSTANT, w.from) && in_range(0, LAST_INSTANT, w.to),
            in_order: w.from <= w.to && (count == 0 || self.to[count - 1] < w.from),
        }
    }

    // One window more.
    pub fn push(&mut self, w: Window)
        requires { self.old.count < window_counts.most }
        ensures { self.new ≡ with_window self.old w }
    {
        let at = self.count;
        self.from[at] = w.from;
        self.to[at] = w.to;
        self.count += 1;
    }
}
