// What the lines so far say, with one line more.
use crate::{Kind, SheetLines};
use lines::Line;
use rows::{OrderRows, TrainRows, WindowRows};

// The kind of a line.
impl From<Line> for Kind {
    ghost use Rattle.std.specs.Prelude.{◌≡◌};
    ghost use Rattle.gather.specs.SheetLines.{kind};

    ghost from_gives = { λ read k. k ≡ kind read };

    fn from(read: Line) -> Kind {
        match read {
            Line::Gap(_) => Kind::Gap,
            Line::Window(_) => Kind::Window,
            Line::Train(_) | Line::FixedTrain(_) => Kind::Train,
            Line::Order(_) => Kind::Order,
        }
    }
}

// No lines yet.
impl Default for SheetLines {
    ghost use Rattle.std.specs.Prelude.{◌≡◌};
    ghost use Rattle.gather.specs.SheetLines.{no_lines};

    ghost is_default = { λ lines. lines ≡ no_lines };

    #[tactic(auto, unfolding(crate::specs::SheetLines::no_lines))]
    fn default() -> SheetLines {
        SheetLines {
            above: None,
            gap: None,
            windows: WindowRows::default(),
            trains: TrainRows::default(),
            orders: OrderRows::default(),
        }
    }
}

impl SheetLines {
    ghost use Rattle.std.specs.Prelude.{◌≡◌};
    ghost use Rattle.gather.specs.SheetLines.{OneMore, with_line};

    // One line more.
    #[tactic(auto, unfolding(crate::specs::SheetLines::with_line))]
    pub fn push(&mut self, read: Line)
        requires { OneMore self.old read }
        ensures { self.new ≡ with_line self.old read }
    {
        self.above = Some(read.into());
        match read {
            Line::Gap(g) => self.gap = Some(g.gap),
            Line::Window(w) => self.windows.push(w),
            Line::Train(t) => self.trains.push(t),
            Line::FixedTrain(t) => self.trains.push_fixed(t),
            Line::Order(o) => self.orders.push(o),
        }
    }
}
