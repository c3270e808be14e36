// What says when an interval ends.

ghost use Rattle.std.specs.Prelude.{◌≡◌, Option};
ghost use Rattle.std.specs.Option.{option_map};
ghost use Rattle.outside_world.specs.Tickers.{Ticks, with_period, answered};

/// Says when an interval of a run ends, so that its report is closed.
pub trait Ticker {
    // The period, the number of true answers and the number of answers, where it tells.
    ghost ticks: { Self → Option Ticks };

    /// From now on an interval lasts `ms` milliseconds.
    fn every(&mut self, ms: u32)
        ensures { ticks self.new ≡ option_map (with_period ms) (ticks self.old) };

    /// Whether an interval ends now. Every list of answers is allowed. It takes no memory.
    fn tick(&mut self) -> bool
        ensures { ticks self.new ≡ option_map (answered result) (ticks self.old) };
}
