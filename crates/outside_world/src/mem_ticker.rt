// A ticker over a list of answers.

ghost use Rattle.std.specs.Prelude.{◌≡◌};
ghost use Rattle.outside_world.specs.Tickers.{with_period, next_answer, after_answer};

use crate::ticker::Ticker;
use std::marker::Model;

/// Gives the answers of a list, one after another, and false after the last. It tells.
#[derive(Drop)]
pub struct MemTicker {
    answers: Vec<bool>,
    given: usize,
    period: u32,
    trues: u64,
    asks: u64,
}

impl Model for MemTicker {
    ghost use Rattle.std.specs.Prelude.{◌≤◌, drop, length};
    ghost use Rattle.outside_world.specs.Tickers.{MemTicks};

    ghost Value = { MemTicks };

    ghost view = { λ t. record { left = drop t.given t.answers.items; ticks = record { period = t.period; trues = t.trues; asks = t.asks } } };

    ghost invariant = { λ t. (t.given ≤ length t.answers.items) × (t.trues ≤ t.given) };
}

impl MemTicker {
    /// A ticker with these answers. It was given no period and was asked nothing.
    pub fn new(answers: Vec<bool>) -> MemTicker
        ensures { result ≡ record { left = answers.items; ticks = record { period = 0; trues = 0; asks = 0 } } }
    {
        MemTicker {
            answers,
            given: 0,
            period: 0,
            trues: 0,
            asks: 0,
        }
    }
}

impl Ticker for MemTicker {
    ghost use Rattle.std.specs.Prelude.{Some};

    ghost ticks = { λ t. Some t.ticks };

    /// From now on its period is `ms`. Its answers stay.
    fn every(&mut self, ms: u32)
        ensures { self.new ≡ record self.old { ticks = with_period ms self.old.ticks } }
    {
        self.period = ms;
    }

    /// The next answer of its list, false after the last.
    fn tick(&mut self) -> bool
        ensures answer { result ≡ next_answer self.old.left }
        ensures after { self.new ≡ after_answer self.old }
    {
        self.asks = self.asks.saturating_add(1);
        let Some(answer) = self.answers.get(self.given).copied() else {
            return false;
        };
        self.given += 1;
        if answer {
            self.trues += 1;
        }
        answer
    }
}
