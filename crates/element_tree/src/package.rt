// What applies to a sampler, and what a controller does next.

use std::marker::Model;

/// The elements that take part in the samples of one sampler, by their numbers, each list in the order in which they act (the manual's
/// "Execution order" and "Scoping Rules").
pub struct Package {
    /// Configuration elements.
    pub config: Vec<u16>,
    /// Pre-processors.
    pub pre: Vec<u16>,
    /// Timers.
    pub timers: Vec<u16>,
    /// Post-processors, which are the extractors.
    pub post: Vec<u16>,
    /// Assertions.
    pub assertions: Vec<u16>,
    /// Listeners.
    pub listeners: Vec<u16>,
}

// Written out, so that other crates let a package go by one call.
impl Drop for Package {
    fn drop(self) {
        let Self {
            config: _config,
            pre: _pre,
            timers: _timers,
            post: _post,
            assertions: _assertions,
            listeners: _listeners,
        } = self;
    }
}

impl Model for Package {
    ghost use Rattle.element_tree.specs.Scope.{Scope};

    ghost Value = { Scope };

    ghost view = { λ p. record { config = p.config.items; pre = p.pre.items; timers = p.timers.items; post = p.post.items; assertions = p.assertions.items; listeners = p.listeners.items } };
}

/// What a controller does next.
#[derive(Clone, Copy, PartialEq, Eq, Debug)]
pub enum Turn {
    /// It runs a child: the place of the child, from 0, among its children that are controllers or samplers.
    Child(u16),
    /// A new round begins.
    Round,
    /// The pass is over.
    Over,
}
