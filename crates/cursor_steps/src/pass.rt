// The children that a controller runs, and how many of them were run in this pass.

ghost use Rattle.std.specs.Prelude.{◌≡◌, ◌+◌, ◌<◌, ◌≤◌, MatchOption};
ghost use Rattle.std.specs.List.{count_by};
ghost use Rattle.cursor_steps.specs.RunningChildren.{is_run_class, is_run_at, run_count, pass_over, none_left, after_child};

use element_tree::{Class, Element, Plan};

/// A pass over the children that are controllers or samplers. Children of the other classes do not count.
#[derive(Clone, Copy)]
pub struct Pass {
    /// How many children there are.
    pub children: u16,
    /// The place of the next one, from 0.
    pub next: u16,
}

impl Pass {
    /// Before the first child.
    pub fn over(children: u16) -> Pass
        ensures { result ≡ pass_over children }
    {
        Pass { children, next: 0 }
    }

    /// After the last child.
    pub fn none_left(children: u16) -> Pass
        ensures { result ≡ none_left children }
    {
        Pass {
            children,
            next: children,
        }
    }

    /// The place of the next child. The pass then stands after it.
    pub fn take_child(&mut self) -> u16
        requires { self.old.next < self.old.children }
        ensures place { result ≡ self.old.next }
        ensures moved { self.new ≡ after_child self.old }
    {
        let place = self.next;
        self.next += 1;
        place
    }

    /// The place of the next child, where one is left. The pass then stands after it.
    pub fn next_child(&mut self) -> Option<u16>
        ensures { MatchOption result ((self.old.children ≤ self.old.next) × (self.new ≡ self.old))
            (λ place. (place ≡ self.old.next) × (place < self.old.children) × (self.new ≡ after_child self.old)) }
    {
        if self.next < self.children {
            Some(self.take_child())
        } else {
            None
        }
    }
}

/// Whether elements of the class are run by a controller.
fn is_run_class(class: Class) -> bool
    ensures { result ≡ is_run_class class }
{
    matches!(class, Class::Controller | Class::Sampler)
}

/// Whether the element of this number is run by a controller.
pub fn is_run_at(plan: &Plan, number: u16) -> bool
    ensures { result ≡ is_run_at plan.now.elements number }
{
    match plan.element(number) {
        Some(element) => is_run_class(element.kind.element_type().class()),
        None => false,
    }
}

/// How many children of the element are run.
fn count_runs(plan: &Plan, element: &Element) -> usize
    ensures { result ≡ count_by (is_run_at plan.now.elements) element.now.children }
{
    element
        .children
        .as_slice()
        .iter()
        .filter(|child| is_run_at(plan, **child))
        .count()
}

/// How many children of the element are run, in 16 bits, which the children of no plan fill.
pub fn run_count(plan: &Plan, element: &Element) -> u16
    ensures { result ≡ run_count plan.now.elements element.now }
{
    count_runs(plan, element).min(65535) as u16
}
