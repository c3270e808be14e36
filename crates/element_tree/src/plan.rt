// A plan, which contracts see as its version and the list of its elements.

ghost use Rattle.std.specs.Prelude.{◌≡◌, ◌<◌, ◌≤◌, ◌*◌, ◌↔◌, length, slice_get, IfOk, IfSome, IsTrue, position, Some};
ghost use Rattle.std.specs.Option.{option_copied};
ghost use Rattle.element_tree.specs.Names.{labels_of, locks_of, label_of, lock_of, lock_name};
ghost use Rattle.element_tree.specs.Tree.{Tree, IsPlan, IsGroup, threads_of, group_of, thread_name_of, asks_a_server, IsWellKept};
ghost use Rattle.element_tree.specs.Threads.{thread_text};

use crate::kinds::{Element, Kind};
use crate::threads::Thread;
use jm_base::{Items, M, Text};
use std::alloc::Global;
use std::marker::Model;

/// The most samples that all threads of a plan may have together.
const SAMPLE_LIMIT: u64 = 4_194_304;

/// A plan that was accepted: its elements, numbered from 0 in tree order. The root is element 0.
pub struct Plan {
    version: u8,
    elements: Vec<Element>,
    labels: Items<Text>,
    label_numbers: Items<u16>,
    locks: Items<Text>,
    lock_numbers: Items<u16>,
    threads: Items<Thread>,
}

// Written out, so that other crates let a plan go by one call.
impl Drop for Plan {
    fn drop(self) {
        let Self {
            version: _,
            elements: _elements,
            labels: _labels,
            label_numbers: _label_numbers,
            locks: _locks,
            lock_numbers: _lock_numbers,
            threads: _threads,
        } = self;
    }
}

impl Model for Plan {
    ghost use Rattle.element_tree.specs.Tree.{Tree, IsWellKept};
    ghost use Rattle.std.specs.Coded.{codes};
    ghost use Rattle.template_text.specs.Code.{pieces_code};

    ghost Value = { Tree };

    ghost coded = { Prim.hlevel (codes, pieces_code) };

    ghost view = { λ p. record { version = p.version; elements = p.elements.items } };

    ghost invariant = { λ p. IsWellKept (record { version = p.version; elements = p.elements.items }) p.labels p.label_numbers p.locks p.lock_numbers p.threads };
}

/// What is kept beside the elements of a plan, to be looked up.
#[derive(Drop)]
pub(crate) struct Tables {
    pub labels: Items<Text>,
    pub label_numbers: Items<u16>,
    pub locks: Items<Text>,
    pub lock_numbers: Items<u16>,
    pub threads: Items<Thread>,
}

// Whether the element is an HTTP request that has no replies of its own.
fn asks_a_server(element: &Element) -> bool
    ensures { result ≡ asks_a_server element.now }
{
    matches!(&element.kind, Kind::Http { replies: None, .. })
}

// The place of the first of them.
fn first_asking(elements: &[Element]) -> Option<usize>
    ensures place { result ≡ position asks_a_server elements.now }
    ensures within { IfSome result (λ place. place < length elements.now) }
{
    elements.iter().position(|element| asks_a_server(element))
}

// The name of a thread of a group of this name.
fn thread_text(alloc: Global, name: &Text, thread: Thread) -> M<Text>
    ensures { IfOk result (λ text. text ≡ thread_text name.now thread) }
{
    let number = format!(in alloc; " {}-{}", thread.group, thread.number)?;
    let mut text = Vec::from_slice(alloc, name.bytes())?;
    text.extend_from_slice(number.as_bytes())?;
    Ok(Text::of(text))
}

impl Plan {
    /// The plan of these elements, with what is looked up beside them.
    pub(crate) fn of(version: u8, elements: Vec<Element>, tables: Tables) -> Plan
        requires { IsWellKept (record { version = version; elements = elements.items }) tables.labels tables.label_numbers tables.locks tables.lock_numbers tables.threads }
        ensures { result ≡ record { version = version; elements = elements.items } }
    {
        Plan {
            version,
            elements,
            labels: tables.labels,
            label_numbers: tables.label_numbers,
            locks: tables.locks,
            lock_numbers: tables.lock_numbers,
            threads: tables.threads,
        }
    }

    /// The version of the plan's format.
    pub fn version(&self) -> u8
        ensures { result ≡ self.now.version }
    {
        self.version
    }

    /// The element of this number.
    pub fn element(&self, number: u16) -> Option<&Element>
        ensures { option_copied result ≡ slice_get self.now.elements number }
    {
        self.elements.get(usize::from(number))
    }

    /// All elements, by their numbers.
    pub fn elements(&self) -> &[Element]
        ensures elements { result.now ≡ self.now.elements }
        ensures plan { IsPlan self.now }
    {
        &self.elements
    }

    /// How many threads the plan's groups have together, 1 to 64.
    pub fn threads(&self) -> u16
        ensures count { result ≡ length (threads_of self.now) }
        ensures plan { IsPlan self.now }
    {
        self.threads.as_slice().len() as u16
    }

    /// A thread's group, and its number in the group. Threads are numbered from 0, over all groups in tree order.
    pub fn thread(&self, thread: u16) -> Thread
        requires { thread < length (threads_of self.now) }
        ensures thread { slice_get (threads_of self.now) thread ≡ Some result }
        ensures group { IsGroup self.now.elements result.element }
    {
        self.threads.as_slice()[usize::from(thread)]
    }

    /// The number of the element of the thread group that a thread belongs to. Threads are numbered from 0, over all groups in tree order.
    pub fn group_of(&self, thread: u16) -> u16
        requires { thread < length (threads_of self.now) }
        ensures number { result ≡ group_of self.now thread }
        ensures group { IsGroup self.now.elements result }
    {
        let found = self.thread(thread);
        found.element
    }

    /// How many labels the plan has, at most 256. A label is the name of a sampler or a transaction, and equal names are one label.
    pub fn labels(&self) -> u16
        ensures { result ≡ length (labels_of self.now.elements) }
    {
        self.labels.as_slice().len() as u16
    }

    /// The text of a label. Labels are numbered from 0, in order of first appearance.
    pub fn label_text(&self, label: u16) -> &Text
        requires { label < length (labels_of self.now.elements) }
        ensures { slice_get (labels_of self.now.elements) label ≡ Some result.now }
    {
        &self.labels.as_slice()[usize::from(label)]
    }

    /// The number of the label of an element that gives samples.
    pub fn label_of(&self, number: u16) -> u16
        requires { number < length self.now.elements }
        ensures { IfSome (slice_get self.now.elements number) (λ e. result ≡ label_of self.now.elements e.name) }
    {
        self.label_numbers.as_slice()[usize::from(number)]
    }

    /// How many locks the plan has, at most 256. Critical sections whose lock has the same name have one lock.
    pub fn locks(&self) -> u16
        ensures { result ≡ length (locks_of self.now.elements) }
    {
        self.locks.as_slice().len() as u16
    }

    /// The number of the lock of a critical section. Locks are numbered from 0, in order of first appearance.
    pub fn lock_of(&self, number: u16) -> u16
        requires { number < length self.now.elements }
        ensures { IfSome (slice_get self.now.elements number) (λ e. IfSome (lock_name e) (λ lock. result ≡ lock_of self.now.elements lock)) }
    {
        self.lock_numbers.as_slice()[usize::from(number)]
    }

    /// The name of a thread: the name of its group, a space, the group's number, `-`, and the thread's number in the group.
    /// Groups are numbered from 1, and so are the threads of a group.
    pub fn thread_name(&self, alloc: Global, thread: u16) -> M<Text>
        requires { thread < length (threads_of self.now) }
        ensures { IfOk result (λ name. name ≡ thread_name_of self.now thread) }
    {
        let found = self.thread(thread);
        let Some(group) = self.elements.get(usize::from(found.element)) else {
            unreachable!();
        };
        let name = thread_text(alloc, &group.name, found)?;
        Ok(name)
    }

    /// Whether all threads together stay within 4,194,304 samples where each has this budget.
    pub fn samples_fit(&self, budget: u32) -> bool
        ensures { IsTrue result ↔ (length (threads_of self.now) * budget ≤ SAMPLE_LIMIT) }
    {
        u64::from(self.threads()) * u64::from(budget) <= SAMPLE_LIMIT
    }

    /// The number of the first HTTP request, in tree order, that has no replies of its own.
    pub fn without_replies(&self) -> Option<u16>
        ensures { result ≡ position asks_a_server self.now.elements }
    {
        match first_asking(&self.elements) {
            Some(place) => Some(place as u16),
            None => None,
        }
    }
}
