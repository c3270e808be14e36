// Where in a plan something is.

ghost use Rattle.std.specs.Prelude.{◌≡◌, ◌++◌, IfOk, OnOk, codes};
ghost use Rattle.std.specs.Fmt.{decimal};
ghost use Rattle.plan_json.specs.Place.{path_text, steps_text, prop_text};

use itoa::Buffer;
use jm_base::{M, Text};
use std::alloc::Global;
use std::fmt;
use std::marker::Model;

/// Where a fault is: an element, or one of its properties.
#[derive(Drop)]
pub struct Path {
    /// The steps down from the root, each the place of a child among its parent's `children` as they are written,
    /// counted from 0. The root has none.
    pub places: Vec<u64>,
    /// The property at fault, where it is one.
    pub prop: Option<Text>,
}

impl Model for Path {
    ghost use Rattle.plan_json.specs.Place.{Place};

    ghost Value = { Place };

    ghost view = { λ p. record { places = p.places.items; prop = p.prop } };
}

// Appends a step to the child at this place.
fn push_step(out: &mut Vec<u8>, place: u64) -> M<()>
    ensures { OnOk result (out.new.items ≡ out.old.items ++ (codes "/children/" ++ decimal place)) }
{
    let mut digits = Buffer::new();
    out.extend_from_slice(b"/children/")?;
    out.extend_from_slice(digits.format(place).as_bytes())?;
    Ok(())
}

// Appends the steps to these places.
fn push_steps(out: &mut Vec<u8>, places: &[u64]) -> M<()>
    ensures { OnOk result (out.new.items ≡ out.old.items ++ steps_text places.now) }
{
    for place in places {
        push_step(out, *place)?;
    }
    Ok(())
}

// Appends the property.
fn push_prop(out: &mut Vec<u8>, prop: &Option<Text>) -> M<()>
    ensures { OnOk result (out.new.items ≡ out.old.items ++ prop_text prop.now) }
{
    if let Some(name) = prop {
        out.extend_from_slice(b"/props/")?;
        out.extend_from_slice(name.bytes())?;
    }
    Ok(())
}

impl Path {
    /// The path as it is printed: `/children/I` for each step, then `/props/NAME` for a property. The root is `/`.
    pub fn text(&self, alloc: Global) -> M<Text>
        ensures { IfOk result (λ text. text ≡ path_text self.now) }
    {
        if self.places.is_empty() && self.prop.is_none() {
            return Text::new(alloc, b"/");
        }
        let mut out = Vec::new(alloc);
        push_steps(&mut out, &self.places)?;
        push_prop(&mut out, &self.prop)?;
        Ok(Text::of(out))
    }
}

/// As [`Path::text`], with one replacement character for a property whose name is not UTF-8.
impl fmt::Display for Path {
    fn fmt<W: fmt::Write>(&self, f: &mut fmt::Formatter<W>) -> fmt::Result {
        if self.places.is_empty() && self.prop.is_none() {
            return write!(f, "/");
        }
        for place in &self.places {
            write!(f, "/children/{place}")?;
        }
        match &self.prop {
            Some(name) => match std::str::from_utf8(name.bytes()) {
                Ok(name) => write!(f, "/props/{name}"),
                Err(_) => write!(f, "/props/\u{fffd}"),
            },
            None => Ok(()),
        }
    }
}

impl fmt::Debug for Path {
    fn fmt<W: fmt::Write>(&self, f: &mut fmt::Formatter<W>) -> fmt::Result {
        write!(f, "{self}")
    }
}
