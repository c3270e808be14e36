// Properties by their names.

ghost use Rattle.std.specs.Prelude.{◌≡◌};
ghost use Rattle.element_props.specs.NamedProps.{◌holds◌, value_as};

use crate::prop::Prop;
use std::marker::Model;

/// A property: its name and its value.
#[derive(Drop)]
pub struct NamedProp {
    name: &'static str,
    value: Prop,
}

impl Model for NamedProp {
    ghost use Rattle.element_props.specs.NamedProps.{NamedValue};
    ghost use Rattle.std.specs.Coded.{codes};
    ghost use Rattle.template_text.specs.Code.{pieces_code};

    ghost Value = { NamedValue };

    ghost coded = { Prim.hlevel (codes, pieces_code) };

    ghost view = { λ p. record { name = p.name.now; value = p.value } };
}

impl NamedProp {
    /// The property of this name that has this value.
    pub fn of(name: &'static str, value: Prop) -> NamedProp
        ensures { result ≡ (name.now holds value) }
    {
        NamedProp { name, value }
    }

    /// The value, where the property has this name.
    pub fn value_as(self, name: &str) -> Prop
        ensures { result ≡ value_as name.now self }
    {
        if self.name == name {
            self.value
        } else {
            Prop::Absent
        }
    }

    /// The name.
    pub fn name(&self) -> &'static str
        ensures { result.now ≡ self.now.name }
    {
        self.name
    }

    /// The value.
    pub fn value(&self) -> &Prop
        ensures { result.now ≡ self.now.value }
    {
        &self.value
    }
}
