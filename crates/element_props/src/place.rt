// The path of a property.

ghost use Rattle.std.specs.Prelude.{◌≡◌, IfOk};
ghost use Rattle.element_props.specs.Props.{prop_at};

use jm_base::{M, Text};
use plan_json::Path;
use std::alloc::Global;

/// The path of the property of this name, of the element at these places.
pub fn prop_path(alloc: Global, places: &[u64], name: &str) -> M<Path>
    ensures { IfOk result (λ p. p ≡ prop_at places.now name.now) }
{
    Ok(Path {
        places: Vec::from_slice(alloc, places)?,
        prop: Some(Text::new(alloc, name.as_bytes())?),
    })
}
