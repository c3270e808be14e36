// The header fields of an HTTP sampler, merged by their names.

ghost use Rattle.std.specs.Prelude.{◌≡◌, [], IfOk, OnOk};
ghost use Rattle.http_settings.specs.RequestSettings.{headers_in, headers_at, set_field, set_fields, merged, merged_headers, pairs_seen, fields_seen};

use element_props::Pair;
use element_tree::{Kind, Plan};
use jm_base::M;
use std::alloc::Global;
use std::collections::BTreeMap;

fn headers_in(kind: &Kind) -> &[Pair]
    ensures { result.now ≡ headers_in kind.now }
{
    match kind {
        Kind::HeaderManager { headers } => headers.as_slice(),
        _ => &[],
    }
}

fn headers_at(plan: &Plan, number: u16) -> &[Pair]
    ensures { result.now ≡ headers_at plan.now.elements number }
{
    match plan.element(number) {
        Some(element) => headers_in(&element.kind),
        None => &[],
    }
}

// Sets a field, in place of one of its name.
fn set_field<'p>(alloc: Global, pair: &'p Pair, fields: &mut BTreeMap<Vec<u8>, &'p Pair>) -> M<()>
    ensures { OnOk result (fields_seen fields.new.entries ≡ set_field (fields_seen fields.old.entries) pair.now) }
{
    let name = pair.name.bytes().to_ascii_lowercase(alloc)?;
    fields.insert(name, pair)?;
    Ok(())
}

fn set_fields<'p>(
    alloc: Global,
    pairs: &'p [Pair],
    fields: &mut BTreeMap<Vec<u8>, &'p Pair>,
) -> M<()>
    ensures { OnOk result (fields_seen fields.new.entries ≡ set_fields (fields_seen fields.old.entries) pairs.now) }
{
    'pairs: for pair in pairs {
        set_field(alloc, pair, fields)?;
    }
    Ok(())
}

// The fields that these elements set, by their names in lower case.
fn merge<'p>(alloc: Global, plan: &'p Plan, config: &[u16]) -> M<BTreeMap<Vec<u8>, &'p Pair>>
    ensures { IfOk result (λ fields. fields_seen fields.entries ≡ merged plan.now.elements config.now) }
{
    let mut fields = BTreeMap::new(alloc);
    'numbers: for number in config {
        set_fields(alloc, headers_at(plan, *number), &mut fields)?;
    }
    Ok(fields)
}

/// The header fields of a sampler with these configuration elements, in the order of their names in lower case.
pub(crate) fn merged_headers<'p>(alloc: Global, plan: &'p Plan, config: &[u16]) -> M<Vec<&'p Pair>>
    ensures { IfOk result (λ v. pairs_seen v.items ≡ merged_headers plan.now.elements config.now) }
{
    let fields = merge(alloc, plan, config)?;
    let mut pairs = Vec::new(alloc);
    'fields: for pair in fields.values() {
        pairs.push(*pair)?;
    }
    Ok(pairs)
}
