// The calls alone. What they promise is left out here, so that no proof above carries it along.

ghost use Rattle.std.specs.Prelude.{◌≡◌, length, IfOk};
ghost use Rattle.node_table.specs.KeptPackages.{packages_of};

use element_tree::{BuildError, Package, Plan, RegexPatterns};
use jm_base::{M, Text};
use node_table::{Links, NodeTable};
use plan_json::{Path, RawElement, TreeError};
use std::alloc::Global;

/// The tree of a plan's bytes.
pub fn read_tree(alloc: Global, bytes: &[u8]) -> Result<RawElement, TreeError> {
    plan_json::read_tree(alloc, bytes)
}

/// The plan of a tree.
pub fn build(
    alloc: Global,
    tree: &RawElement,
    patterns: &mut RegexPatterns,
) -> Result<Plan, BuildError> {
    element_tree::build(alloc, tree, patterns)
}

/// The bytes of a plan, of which the same plan is built again.
pub fn write_plan(alloc: Global, plan: &Plan) -> M<Vec<u8>> {
    element_tree::written_is_built_again();
    element_tree::write_plan(alloc, plan)
}

/// The package of the sampler with this number.
pub fn package(alloc: Global, plan: &Plan, number: u16) -> M<Package> {
    scope_resolver::package(alloc, plan, number)
}

/// The links of all elements of a plan, and how many there are alone of what they promise.
pub fn links(alloc: Global, plan: &Plan) -> M<Links>
    ensures { IfOk result (λ links. length links ≡ length plan.now.elements) }
{
    Links::of(alloc, plan)
}

/// The packages of all samplers of a plan.
pub fn node_table(alloc: Global, plan: &Plan) -> M<NodeTable>
    ensures { IfOk result (λ table. table ≡ packages_of plan.now.elements) }
{
    NodeTable::of(alloc, plan)
}

/// The text of a path.
pub fn path_text(alloc: Global, path: &Path) -> M<Text> {
    path.text(alloc)
}
