// A plan that is written and built again.

ghost use Rattle.element_tree.specs.Rebuilt.{BuiltAgain};

use element_props::written_is_read_again;

/// A law: the tree that is written for a plan is built as that plan again, wherever the plan was built of JSON. It does nothing.
pub fn written_is_built_again()
    ensures { BuiltAgain }
{
    written_is_read_again();
}
