// Properties that are written and read again.

ghost use Rattle.element_props.specs.Again.{ReadsAgain};

/// A law: what is written of an element's properties is read again as these properties, by the rows of any table in which names
/// are apart and each property that another one looks at has its form and its default. It does nothing.
pub fn written_is_read_again()
    ensures { ReadsAgain }
{}
