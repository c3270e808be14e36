// Text that is written.

ghost use Rattle.std.specs.Prelude.{◌≡◌, ◌++◌, OnOk, OnErr, decimal};

use itoa::Buffer;
use jm_base::M;

/// Adds bytes.
pub fn add(out: &mut Vec<u8>, bytes: &[u8]) -> M<()>
    ensures adds { OnOk result (out.new.items ≡ out.old.items ++ bytes.now) }

    // Out of memory leaves the text as it was.
    ensures memory { OnErr result (out.new.items ≡ out.old.items) }
{
    out.extend_from_slice(bytes)?;
    Ok(())
}

/// Adds a number in decimal.
pub fn add_decimal(out: &mut Vec<u8>, number: usize) -> M<()>
    ensures adds { OnOk result (out.new.items ≡ out.old.items ++ decimal number) }

    // Out of memory leaves the text as it was.
    ensures memory { OnErr result (out.new.items ≡ out.old.items) }
{
    let mut digits = Buffer::new();
    add(out, digits.format(number).as_bytes())
}
