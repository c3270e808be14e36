// The first field of result lines.

ghost use Rattle.std.specs.Prelude.{◌≡◌, ◌<◌, ◌^◌, ◌++◌, ◌∷◌, [], None, Some, OnOk, OnErr, IfSome};
ghost use Rattle.std.specs.Fmt.{decimal};
ghost use Rattle.csv.specs.Writing.{comma};
ghost use Rattle.output_lines.specs.Bulk.{BeginsWith};

use itoa::Buffer;
use jm_base::M;
use std::alloc::Global;
use std::marker::Model;

/// The first field of a line and the comma after it, kept from the second line of one stamp on: many samples have the stamp of
/// the one before them, and where each has another one, nothing is kept.
///
/// Contracts see the stamp whose field is kept, or none.
#[derive(Drop)]
pub struct StampField {
    // The stamp of the last line.
    last: Option<u64>,
    kept: Option<u64>,
    text: Vec<u8>,
}

impl Model for StampField {
    ghost use Rattle.std.specs.Prelude.{◌≡◌, ◌++◌, ◌∷◌, ℕ, [], Option, IfSome};
    ghost use Rattle.std.specs.Fmt.{decimal};
    ghost use Rattle.csv.specs.Writing.{comma};

    ghost Value = { Option ℕ };

    ghost view = { λ f. f.kept };

    ghost invariant = { λ f. IfSome f.kept (λ s. f.text.items ≡ decimal s ++ comma ∷ []) };
}

impl StampField {
    /// Keeps no field yet.
    pub fn new(alloc: Global) -> StampField
        ensures { result ≡ None }
    {
        StampField {
            last: None,
            kept: None,
            text: Vec::new(alloc),
        }
    }

    /// Appends the field of a line's stamp and the comma. Out of memory a part of them is there.
    pub fn append(&mut self, out: &mut Vec<u8>, stamp: u64) -> M<()>
        ensures ok { OnOk result (out.new.items ≡ out.old.items ++ (decimal stamp ++ comma ∷ [])) }
        ensures err { OnErr result (BeginsWith out.old.items out.new.items) }
        ensures number { stamp < 2 ^ 64 }
    {
        if self.last != Some(stamp) {
            self.last = Some(stamp);
            return push_field(out, Buffer::new().format(stamp).as_bytes());
        }
        if self.kept != Some(stamp) {
            self.keep(stamp)?;
        }
        out.extend_from_slice(&self.text)?;
        Ok(())
    }

    // Keeps the field of a stamp. Out of memory none is kept.
    fn keep(&mut self, stamp: u64) -> M<()>
        ensures ok { OnOk result (self.new ≡ Some stamp) }
        ensures err { OnErr result (self.new ≡ None) }
    {
        self.kept = None;
        self.text.clear();
        push_field(&mut self.text, Buffer::new().format(stamp).as_bytes())?;
        self.kept = Some(stamp);
        Ok(())
    }
}

/// Appends a field that needs no quotes, or has them, and the comma after it. Out of memory a part of them is there.
pub fn push_field(out: &mut Vec<u8>, field: &[u8]) -> M<()>
    ensures ok { OnOk result (out.new.items ≡ out.old.items ++ (field.now ++ comma ∷ [])) }
    ensures err { OnErr result (BeginsWith out.old.items out.new.items) }
{
    out.extend_from_slice(field)?;
    out.push(b',')?;
    Ok(())
}
