// The texts of a result line.

ghost use Rattle.std.specs.Prelude.{map, ◌∷◌, [], ◌++◌, ◌≡◌};
ghost use Rattle.output_lines.specs.Lines.{truth};

use jm_base::Sample;
use std::marker::Model;

/// The texts from the label to the failure message.
#[derive(Drop)]
pub(crate) struct Middle<'a> {
    label: &'a [u8],
    code: &'a [u8],
    message: &'a [u8],
    name: &'a [u8],
    success: &'a [u8],
    failure: &'a [u8],
}

impl<'a> Model for Middle<'a> {
    ghost use Rattle.std.specs.Prelude.{ℕ, List, [], ◌∷◌};

    ghost Value = { List (List ℕ) };

    ghost view = { λ m. m.label.now ∷ m.code.now ∷ m.message.now ∷ m.name.now ∷ m.success.now ∷ m.failure.now ∷ [] };
}

impl<'a> Middle<'a> {
    /// Of a sample under this label, with the text of its code, of a thread of this name.
    pub(crate) fn of(
        label: &'a [u8],
        name: &'a [u8],
        code: &'a [u8],
        sample: &'a Sample,
    ) -> Middle<'a>
        ensures { result ≡ label.now ∷ code.now ∷ sample.now.message ∷ name.now ∷ truth sample.now.ok ∷ sample.now.failure ∷ [] }
    {
        Middle {
            label,
            code,
            message: sample.message.bytes(),
            name,
            success: truth(sample.ok),
            failure: sample.failure.bytes(),
        }
    }

    /// The texts in their order.
    pub(crate) fn fields(&self) -> [&'a [u8]; 6]
        ensures { map (λ f. f.now) result ≡ self.now }
    {
        [
            self.label,
            self.code,
            self.message,
            self.name,
            self.success,
            self.failure,
        ]
    }
}

/// The texts of a whole line.
#[derive(Drop)]
pub(crate) struct SampleTexts<'a> {
    pub stamp: &'a [u8],
    pub elapsed: &'a [u8],
    pub middle: Middle<'a>,
    pub bytes: &'a [u8],
    pub interval: &'a [u8],
}

impl<'a> SampleTexts<'a> {
    /// The texts in their order.
    pub(crate) fn fields(&self) -> [&'a [u8]; 10]
        ensures { map (λ f. f.now) result ≡ self.now.stamp.now ∷ self.now.elapsed.now ∷ (self.now.middle ++ self.now.bytes.now ∷ self.now.interval.now ∷ []) }
    {
        let [label, code, message, name, success, failure] = self.middle.fields();
        [
            self.stamp,
            self.elapsed,
            label,
            code,
            message,
            name,
            success,
            failure,
            self.bytes,
            self.interval,
        ]
    }
}

fn truth(ok: bool) -> &'static [u8]
    ensures { result.now ≡ truth ok }
{
    if ok { b"true" } else { b"false" }
}
