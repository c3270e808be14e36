// Laws of the two formats.

ghost use Rattle.std.specs.Prelude.{◌≡◌, ℕ, List, Bool};
ghost use Rattle.http_text.specs.ResponseGrammar.{Answer, Response};
ghost use Rattle.http_text.specs.RequestText.{IsTarget, IsBadTarget};
ghost use Rattle.http_text.specs.declared.request.HttpSettings.{HttpSettings};
ghost use Rattle.http_text.specs.declared.request.Target.{Target};

/// A law: as a response, bytes come to one answer at most. So what a reader answers to bytes is the same however they were cut.
pub fn one_answer()
    ensures { (head_only : Bool) (bytes : List ℕ) (a b : Answer) → Response head_only bytes a → Response head_only bytes b → a ≡ b }
{}

/// A law: settings have one target at most, and none where they are bad.
pub fn one_target()
    ensures one { (s : HttpSettings) (t u : Target) → IsTarget s t → IsTarget s u → t ≡ u }
    ensures not_bad { (s : HttpSettings) (t : Target) → IsTarget s t → ¬ (IsBadTarget s) }
{}
