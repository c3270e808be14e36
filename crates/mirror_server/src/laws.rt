// The law of the format.

ghost use Rattle.std.specs.Prelude.{◌≡◌, ℕ, List};
ghost use Rattle.mirror_server.specs.RequestGrammar.{Answer, Asks};

/// A law: as a request, bytes come to one answer at most. So what is answered to bytes is the same however they were cut.
pub fn one_answer()
    ensures { (bytes : List ℕ) (a b : Answer) → Asks bytes a → Asks bytes b → a ≡ b }
{}
