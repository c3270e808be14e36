// The law that every text has one reading.

ghost use Rattle.std.specs.Prelude.{◌≡◌, List, ℕ};
ghost use Rattle.template_text.specs.Pieces.{Pieces, spelling};
ghost use Rattle.template_text.specs.TemplateGrammar.{IsReadingOf};
ghost use Rattle.template_text.specs.Scan.{reading};

/// The law of templates: every text has a reading, it has no second one, and its reading is spelled as the text.
pub fn one_reading()
    ensures exists { (s : List ℕ) → (ps : Pieces) × IsReadingOf s ps }
    ensures only { (s : List ℕ) (ps qs : Pieces) → IsReadingOf s ps → IsReadingOf s qs → ps ≡ qs }
    ensures spelled { (s : List ℕ) (ps : Pieces) → IsReadingOf s ps → spelling ps ≡ s }
    ensures function { (s : List ℕ) → IsReadingOf s (reading s) }
{}
