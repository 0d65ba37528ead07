// What holds of the texts of change sets.
ghost use Rattle.std.specs.Prelude.{◌≡◌, ◌≤◌, ◌++◌, [], ℕ, List, length};
ghost use Rattle.ae_bundle.specs.declared.bundle.Bundle.{Bundle};
ghost use Rattle.ae_bundle.specs.Bundled.{Bundled, most_text_bytes};

/// A text is that of one change set, no text begins another, and none is longer than the limit.
pub fn note_texts()
    ensures one { (bytes : List ℕ) (bundle other : Bundle) →
        Bundled bytes bundle → Bundled bytes other → bundle ≡ other }
    ensures no_prefix { (bytes more : List ℕ) (bundle other : Bundle) →
        Bundled bytes bundle → Bundled (bytes ++ more) other → more ≡ [] }
    ensures bounded { (bytes : List ℕ) (bundle : Bundle) →
        Bundled bytes bundle → length bytes ≤ most_text_bytes }
{}
