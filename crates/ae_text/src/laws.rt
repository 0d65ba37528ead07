// Laws of the grammar, whatever reads it.
ghost use Rattle.std.specs.Prelude.{◌≡◌, ◌⊎◌, ℕ, List};
ghost use Rattle.ae_text.specs.Tree.{Node};
ghost use Rattle.ae_text.specs.Grammar.{Reads};
ghost use Rattle.ae_text.specs.Wrong.{IsSyntax, IsTooDeep, IsError, OpensOneTooMany};

/// One text has at most one tree, and its fields stand in the same lines.
pub fn one_tree()
    ensures tree { (bytes : List ℕ) (tree other : Node) (lines others : List ℕ) → Reads bytes tree lines → Reads bytes other others → tree ≡ other }
    ensures lines { (bytes : List ℕ) (tree other : Node) (lines others : List ℕ) → Reads bytes tree lines → Reads bytes other others → lines ≡ others }
{}

/// Every text is in the grammar or has an error line, and never both.
pub fn every_text()
    ensures one { (bytes : List ℕ) → ((tree : Node) × (lines : List ℕ) × Reads bytes tree lines) ⊎ ((line : ℕ) × IsError bytes line) }
    ensures never_both { (bytes : List ℕ) (tree : Node) (lines : List ℕ) (line : ℕ) → Reads bytes tree lines → IsError bytes line → ⊥ }
{}

/// A text has at most one error line, and one kind of error.
pub fn one_line()
    ensures line { (bytes : List ℕ) (line other : ℕ) → IsError bytes line → IsError bytes other → line ≡ other }
    ensures kind { (bytes : List ℕ) (line other : ℕ) → IsSyntax bytes line → IsTooDeep bytes other → ⊥ }
{}

/// A text is too deep only where its first wrong token opens a list or structure inside 16 others.
pub fn one_too_many()
    ensures { (bytes : List ℕ) (line : ℕ) → IsTooDeep bytes line → OpensOneTooMany bytes line }
{}
