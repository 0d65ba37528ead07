// What a file of attributes answers, by the text that it is.
ghost use Rattle.std.specs.Prelude.{◌≡◌, ℕ, List, Ok, Err, None, Some};
ghost use Rattle.ae_text.specs.Tree.{Node};
ghost use Rattle.ae_text.specs.Grammar.{Reads};
ghost use Rattle.ae_text.specs.Wrong.{IsError};
ghost use Rattle.ae_types.specs.declared.project.Attributes.{Attributes};
ghost use Rattle.ae_types.specs.declared.change.ChangeAttributes.{ChangeAttributes};
ghost use Rattle.ae_conf.specs.Fields.{fields_in, first_wrong};
ghost use Rattle.ae_conf.specs.Project.{project_kinds, given_project, project_attributes};
ghost use Rattle.ae_conf.specs.Change.{change_kinds, given_change, change_attributes};

/// A file of a project's attributes answers what its fields give, the line of the first wrong field, or that of the first
/// wrong token of what is no text.
pub fn note_project_attributes()
    ensures given { (bytes : List ℕ) (old : Attributes) (tree : Node) (lines : List ℕ) → Reads bytes tree lines
        → first_wrong project_kinds (fields_in tree) lines ≡ None → project_attributes bytes old ≡ Ok (given_project (fields_in tree) old) }
    ensures wrong_field { (bytes : List ℕ) (old : Attributes) (tree : Node) (lines : List ℕ) (line : ℕ) → Reads bytes tree lines
        → first_wrong project_kinds (fields_in tree) lines ≡ Some line → project_attributes bytes old ≡ Err line }
    ensures no_text { (bytes : List ℕ) (old : Attributes) (line : ℕ) → IsError bytes line → project_attributes bytes old ≡ Err line }
{}

/// A file of a change's attributes answers what its fields give, the line of the first wrong field, or that of the first
/// wrong token of what is no text.
pub fn note_change_attributes()
    ensures given { (bytes : List ℕ) (old : ChangeAttributes) (tree : Node) (lines : List ℕ) → Reads bytes tree lines
        → first_wrong change_kinds (fields_in tree) lines ≡ None → change_attributes bytes old ≡ Ok (given_change (fields_in tree) old) }
    ensures wrong_field { (bytes : List ℕ) (old : ChangeAttributes) (tree : Node) (lines : List ℕ) (line : ℕ) → Reads bytes tree lines
        → first_wrong change_kinds (fields_in tree) lines ≡ Some line → change_attributes bytes old ≡ Err line }
    ensures no_text { (bytes : List ℕ) (old : ChangeAttributes) (line : ℕ) → IsError bytes line → change_attributes bytes old ≡ Err line }
{}
