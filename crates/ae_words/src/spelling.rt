// How a word spells a pattern.
ghost use Rattle.std.specs.Prelude.{◌≡◌, ◌↔◌, IsTrue};
ghost use Rattle.ae_words.specs.Spelling.{spells, Matches};

/// Whether the word spells the pattern; after a cut, with the small letters at the pattern's front passed over.
#[tactic(auto, unfolding(crate::specs::Spelling::spells))]
pub(crate) fn spells_from(is_cut: bool, pattern: &[u8], word: &[u8]) -> bool
    ensures { result ≡ spells is_cut pattern.now word.now }
{
    match pattern {
        [] => word.is_empty(),
        [c, pattern @ ..] => {
            if c.is_ascii_lowercase() {
                if is_cut {
                    return spells_from(true, pattern, word);
                }
                if let [b, word @ ..] = word {
                    if b.to_ascii_lowercase() == *c && spells_from(false, pattern, word) {
                        return true;
                    }
                }
                spells_from(true, pattern, word)
            } else if *c == b'_' {
                if let [b, word @ ..] = word {
                    if (*b == b'_' || *b == b'-') && spells_from(false, pattern, word) {
                        return true;
                    }
                }
                spells_from(false, pattern, word)
            } else {
                match word {
                    [] => false,
                    [b, word @ ..] => {
                        b.eq_ignore_ascii_case(c) && spells_from(false, pattern, word)
                    }
                }
            }
        }
    }
}

/// Whether the word spells the pattern: of the pattern's letters a capital must be there, of each run of small ones a
/// front, perhaps an empty one; an underscore is there as `_` or `-` or not at all. The word's letters count alike in
/// either case. It tries each way that fits, so a pattern is meant to be short.
pub fn matches_option(pattern: &[u8], word: &[u8]) -> bool
    ensures { IsTrue result ↔ Matches pattern.now word.now }
{
    spells_from(false, pattern, word)
}
