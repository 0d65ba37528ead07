// What is so of generated texts, whatever their size and the number that they are drawn from.
ghost use Rattle.ae_generated.specs.Generated.{AreScripts, HoldNoTests};

/// Laws: each line of a generated text is understood, and passes no limit; none of them is a test.
pub fn generated_texts_are_scripts()
    ensures scripts { AreScripts }
    ensures no_tests { HoldNoTests }
{}
