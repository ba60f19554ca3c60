// Laws of strengthened texts, each the contract of a function that does nothing.
ghost use Rattle.law_strengthened_texts.specs.Laws.{StrongerIsPlaced, StrongerTextIsSound, FreshIsName, FreshIsNoToken};

/// The strengthened text is the text with the replacement in place of the bytes of the claim's expression.
pub fn stronger_is_placed()
    ensures { StrongerIsPlaced }
{}

/// The strengthened text spells a tree whose soundness gives that of the text, where the claim can be proved by induction.
pub fn stronger_text_is_sound()
    ensures { StrongerTextIsSound }
{}

/// The new name is a name, and no token of the text.
pub fn fresh_is_new()
    ensures name { FreshIsName }
    ensures no_token { FreshIsNoToken }
{}
