// Laws of a text and its translation, each the contract of a function that does nothing.
ghost use Rattle.law_formula_trees.specs.Trees.{TypesAreKept, FamiliesAreKept, StatementsAreKept, LayerIsPlaced, MonitorsArePlaced, LayersDefine, TranslationsExtend, PlacedFormulasAreClaims, ClaimsArePlaced, ClaimsAreTranslated, ClaimsMeanFormulas, PlansAreOfFormulas, MapsMeanTheSame, TranslationIsExact};

/// The type names of a translation stand for what they stood for.
pub fn types_are_kept()
    ensures { TypesAreKept }
{}

/// Without those of fresh names the families of a translation are those of the text.
pub fn families_are_kept()
    ensures { FamiliesAreKept }
{}

/// Without those of the layer the statements of a translation are those of the text.
pub fn statements_are_kept()
    ensures { StatementsAreKept }
{}

/// The statements of the layer of a translation are the definitions of the monitors in each instance.
pub fn layer_is_placed()
    ensures { LayerIsPlaced }
{}

/// The families of fresh names of a translation are the monitors in each instance.
pub fn monitors_are_placed()
    ensures { MonitorsArePlaced }
{}

/// A layer of placed definitions gives a monitor 0 at first, and then what its definition allows in the state before.
pub fn layers_define()
    ensures { LayersDefine }
{}

/// The design of a translation is that of the text with monitors.
pub fn translations_extend()
    ensures { TranslationsExtend }
{}

/// A placed formula holds at each time of each run of a text exactly where its claim does in the translation.
pub fn placed_formulas_are_claims()
    ensures { PlacedFormulasAreClaims }
{}

/// Each claim whose formula is watched is that of a placed formula.
pub fn claims_are_placed()
    ensures { ClaimsArePlaced }
{}

/// The claims of a translation are those of the text, with their translated bodies.
pub fn claims_are_translated()
    ensures { ClaimsAreTranslated }
{}

/// Each formula holds in every run of a text exactly where its claim does in every run of the translation.
pub fn claims_mean_formulas()
    ensures { ClaimsMeanFormulas }
{}

/// The plan of a text is one of its formulas.
pub fn plans_are_of_formulas()
    ensures { PlansAreOfFormulas }
{}

/// A map holds in every run of a text exactly where it does in the translation.
pub fn maps_mean_the_same()
    ensures { MapsMeanTheSame }
{}

/// The theorem: a text is sound over times exactly where its translation is sound.
pub fn translation_is_exact()
    ensures { TranslationIsExact }
{}
