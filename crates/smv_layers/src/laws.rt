// A law of base definitions, the contract of a function that does nothing.
ghost use Rattle.smv_core.specs.declared.flat.Design.{Design};
ghost use Rattle.smv_layers.specs.OneBase.{AreApart, AreInLayers, BasesAgree};

/// Where no definition outside layers is of an abstract signal and two definitions of one family at one place are one, the definitions that the order without loops
/// takes as base definitions are those that units take. Elsewhere they differ: units let a definition outside layers be the base definition of an abstract
/// signal, and of several at one place only the first.
pub fn base_definitions_agree()
    ensures { (d : Design) → AreInLayers d → AreApart d → BasesAgree d }
{}
