// Laws of names of monitors, each the contract of a function that does nothing.
ghost use Rattle.law_fresh_monitors.specs.Laws.{FreeNamesAreFree, PlansAreNamed, OtherNamesFit, MonitorsAreAlone, TranslatedIsExact};

/// Free names are as many as are asked for, no two the same, and none is used.
pub fn free_names_are_free()
    ensures { FreeNamesAreFree }
{}

/// Where there are enough names, each formula has one for each of its monitors.
pub fn plans_are_named()
    ensures { PlansAreNamed }
{}

/// The monitors fit a text in which none of their names stands.
pub fn other_names_fit()
    ensures { OtherNamesFit }
{}

/// No two definitions of monitors are of one path.
pub fn monitors_are_alone()
    ensures { MonitorsAreAlone }
{}

/// The theorem for the translation whose names are the first free ones.
pub fn translated_is_exact()
    ensures { TranslatedIsExact }
{}
