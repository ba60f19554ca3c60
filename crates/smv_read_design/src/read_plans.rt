// Laws of texts that are read, each the contract of a function that does nothing.
ghost use Rattle.smv_read_design.specs.ReadPlanLaws.{WidthsAreLast, ReadTextsAreFaultless, PlansAreOfTexts, PlansOfValidTextsAreChecked, PlansOfValidTextsAreWhole, ProvedValidTextsAreSound};

use law_valid_texts::parts_of_texts::plans_are_whole;
use law_valid_texts::plans_of_texts::{
    plans_are_checked, proved_plans_are_sound, valid_texts_are_faultless,
};

/// The first fault of a text is that of the passes up to cases, or else that of the first case with too many state bits.
pub fn widths_are_last()
    ensures { WidthsAreLast }
{}

/// A text that is spelled and has no fault of the passes up to cases is as the laws of plans ask.
pub fn read_texts_are_faultless()
    ensures { ReadTextsAreFaultless }
{}

/// The plan of a text's design is one of the text, with the choices that `using` states.
pub fn plans_are_of_texts()
    ensures { PlansAreOfTexts }
{}

/// So the script of the plan of a valid text is as the soundness of the search asks, and the text is sound where no case of a leaf of the plan has a violating path.
pub fn plans_of_valid_texts_are_checked()
    ensures checked { PlansOfValidTextsAreChecked }
    ensures sound { ProvedValidTextsAreSound }
{
    valid_texts_are_faultless();
    plans_are_of_texts();
    plans_are_checked();
    proved_plans_are_sound();
}

/// And it is ready to be decided: its leaves are such as the calls on a leaf take, each that of the unit at its place, and each has room.
pub fn plans_of_valid_texts_are_whole()
    ensures { PlansOfValidTextsAreWhole }
{
    valid_texts_are_faultless();
    plans_are_of_texts();
    plans_are_whole();
}
