// The rules of faults, each in one sentence.
ghost use Rattle.std.specs.Prelude.{◌≡◌, ◌<◌, [], get_or, length, map};
ghost use Rattle.smv_look_explain.specs.Rules.{rule};

// The sentence of each fault at the place of its number.
const RULES: [&[u8]; 32] = [
    b"",
    b"a byte begins no token",
    b"a number is above 511",
    b"a word has more than 64 bytes",
    b"a `/*` is not closed",
    b"after this token no text can go on",
    b"a 65th level is opened",
    b"a name or a field is not declared",
    b"a name is declared twice",
    b"there is no module `main`",
    b"a module contains itself",
    b"an instance has too many or too few arguments",
    b"kinds do not fit",
    b"a range begins above its end, or ends above 255",
    b"a set stands where none may",
    b"two assignments of one signal conflict",
    b"a signal has a value of now and `init` or `next` besides",
    b"a left side or a claim lacks the variables around it",
    b"a signal reads itself without a delay",
    b"the implementation reads an abstract signal",
    b"an abstract signal is assigned outside layers",
    b"a number meets a value of a set type, or a scalarset is compared by its order",
    b"the variable of a `for` meets a value of a set type",
    b"what is split is nothing that can be split",
    b"the names of a split do not fit",
    b"the design passes a limit",
    b"what is used, or proved, is not there",
    b"something is chosen twice",
    b"names after `prove` or in the braces of a use do not fit",
    b"a unit has too many parameters or too many cases",
    b"a case has more than 1,024 state bits",
    b"the text has more than 1,048,576 bytes",
];

// The text at a place.
#[tactic(auto, using(crate::proofs::Texts::get_or_map))]
fn text_at<'a>(texts: &[&'a [u8]], place: u8) -> &'a [u8]
    requires { place < length texts.now }
    ensures { result.now ≡ get_or (map (λ text. text.now) texts.now) place [] }
{
    texts[usize::from(place)]
}

/// The sentence of a fault, by its number.
#[tactic(auto, using(crate::proofs::Texts::past))]
pub(crate) fn rule(number: u8) -> &'static [u8]
    ensures { result.now ≡ rule number }
{
    if number < 32 {
        text_at(&RULES, number)
    } else {
        b""
    }
}
