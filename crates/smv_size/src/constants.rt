// How many constants of all enumerations are different, up to a limit.
ghost use Rattle.std.specs.Prelude.{◌≡◌, ℕ, ◌+◌, [], ◌∷◌, map, length, min, nat_lt, OnOk, IfOk};
ghost use Rattle.smv_core.specs.Types.{names_of};
ghost use Rattle.smv_mentions.specs.Said.{AreNoted, said};
ghost use Rattle.smv_mentions.specs.Sizes.{count_different, constant_names};
ghost use Rattle.smv_size.specs.Constants.{Counts, constants_said};

use name_index::NameIndex;
use smv_core::name::Name;
use smv_core::tree::{Text, Word};
use smv_mentions::mentions::Mention;
use smv_mentions::pieces::Piece;
use std::alloc::{AllocError, Global};

// The constants that a text may have.
const MOST: usize = 4096;

/// Whether a text has too many constants.
pub(crate) fn too_many_constants(
    alloc: Global,
    text: &Text,
    pieces: &[Piece],
) -> Result<bool, AllocError>
    requires { AreNoted pieces.now text.now }
    ensures { IfOk result (λ many. many ≡ nat_lt 4096 (count_different [] (constant_names text.now))) }
{
    let _ = text;
    let mut names = NameIndex::new(alloc);
    let mut total = 0;
    for piece in pieces {
        in_mentions(&mut names, &mut total, piece.mentions.as_slice())?;
    }
    Ok(total > MOST)
}

// The constants of what a top says.
fn in_mentions<'a>(
    names: &mut NameIndex<'a>,
    total: &mut usize,
    mentions: &[Mention<'a>],
) -> Result<(), AllocError>
    requires { total.old ≡ min 4097 (length names.old) }
    ensures total { OnOk result (total.new ≡ min 4097 (length names.new)) }
    ensures names { OnOk result (Counts (constants_said (map said mentions.now)) names.old names.new) }
{
    for mention in mentions {
        in_mention(names, total, mention)?;
    }
    Ok(())
}

// The constants of a mention, if it lists any.
fn in_mention<'a>(
    names: &mut NameIndex<'a>,
    total: &mut usize,
    mention: &Mention<'a>,
) -> Result<(), AllocError>
    requires { total.old ≡ min 4097 (length names.old) }
    ensures total { OnOk result (total.new ≡ min 4097 (length names.new)) }
    ensures names { OnOk result (Counts (constants_said (said mention.now ∷ [])) names.old names.new) }
{
    match mention {
        Mention::ListsConstants { names: words } => in_words(names, total, words),
        _ => Ok(()),
    }
}

// The constants of a list.
fn in_words<'a>(
    names: &mut NameIndex<'a>,
    total: &mut usize,
    words: &'a [Word],
) -> Result<(), AllocError>
    requires { total.old ≡ min 4097 (length names.old) }
    ensures total { OnOk result (total.new ≡ min 4097 (length names.new)) }
    ensures names { OnOk result (Counts (names_of words.now) names.old names.new) }
{
    for word in words {
        note(names, total, &word.name)?;
    }
    Ok(())
}

// One constant more, unless it was there before.
fn note<'a>(names: &mut NameIndex<'a>, total: &mut usize, name: &'a Name) -> Result<(), AllocError>
    requires { total.old ≡ min 4097 (length names.old) }
    ensures total { OnOk result (total.new ≡ min 4097 (length names.new)) }
    ensures names { OnOk result (Counts (name.now ∷ []) names.old names.new) }
{
    match names.find(name) {
        Some(_) => Ok(()),
        None => {
            names.push(name)?;
            *total = one_more(*total);
            Ok(())
        }
    }
}

fn one_more(total: usize) -> usize
    ensures { (n : ℕ) → total ≡ min 4097 n → result ≡ min 4097 (n + 1) }
{
    if total <= MOST { total + 1 } else { total }
}
