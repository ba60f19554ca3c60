// The words of which no two may have one name.
ghost use Rattle.std.specs.Prelude.{◌≡◌, [], ◌∷◌, ◌++◌, map, IfOk, OnOk};
ghost use Rattle.std.specs.List.{flat_map};
ghost use Rattle.smv_core.specs.declared.tree.Field.{out-Field};
ghost use Rattle.smv_mentions.specs.Said.{said, words_at};
ghost use Rattle.smv_mentions.specs.NameFaults as faults;

use smv_core::tree::{Field, Word};
use smv_mentions::mentions::Mention;
use smv_mentions::pieces::Piece;
use std::alloc::{AllocError, Global};

// These words more.
#[tactic(auto, using(smv_mentions::proofs::Notes::noting))]
fn add_words<'a>(out: &mut Vec<&'a Word>, words: &'a [Word]) -> Result<(), AllocError>
    ensures { OnOk result (words_at out.new.items ≡ words_at out.old.items ++ words.now) }
{
    for word in words {
        out.push(word)?;
    }
    Ok(())
}

/// The words of a list.
pub(crate) fn listed_words<'a>(
    alloc: Global,
    words: &'a [Word],
) -> Result<Vec<&'a Word>, AllocError>
    ensures { IfOk result (λ listed. words_at listed.items ≡ words.now) }
{
    let mut out = Vec::new(alloc);
    add_words(&mut out, words)?;
    Ok(out)
}

/// The names of fields.
#[tactic(auto, using(smv_mentions::proofs::Notes::noting))]
pub(crate) fn field_words<'a>(
    alloc: Global,
    fields: &'a [Field],
) -> Result<Vec<&'a Word>, AllocError>
    ensures { IfOk result (λ words. words_at words.items ≡ flat_map (λ field. (out-Field field).names) fields.now) }
{
    let mut out = Vec::new(alloc);
    for field in fields {
        add_words(&mut out, field.names.as_slice())?;
    }
    Ok(out)
}

// The word that is declared, where something is.
#[tactic(auto, using(smv_mentions::proofs::Notes::noting))]
fn add_declared<'a>(out: &mut Vec<&'a Word>, mention: &Mention<'a>) -> Result<(), AllocError>
    ensures { OnOk result (words_at out.new.items ≡ words_at out.old.items ++ faults.declared_words (said mention.now ∷ [])) }
{
    match *mention {
        Mention::Declares { word, .. } => {
            out.push(word)?;
            Ok(())
        }
        _ => Ok(()),
    }
}

/// The words that are declared.
#[tactic(auto, using(smv_mentions::proofs::Notes::noting))]
pub(crate) fn declared_words<'a>(
    alloc: Global,
    mentions: &[Mention<'a>],
) -> Result<Vec<&'a Word>, AllocError>
    ensures { IfOk result (λ words. words_at words.items ≡ flat_map (λ mention. faults.declared_words (said mention ∷ [])) mentions.now) }
{
    let mut out = Vec::new(alloc);
    for mention in mentions {
        add_declared(&mut out, mention)?;
    }
    Ok(out)
}

/// The words of the tops.
#[tactic(auto, using(smv_mentions::proofs::Notes::noting))]
pub(crate) fn top_words<'a>(
    alloc: Global,
    pieces: &[Piece<'a>],
) -> Result<Vec<&'a Word>, AllocError>
    ensures { IfOk result (λ words. words_at words.items ≡ map (λ piece. piece.word.now) pieces.now) }
{
    let mut out = Vec::new(alloc);
    for piece in pieces {
        out.push(piece.word)?;
    }
    Ok(out)
}
