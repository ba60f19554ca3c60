// Lists of names, and lists of names as keys.
ghost use Rattle.std.specs.Prelude.{◌≡◌, [], ◌∷◌, ◌++◌, IfOk};
ghost use Rattle.smv_core.specs.Types.{names_of};
ghost use Rattle.smv_flatten_families.specs.Paths.{path_of};

use crate::places::Names;
use smv_copies::copy_name;
use smv_core::name::Name;
use smv_core::seq::Seq;
use smv_core::tree::Word;
use std::alloc::{AllocError, Global};

/// The names of words once more.
#[tactic(auto, using(smv_mentions::proofs::Notes::noting))]
pub(crate) fn copied_names(alloc: Global, words: &[Word]) -> Result<Seq<Name>, AllocError>
    ensures { IfOk result (λ names. names ≡ names_of words.now) }
{
    let mut names = Seq::new(alloc);
    for word in words {
        let name = copy_name(alloc, &word.name)?;
        names.push(name)?;
    }
    Ok(names)
}

/// The names of words as a key.
#[tactic(auto, using(smv_mentions::proofs::Notes::noting))]
pub(crate) fn key_of_words<'a>(alloc: Global, words: &'a [Word]) -> Result<Names<'a>, AllocError>
    ensures { IfOk result (λ names. names ≡ names_of words.now) }
{
    let mut names = Vec::new(alloc);
    for word in words {
        names.push(&word.name)?;
    }
    Ok(Names::from_vec(names))
}

/// The names that lead somewhere, and one more.
#[tactic(auto, using(smv_mentions::proofs::Notes::noting))]
pub fn longer<'a>(
    alloc: Global,
    here: &[&'a Name],
    name: &'a Name,
) -> Result<Vec<&'a Name>, AllocError>
    ensures { IfOk result (λ names. path_of names.items ≡ path_of here.now ++ name.now ∷ []) }
{
    let mut names = Vec::from_slice(alloc, here)?;
    names.push(name)?;
    Ok(names)
}
