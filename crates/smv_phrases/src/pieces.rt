// Pieces, each behind a blank.
ghost use Rattle.std.specs.Prelude.{◌≡◌, ◌++◌, ◌∷◌, [], flat_map, map, codes, OnOk};
ghost use Rattle.law_translated_texts.specs.Translation.{spaced};
ghost use Rattle.law_translated_texts.specs.Phrases as phrases;

use std::alloc::AllocError;

/// One piece more.
pub fn piece(out: &mut Vec<u8>, bytes: &[u8]) -> Result<(), AllocError>
    ensures { OnOk result (out.new.items ≡ out.old.items ++ (codes " " ++ bytes.now)) }
{
    out.push(b' ')?;
    out.extend_from_slice(bytes)?;
    Ok(())
}

/// Pieces that are known, with a blank before each.
pub fn known(out: &mut Vec<u8>, bytes: &[u8]) -> Result<(), AllocError>
    ensures { OnOk result (out.new.items ≡ out.old.items ++ bytes.now) }
{
    out.extend_from_slice(bytes)?;
    Ok(())
}

/// A condition or an expression in parentheses.
pub fn whole(out: &mut Vec<u8>, bytes: &[u8]) -> Result<(), AllocError>
    ensures { OnOk result (out.new.items ≡ out.old.items ++ spaced (phrases.whole bytes.now)) }
{
    known(out, b" (")?;
    piece(out, bytes)?;
    known(out, b" )")
}

/// That a condition is not out: `~ ( ( c ) = 0 )`.
pub fn lasting(out: &mut Vec<u8>, condition: &[u8]) -> Result<(), AllocError>
    ensures { OnOk result (out.new.items ≡ out.old.items ++ spaced (phrases.lasting condition.now)) }
{
    known(out, b" ~ (")?;
    whole(out, condition)?;
    known(out, b" = 0 )")
}
