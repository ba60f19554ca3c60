// Single tokens are written, each with the blank or the LF behind it.
ghost use Rattle.std.specs.Prelude.{◌≡◌, ◌<◌, ◌++◌, [], OnOk, length, map, get_or};
ghost use Rattle.smv_core.specs.declared.token.TokenKind.TheVariants.{Ident, Number, Sign, Reserved};
ghost use Rattle.smv_print.specs.Written.{bytes_of, gap, spaced};

use itoa::Buffer;
use smv_core::signs::{RESERVED, SEMICOLON, SIGNS};
use smv_core::tree::Word;
use std::alloc::AllocError;

#[tactic(auto, unfolding(crate::specs::Written::spaced))]
pub fn sign(out: &mut Vec<u8>, sign: u8) -> Result<(), AllocError>
    requires { sign < 27 }
    ensures { OnOk result (out.new.items ≡ out.old.items ++ spaced (Sign sign)) }
{
    out.extend_from_slice(sign_bytes(sign))?;
    out.push(gap(sign))?;
    Ok(())
}

fn sign_bytes(sign: u8) -> &'static [u8]
    requires { sign < 27 }
    ensures { result.now ≡ bytes_of (Sign sign) }
{
    text_at(&SIGNS, sign)
}

fn reserved_bytes(word: u8) -> &'static [u8]
    requires { word < 33 }
    ensures { result.now ≡ bytes_of (Reserved word) }
{
    text_at(&RESERVED, word)
}

#[tactic(auto, using(crate::proofs::Writing::get_or_map))]
fn text_at<'a>(texts: &[&'a [u8]], place: u8) -> &'a [u8]
    requires { place < length texts.now }
    ensures { result.now ≡ get_or (map (λ text. text.now) texts.now) place [] }
{
    texts[usize::from(place)]
}

// What stands behind a sign.
fn gap(sign: u8) -> u8
    ensures { result ≡ gap (Sign sign) }
{
    if sign == SEMICOLON { b'\n' } else { b' ' }
}

#[tactic(auto, unfolding(crate::specs::Written::spaced))]
pub fn reserved(out: &mut Vec<u8>, word: u8) -> Result<(), AllocError>
    requires { word < 33 }
    ensures { OnOk result (out.new.items ≡ out.old.items ++ spaced (Reserved word)) }
{
    out.extend_from_slice(reserved_bytes(word))?;
    out.push(b' ')?;
    Ok(())
}

#[tactic(auto, unfolding(crate::specs::Written::spaced))]
pub fn name(out: &mut Vec<u8>, word: &Word) -> Result<(), AllocError>
    ensures { OnOk result (out.new.items ≡ out.old.items ++ spaced (Ident word.now.name)) }
{
    out.extend_from_slice(word.name.as_bytes())?;
    out.push(b' ')?;
    Ok(())
}

#[tactic(auto, unfolding(crate::specs::Written::spaced))]
pub fn number(out: &mut Vec<u8>, value: u16) -> Result<(), AllocError>
    ensures { OnOk result (out.new.items ≡ out.old.items ++ spaced (Number value)) }
{
    let mut buffer = Buffer::new();
    out.extend_from_slice(buffer.format(value).as_bytes())?;
    out.push(b' ')?;
    Ok(())
}
