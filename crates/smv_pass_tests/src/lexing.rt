//! What texts are, by tokens that a person wrote down.

use smv_core::Refusal;
use smv_core::token::{Token, TokenKind};
use smv_lex::tokens;
use std::alloc::{AllocError, Global};
use std::test::Fail;

// A token in a few letters: a name as `n3` by its length, a number as `512`, a sign or a word by its place.
fn shown(alloc: Global, token: &Token) -> Result<String, AllocError> {
    match &token.kind {
        TokenKind::Ident(name) => {
            let name = String::from_utf8_lossy(alloc, name.as_bytes())?;
            format!(in alloc; "{name}@{} ", token.at)
        }
        TokenKind::Number(value) => format!(in alloc; "{value}@{} ", token.at),
        TokenKind::Sign(place) => format!(in alloc; "s{place}@{} ", token.at),
        TokenKind::Reserved(place) => format!(in alloc; "w{place}@{} ", token.at),
    }
}

fn shown_text(alloc: Global, text: &[u8]) -> Result<String, Refusal> {
    if text.len() > 100_000 {
        return Ok(String::new(alloc));
    }
    match tokens(alloc, text) {
        Ok(tokens) => {
            let mut out = String::new(alloc);
            for token in tokens.as_slice() {
                let word = shown(alloc, token)?;
                out.push_str(word.as_str())?;
            }
            Ok(out)
        }
        Err(Refusal::Fault(fault)) => Ok(format!(in alloc;
            "fault {} at {}",
            fault.number, fault.at
        )?),
        Err(Refusal::OutOfMemory) => Err(Refusal::OutOfMemory),
    }
}

const TEXTS: &[(&'static [u8], &'static str)] = &[
    (b"", ""),
    (b" \t\r\n", ""),
    (b"12ab", "12@0 ab@2 "),
    (b"1..2", "1@0 s10@1 2@3 "),
    (b"...", "s10@0 s9@2 "),
    (b"x-->y", "x@0 "),
    (b"-->y\nz", "z@5 "),
    (b"x<--y\n-z", "x@0 s14@1 s19@6 z@7 "),
    (b"a<->b", "a@0 s24@1 b@4 "),
    (b"<-", "s14@0 s19@1 "),
    (b"<=->>=", "s15@0 s23@2 s17@4 "),
    (b":===~==~", "s11@0 s12@2 s12@3 s13@4 s12@6 s20@7 "),
    (b"a//b", "a@0 s26@1 b@3 "),
    (b"//*", "fault 1 at 2"),
    (b"///", "fault 1 at 2"),
    (b"/", "fault 1 at 0"),
    (b"/*/", "fault 4 at 0"),
    (b"/*/ */x", "x@6 "),
    (b"/**/x", "x@4 "),
    (b"/***/x", "x@5 "),
    (b"a /* */ b */", "fault 1 at 10"),
    (b"/* -- */x", "x@8 "),
    (b"-- /*\nx", "x@6 "),
    (b"-- x\ry", ""),
    (b"--", ""),
    (b"a /* b", "fault 4 at 2"),
    (b"00511", "511@0 "),
    (b"512", "fault 2 at 0"),
    (b" 0512", "fault 2 at 1"),
    (b"99999999999999999999999999", "fault 2 at 0"),
    (b"0", "0@0 "),
    (b"ab\x80", "fault 1 at 2"),
    (b"/* \x80\xff */a", "a@8 "),
    (b"-- \x80\xff\na", "a@6 "),
    (b"_ F_ Fx F", "_@0 F_@2 Fx@5 w6@8 "),
    (b"for forall fora", "w7@0 w8@4 fora@11 "),
    (b"@ /*", "fault 1 at 0"),
    (b"x\x0b", "fault 1 at 1"),
];

// Fails with the tokens of the first text that has others.
fn all_are_shown(alloc: Global, rows: &[(&'static [u8], &'static str)]) -> Result<(), Fail> {
    for (text, tokens) in rows {
        if shown_text(alloc, text)?.as_str() != *tokens {
            return Err(Fail::new(*tokens));
        }
    }
    Ok(())
}

#[test]
fn worked_texts(rt: HostRuntime) -> Result<(), Fail> {
    all_are_shown(rt.alloc(), TEXTS)
}

// So many of a byte, and then a text.
fn repeated(alloc: Global, byte: u8, count: u8, end: &str) -> Result<Vec<u8>, AllocError> {
    let mut text = Vec::new(alloc);
    for _ in 0..count {
        text.push(byte)?;
    }
    text.extend_from_slice(end.as_bytes())?;
    Ok(text)
}

// Whether the tokens of so many of a byte, and then a text, end so.
fn ends_so(alloc: Global, byte: u8, count: u8, end: &str, last: &str) -> Result<bool, Refusal> {
    let text = repeated(alloc, byte, count, end)?;
    let shown = shown_text(alloc, text.as_slice())?;
    Ok(shown.as_str().ends_with(last))
}

// A byte, how often it stands there, what stands behind, and how the tokens end.
type Length = (u8, u8, &'static str, &'static str);

const LENGTHS: &[Length] = &[
    (b'n', 63, " ;", "s7@64 "),
    (b'n', 64, ";", "s7@64 "),
    (b'0', 200, "7", "7@0 "),
    (b'0', 200, "512", "fault 2 at 0"),
    (b'n', 65, ";", "fault 3 at 0"),
    (b' ', 9, "@", "fault 1 at 9"),
];

// Fails with the end of the first tokens that end otherwise.
fn all_end_so(alloc: Global, rows: &[Length]) -> Result<(), Fail> {
    for (byte, count, end, last) in rows {
        if !ends_so(alloc, *byte, *count, end, last)? {
            return Err(Fail::new(*last));
        }
    }
    Ok(())
}

#[test]
fn lengths(rt: HostRuntime) -> Result<(), Fail> {
    all_end_so(rt.alloc(), LENGTHS)
}
