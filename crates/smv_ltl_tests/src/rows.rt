//! `TEXTS` has texts that are translated, with the places of their bytes, `REFUSED` such that are not.

use smv_core::Refusal;
use smv_ltl::translate;
use std::alloc::{AllocError, Global};
use std::test::Fail;

// Bytes that belong to one place, or of which each belongs to its own, from this place on.
#[derive(Clone, Copy)]
enum Run {
    All(u32, u32),
    Own(u32, u32),
}

use Run::{All, Own};

// The text, its translation, and to which places the bytes of the translation belong.
const TEXTS: &[(&'static str, &'static str, &'static [Run])] = &[
    (
        "module main() { x : boolean; init(x) := 0; next(x) := ~x; p : assert G if (x) X (~x); }",
        "module main() { x : boolean; init(x) := 0; next(x) := ~x; p : assert G  m0 -> ( ~x ) ;  abstract m0 : boolean ; layer m1 : { init ( m0 ) := 0 ; next ( m0 ) := 1 & ~ ( ( x ) = 0 ) ; } }",
        &[Own(0, 58), All(58, 28), Own(85, 1), All(58, 96), Own(86, 1)],
    ),
    // Two modules, a binder, a comma in a set, a comment in a part, a number that begins with 0, a claim that is not changed, and a name that is taken.
    (
        "module cell() { a : boolean; f : array 0..07 of boolean; forall (i in 0..07) p[i] : assert G if (a) X (W (f[i] in {0, 1}, a -- not\n | f[i])); q : assert G X (a); r : assert G a; } module main() { c : cell(); m0 : boolean; }",
        "module cell() { a : boolean; f : array 0..07 of boolean; forall (i in 0..07) p[i] : assert G  ( m1 [ i ] | m2 [ i ] ) -> ( ( a -- not\n | f[i] ) | ( f[i] in {0, 1} ) ) ; q : assert G  m3 -> ( a ) ; r : assert G a;  abstract m1 : array 0 .. 07 of boolean ; abstract m2 : array 0 .. 07 of boolean ; abstract m3 : boolean ; layer m4 : { forall ( i in 0 .. 07 ) init ( m1 [ i ] ) := 0 ; forall ( i in 0 .. 07 ) next ( m1 [ i ] ) := 1 & ~ ( ( a ) = 0 ) ; forall ( i in 0 .. 07 ) init ( m2 [ i ] ) := 0 ; forall ( i in 0 .. 07 ) next ( m2 [ i ] ) := ( m1 [ i ] | m2 [ i ] ) & ~ ( a -- not\n | f[i] ) ; init ( m3 ) := 0 ; next ( m3 ) := 1 ; } } module main() { c : cell(); m0 : boolean; }",
        &[
            Own(0, 77),
            All(77, 91),
            Own(141, 1),
            All(142, 27),
            Own(161, 17),
            All(77, 82),
            All(142, 24),
            All(77, 13),
            All(77, 261),
            All(142, 38),
            All(77, 3),
            Own(178, 45),
        ],
    ),
    // Conditions alone need no monitor.
    (
        "module main() { a : boolean; p : assert G if (a) if (1) a; }",
        "module main() { a : boolean; p : assert G  ( a ) -> ( 1 ) -> ( a ) ; }",
        &[Own(0, 29), All(29, 39), Own(58, 2)],
    ),
    // No formula.
    (
        "module main() { a : boolean; p : assert G a; }",
        "module main() { a : boolean; p : assert G a; }",
        &[Own(0, 46)],
    ),
];

// A text, and the fault with its offset.
const REFUSED: &[(&'static str, u8, u32)] = &[
    ("module main() { p : assert G X (1) }", 5, 35),
    ("module main() { p : assert G $; }", 1, 29),
    (
        "module main() { p : assert G X (X (X (X (X (X (X (X (X (1))))))))); }",
        37,
        53,
    ),
];

fn told(alloc: Global, text: &str) -> Result<Vec<u8>, AllocError> {
    match translate(alloc, text.as_bytes()) {
        Ok(t) => Vec::from_slice(alloc, t.text.as_slice()),
        Err(Refusal::OutOfMemory) => Vec::from_slice(alloc, b"out of memory"),
        Err(Refusal::Fault(fault)) => {
            let (number, at) = (fault.number, fault.at);
            Vec::from_slice(
                alloc,
                format!(in alloc; "fault {number} at {at}")?.as_bytes(),
            )
        }
    }
}

fn places(alloc: Global, runs: &[Run], end: u32) -> Result<Vec<u32>, AllocError> {
    let mut places = Vec::new(alloc);
    for run in runs {
        match *run {
            All(at, count) => {
                for _ in 0..count {
                    places.push(at)?;
                }
            }
            Own(at, count) => {
                for n in 0..count {
                    places.push(at.wrapping_add(n))?;
                }
            }
        }
    }
    places.push(end)?;
    Ok(places)
}

#[test]
fn texts_are_translated(rt: HostRuntime) -> Result<(), Fail> {
    let alloc = rt.alloc();
    for (n, row) in TEXTS.iter().enumerate() {
        let (text, wanted, runs) = *row;
        if told(alloc, text)?.as_slice() != wanted.as_bytes() {
            return Err(Fail::new(n));
        }
        let t = match translate(alloc, text.as_bytes()) {
            Ok(t) => t,
            Err(_) => return Err(Fail::new(n)),
        };
        let places = places(alloc, runs, text.len() as u32)?;
        if t.map.as_slice() != places.as_slice() {
            return Err(Fail::new(n));
        }
    }
    Ok(())
}

#[test]
fn texts_are_refused(rt: HostRuntime) -> Result<(), Fail> {
    let alloc = rt.alloc();
    for row in REFUSED {
        let (text, number, at) = *row;
        let wanted = format!(in alloc; "fault {number} at {at}")?;
        if told(alloc, text)?.as_slice() != wanted.as_bytes() {
            return Err(Fail::new(at));
        }
    }
    Ok(())
}
