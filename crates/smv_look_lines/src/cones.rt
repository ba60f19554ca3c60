// The lines of `cone`.
ghost use Rattle.std.specs.Prelude.{◌≡◌, ◌≤◌, ◌++◌, length, map, option_and_then, option_copied, slice_get, take, IfOk, OnOk};
ghost use Rattle.law_obligations.specs.Outlines.{unit_in};
ghost use Rattle.law_obligations.specs.Soundness.{over_of};
ghost use Rattle.law_reports.specs.Lines.{case_line};
ghost use Rattle.smv_look_lines.specs.Cones as spec;
ghost use Rattle.smv_look_lines.specs.Cones.{cone_heading, element_line, element_lines, origin_text, sort_text, target_text};
ghost use Rattle.smv_readings.specs.StateBits.{bits_of_elements};

use smv_chosen::chosen;
use smv_core::Seq;
use smv_core::abstract_type::AbsType;
use smv_core::flat::{Case, Choice, Class, Def, DefBody, Design, Element, Leaf, Simple, Unit};
use smv_elements::order::is_same;
use smv_readings::family_bits;
use smv_report_lines::{push_case, push_element, push_number};
use smv_splits::names::unit_name;
use std::alloc::{AllocError, Global};

/// A case of a leaf: its design with the units and the lengths of its enumerations, its unit, the leaf and its choice, the case with its number from 1 and how many there are, and the abstract forms of the set types.
#[derive(Clone, Copy)]
pub struct Look<'a> {
    pub design: &'a Design,
    pub units: &'a [Unit],
    pub lists: &'a [u16],
    pub unit: Unit,
    pub leaf: &'a Leaf,
    pub choice: &'a Choice,
    pub case: &'a Case,
    pub number: usize,
    pub count: usize,
    pub types: &'a [AbsType],
}

// A part of a definition says nothing.
fn says_nothing(part: &DefBody) -> bool
    ensures { result ≡ spec.says_nothing part.now }
{
    matches!(part, DefBody::Nothing)
}

// Writes whether a definition keeps a state.
fn push_sort(out: &mut Vec<u8>, def: &Def) -> Result<(), AllocError>
    ensures { OnOk result (out.new.items ≡ out.old.items ++ sort_text def.now) }
{
    if says_nothing(&def.init) && says_nothing(&def.next) {
        out.extend_from_slice(b", combinational")
    } else {
        out.extend_from_slice(b", state")
    }
}

// Writes of which layer a definition is.
fn push_layer(out: &mut Vec<u8>, design: &Design, def: &Def) -> Result<(), AllocError>
    ensures { OnOk result (out.new.items ≡ out.old.items ++ spec.layer_text (option_and_then (slice_get design.now.layers) def.now.layer)) }
{
    match def.layer {
        None => out.extend_from_slice(b"base"),
        Some(layer) => match design.layers.as_slice().get(layer as usize) {
            None => out.extend_from_slice(b"base"),
            Some(name) => {
                out.extend_from_slice(b"layer ")?;
                out.extend_from_slice(name.as_bytes())
            }
        },
    }
}

// Writes what a proof uses as the definition of an element.
fn push_origin(out: &mut Vec<u8>, design: &Design, def: Option<&Def>) -> Result<(), AllocError>
    ensures { OnOk result (out.new.items ≡ out.old.items ++ origin_text design.now (option_copied def.entry)) }
{
    match def {
        None => out.extend_from_slice(b"free"),
        Some(def) => {
            push_layer(out, design, def)?;
            push_sort(out, def)
        }
    }
}

// Writes the mark of a map's target.
fn push_target(out: &mut Vec<u8>, is_target: bool, itself: bool) -> Result<(), AllocError>
    ensures { OnOk result (out.new.items ≡ out.old.items ++ target_text is_target itself) }
{
    if !is_target {
        Ok(())
    } else if itself {
        out.extend_from_slice(b", target, own map before")
    } else {
        out.extend_from_slice(b", target")
    }
}

/// An element is the target.
pub fn is_target(target: Option<&Element>, x: &Element) -> bool
    ensures { result ≡ spec.is_target (option_copied target.entry) x.now }
{
    match target {
        None => false,
        Some(target) => is_same(target, x),
    }
}

// Writes the line of an element.
fn push_line(
    out: &mut Vec<u8>,
    look: &Look,
    target: Option<&Element>,
    x: &Element,
) -> Result<(), AllocError>
    requires { look.now.lists.now ≡ map length look.now.design.now.enums }
    ensures { OnOk result (out.new.items ≡ out.old.items ++ element_line (record { design = look.now.design.now; units = look.now.units.now }) look.now.choice.now look.now.types.now (option_copied target.entry) x.now) }
{
    let design = look.design;
    let families = design.families.as_slice();
    out.push(b' ')?;
    push_element(out, design, x)?;
    out.extend_from_slice(b": bits ")?;
    push_number(
        out,
        family_bits(families, look.lists, look.types, x.family) as usize,
    )?;
    out.extend_from_slice(b", ")?;
    push_origin(
        out,
        design,
        chosen(design, look.units, look.choice.picks.as_slice(), x.family),
    )?;
    push_target(out, is_target(target, x), look.choice.itself)?;
    out.push(b'\n')?;
    Ok(())
}

/// Writes the line of each of these elements.
pub fn push_lines(
    out: &mut Vec<u8>,
    look: &Look,
    target: Option<&Element>,
    elements: &[Element],
) -> Result<(), AllocError>
    requires { look.now.lists.now ≡ map length look.now.design.now.enums }
    ensures { OnOk result (out.new.items ≡ out.old.items ++ element_lines (record { design = look.now.design.now; units = look.now.units.now }) look.now.choice.now look.now.types.now (option_copied target.entry) elements.now) }
{
    for x in elements {
        push_line(out, look, target, x)?;
    }
    Ok(())
}

// The types of the indexes of a family.
fn indexes_of(design: &Design, family: u16) -> &[Simple]
    ensures { result.now ≡ over_of (slice_get design.now.families family) }
{
    match design.families.as_slice().get(family as usize) {
        Some(f) => f.over.as_slice(),
        None => &[],
    }
}

// So many classes from the front.
fn first_classes(classes: &[Class], count: usize) -> &[Class]
    ensures { result.now ≡ take count classes.now }
{
    &classes[..count.min(classes.len())]
}

/// The element of which a map is proved, in a case with these classes; of a claim there is none.
pub fn target_of(
    alloc: Global,
    design: &Design,
    classes: &[Class],
    unit: Unit,
) -> Result<Option<Element>, AllocError>
    ensures { IfOk result (λ target. target ≡ spec.target_of design.now classes.now (unit_in design.now unit)) }
{
    let Unit::Map { def } = unit else {
        return Ok(None);
    };
    let Some(def) = design.defs.as_slice().get(def as usize) else {
        return Ok(None);
    };
    let family = def.family;
    let own = first_classes(classes, indexes_of(design, family).len());
    let indexes = Seq::from_vec(Vec::from_slice(alloc, own)?);
    Ok(Some(Element { family, indexes }))
}

/// How many bits these elements have together. Also where the number does not fit its type, which no case within the limits has, there is an error.
pub fn total(look: &Look, elements: &[Element]) -> Result<usize, AllocError>
    ensures { IfOk result (λ bits. bits ≡ bits_of_elements look.now.design.now.families look.now.lists.now look.now.types.now elements.now) }
{
    let families = look.design.families.as_slice();
    let mut total: usize = 0;
    for x in elements {
        let bits = family_bits(families, look.lists, look.types, x.family) as usize;
        let Some(sum) = total.checked_add(bits) else {
            return Err(AllocError);
        };
        total = sum;
    }
    Ok(total)
}

// Writes the line of a case.
fn push_heading(
    out: &mut Vec<u8>,
    alloc: Global,
    look: &Look,
    bits: usize,
) -> Result<(), AllocError>
    ensures { OnOk result (out.new.items ≡ out.old.items ++ cone_heading look.now.design.now look.now.unit look.now.number look.now.count bits) }
{
    let name = unit_name(alloc, look.design, look.unit)?;
    out.extend_from_slice(name.as_bytes())?;
    out.extend_from_slice(b": case ")?;
    push_number(out, look.number)?;
    out.extend_from_slice(b" of ")?;
    push_number(out, look.count)?;
    out.extend_from_slice(b", bits ")?;
    push_number(out, bits)?;
    out.push(b'\n')?;
    Ok(())
}

/// The line that says how many cases a unit has.
pub fn count_line(
    alloc: Global,
    design: &Design,
    unit: Unit,
    count: usize,
) -> Result<Vec<u8>, AllocError>
    ensures { IfOk result (λ line. line.items ≡ spec.count_line design.now unit count) }
{
    let name = unit_name(alloc, design, unit)?;
    let mut line = Vec::from_slice(alloc, name.as_bytes())?;
    line.extend_from_slice(b": cases ")?;
    push_number(&mut line, count)?;
    line.push(b'\n')?;
    Ok(line)
}

/// The lines of `cone`: a case with the bits of its cone, and each of these elements with its bits, its definition and the mark of a map's target.
pub fn cone_lines(alloc: Global, look: &Look, elements: &[Element]) -> Result<Vec<u8>, AllocError>
    requires { look.now.lists.now ≡ map length look.now.design.now.enums }
    ensures { IfOk result (λ lines. lines.items ≡ spec.cone_lines (record { design = look.now.design.now; units = look.now.units.now }) look.now.unit look.now.leaf.now look.now.choice.now look.now.number look.now.count look.now.case.now look.now.types.now elements.now) }
{
    let mut out = Vec::new(alloc);
    let bits = total(look, elements)?;
    push_heading(&mut out, alloc, look, bits)?;
    push_case(
        &mut out,
        look.design,
        look.leaf.params.as_slice(),
        look.case,
    )?;
    let target = target_of(alloc, look.design, look.case.classes.as_slice(), look.unit)?;
    push_lines(&mut out, look, target.as_ref(), elements)?;
    Ok(out)
}
