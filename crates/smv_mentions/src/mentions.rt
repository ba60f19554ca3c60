// What a text says about names, collected from its tree.
ghost use Rattle.std.specs.Prelude.{◌≡◌, [], ◌∷◌, ◌++◌, map, flat_map, OnOk, IfOk};
ghost use Rattle.smv_core.specs.declared.tree.Field.{out-Field};
ghost use Rattle.smv_mentions.specs.Mentions as spec;
ghost use Rattle.smv_mentions.specs.Mentions.{in_type, binder_in};
ghost use Rattle.smv_mentions.specs.Said.{said, words_at};

use smv_core::name::Name;
use smv_core::tree::{Field, Part, Role, TypeExpr, Word};
use std::alloc::{AllocError, Global};

/// What a name of a module is.
#[derive(Clone, Copy)]
pub enum What<'a> {
    /// A signal of a role and a type.
    Signal { role: Role, of: &'a TypeExpr },
    /// An instance of a module.
    Instance { module: &'a Word },
    /// A claim or a split.
    Goal,
}

/// One thing that is said about names.
#[derive(Clone, Copy)]
pub enum Mention<'a> {
    /// The module's own name is this.
    Declares {
        word: &'a Word,
        what: What<'a>,
    },
    /// A variable is bound; and where a variable around it of the same name is first bound.
    Binds {
        around: Option<u32>,
        var: &'a Word,
    },
    /// A path is read or assigned; and where a variable around it of its first name is first bound.
    Follows {
        around: Option<u32>,
        parts: &'a [Part],
    },
    /// A type is named.
    NamesType {
        word: &'a Word,
    },
    /// An enumeration lists these constants.
    ListsConstants {
        names: &'a [Word],
    },
    /// A struct has these fields.
    HasFields {
        fields: &'a [Field],
    },
    /// A module has an instance, with so many arguments.
    Instantiates {
        module: &'a Word,
        args: usize,
    },
}

// A type.
#[cycle(types)]
#[tactic(auto, using(crate::proofs::TypeLaws::equations, crate::proofs::Notes::noting))]
pub fn type_of<'a>(out: &mut Vec<Mention<'a>>, x: &'a TypeExpr) -> Result<(), AllocError>
    ensures { OnOk result (map said out.new.items ≡ map said out.old.items ++ in_type x.now) }
{
    match x {
        TypeExpr::Boolean => Ok(()),
        TypeExpr::Range { .. } => Ok(()),
        TypeExpr::Enum { names, .. } => note(
            out,
            Mention::ListsConstants {
                names: names.as_slice(),
            },
        ),
        TypeExpr::Named { name, .. } => note(out, Mention::NamesType { word: name }),
        TypeExpr::Array { index, of } => {
            type_of(out, index.get())?;
            type_of(out, of.get())
        }
        TypeExpr::Struct { fields } => {
            let fields = fields.as_slice();
            note(out, Mention::HasFields { fields })?;
            field_types(out, fields)
        }
    }
}

#[cycle(types)]
#[tactic(auto, using(crate::proofs::Notes::noting))]
fn field_types<'a>(out: &mut Vec<Mention<'a>>, fields: &'a [Field]) -> Result<(), AllocError>
    ensures { OnOk result (map said out.new.items ≡ map said out.old.items ++ flat_map (λ field. in_type (out-Field field).of) fields.now) }
{
    for field in fields {
        type_of(out, &field.of)?;
    }
    Ok(())
}

// One thing that is said.
#[tactic(auto, using(crate::proofs::Notes::noting))]
pub fn note<'a>(out: &mut Vec<Mention<'a>>, mention: Mention<'a>) -> Result<(), AllocError>
    ensures { OnOk result (map said out.new.items ≡ map said out.old.items ++ said mention.entry ∷ []) }
{
    out.push(mention)?;
    Ok(())
}

// These variables and one more inside them.
#[tactic(auto, using(crate::proofs::Notes::noting))]
pub fn inside<'a>(
    alloc: Global,
    vars: &[&'a Word],
    var: &'a Word,
) -> Result<Vec<&'a Word>, AllocError>
    ensures { IfOk result (λ inner. words_at inner.items ≡ words_at vars.now ++ var.now ∷ []) }
{
    let mut inner = Vec::from_slice(alloc, vars)?;
    inner.push(var)?;
    Ok(inner)
}

// Where a variable of this name is bound first, among these variables.
pub(crate) fn bound_at(vars: &[&Word], name: &Name) -> Option<u32>
    ensures { result ≡ spec.bound_at (words_at vars.now) name.now }
{
    match vars {
        [] => None,
        [var, more @ ..] => {
            let later = bound_at(more, name);
            if var.name == *name {
                Some(first_place(var.at, later))
            } else {
                later
            }
        }
    }
}

fn first_place(at: u32, other: Option<u32>) -> u32
    ensures { result ≡ spec.first_place at other }
{
    match other {
        None => at,
        Some(other) => at.min(other),
    }
}

// A variable that is bound inside these.
#[tactic(auto, using(crate::proofs::Notes::noting))]
pub fn binder<'a>(
    out: &mut Vec<Mention<'a>>,
    vars: &[&'a Word],
    var: &'a Word,
) -> Result<(), AllocError>
    ensures { OnOk result (map said out.new.items ≡ map said out.old.items ++ binder_in (words_at vars.now) var.now ∷ []) }
{
    let around = bound_at(vars, &var.name);
    note(out, Mention::Binds { around, var })
}

// A variable that is bound over the values of a type inside these.
#[tactic(auto, using(crate::proofs::Notes::noting))]
pub(crate) fn binder_over<'a>(
    out: &mut Vec<Mention<'a>>,
    vars: &[&'a Word],
    var: &'a Word,
    over: &'a TypeExpr,
) -> Result<(), AllocError>
    ensures { OnOk result (map said out.new.items ≡ map said out.old.items ++ (binder_in (words_at vars.now) var.now ∷ in_type over.now)) }
{
    binder(out, vars, var)?;
    type_of(out, over)
}
