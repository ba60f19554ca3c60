// The cases of a unit at given sizes.
ghost use Rattle.std.specs.Prelude.{◌≡◌, ◌≤◌, ◌<◌, ◌∷◌, ◌++◌, [], flat_map, map, length, nat_lt, IfOk, MatchOption, OnOk, ◌⊎◌};
ghost use Rattle.std.specs.List.{list_any};
ghost use Rattle.smv_core.specs.declared.abstract_type.AbsType.{AbsType};
ghost use Rattle.smv_core.specs.FlatMeaning.{values_in};
ghost use Rattle.law_obligations.specs.Covers.{AreApart};
ghost use Rattle.law_obligations.specs.Sets.{Has, one_of_each};
ghost use Rattle.law_concrete.specs.Concrete.{sized};
ghost use Rattle.law_concrete.specs.Sizes.{cases_fault, element_count, sizes_at};
ghost use Rattle.law_problems.specs.Parts.{Refuses};
ghost use Rattle.smv_cases.specs.Slots.{classes_of};
ghost use Rattle.smv_reads.specs.Views.{classes_in};
ghost use Rattle.smv_concrete.specs.Subjects.{AreFew, IsSubject, cases_in, unit_of};

use crate::classes::{class_count, classes_over, value_count};
use crate::counts::product;
use crate::subjects::{Subject, undeclared};
use smv_cases::fault_at_unit;
use smv_core::abstract_type::AbsType;
use smv_core::flat::{Case, Class, Family, Param};
use smv_core::{Fault, Refusal, Seq};
use std::alloc::{AllocError, Global};

/// The most parameters that a unit may have, the most cases, and the most elements of a family.
const MOST_PARAMETERS: usize = 8;

const MOST_CASES: usize = 4096;

const MOST_ELEMENTS: usize = 256;

// A case with one class more in front.
fn put_before(alloc: Global, class: Class, behind: &Case) -> Result<Case, AllocError>
    ensures { IfOk result (λ case. case.classes ≡ class ∷ behind.now.classes) }
{
    let mut classes = Vec::new(alloc);
    classes.push(class)?;
    classes.extend_from_slice(behind.classes.as_slice())?;
    Ok(Case {
        classes: Seq::from_vec(classes),
    })
}

// Each of these cases, with this class in front.
#[tactic(auto, using(smv_mentions::proofs::Notes::noting))]
fn add_behind(
    alloc: Global,
    out: &mut Vec<Case>,
    class: Class,
    behind: &[Case],
) -> Result<(), AllocError>
    ensures { OnOk result (classes_of out.new.items ≡ classes_of out.old.items ++ map (λ classes. class ∷ classes) (classes_of behind.now)) }
{
    for case in behind {
        out.push(put_before(alloc, class, case)?)?;
    }
    Ok(())
}

// The same with each of these classes.
#[tactic(auto, using(smv_mentions::proofs::Notes::noting))]
fn add_each(
    alloc: Global,
    out: &mut Vec<Case>,
    classes: &[Class],
    behind: &[Case],
) -> Result<(), AllocError>
    ensures { OnOk result (classes_of out.new.items ≡ classes_of out.old.items ++ flat_map (λ class. map (λ more. class ∷ more) (classes_of behind.now)) classes.now) }
{
    match classes {
        [] => Ok(()),
        [class, more @ ..] => {
            add_behind(alloc, out, *class, behind)?;
            add_each(alloc, out, more, behind)
        }
    }
}

// The cases of these parameters: each has any of its classes.
fn cases_over(alloc: Global, types: &[AbsType], params: &[Param]) -> Result<Vec<Case>, AllocError>
    requires { (t : AbsType) → Has types.now t → t.named ≤ 256 }
    ensures { IfOk result (λ cases. classes_of cases.items ≡ one_of_each (map (λ q. classes_in types.now q.over) params.now)) }
{
    let mut cases = Vec::new(alloc);
    match params {
        [] => {
            cases.push(Case {
                classes: Seq::new(alloc),
            })?;
            Ok(cases)
        }
        [first, more @ ..] => {
            let behind = cases_over(alloc, types, more)?;
            let classes = classes_over(alloc, types, first.over)?;
            add_each(alloc, &mut cases, classes.as_slice(), behind.as_slice())?;
            Ok(cases)
        }
    }
}

// How many classes each of these parameters has.
fn class_counts(
    alloc: Global,
    types: &[AbsType],
    params: &[Param],
) -> Result<Vec<usize>, AllocError>
    ensures { IfOk result (λ counts. counts.items ≡ map (λ q. length (classes_in types.now q.over)) params.now) }
{
    let mut counts = Vec::new(alloc);
    for p in params {
        counts.push(class_count(types, p.over))?;
    }
    Ok(counts)
}

// The cases of these parameters; none where there are too many parameters or cases.
fn few_cases(
    alloc: Global,
    types: &[AbsType],
    params: &[Param],
) -> Result<Option<Seq<Case>>, AllocError>
    requires { (t : AbsType) → Has types.now t → t.named ≤ 256 }
    ensures { IfOk result (λ o. MatchOption o ((8 < length params.now) ⊎ (4096 < length (one_of_each (map (λ q. classes_in types.now q.over) params.now)))) (λ cases. (classes_of cases ≡ one_of_each (map (λ q. classes_in types.now q.over) params.now)) × (length params.now ≤ 8) × (length (one_of_each (map (λ q. classes_in types.now q.over) params.now)) ≤ 4096))) }
{
    if params.len() > MOST_PARAMETERS {
        return Ok(None);
    }
    let counts = class_counts(alloc, types, params)?;
    match product(MOST_CASES, counts.as_slice()) {
        None => Ok(None),
        Some(_) => {
            let cases = cases_over(alloc, types, params)?;
            Ok(Some(Seq::from_vec(cases)))
        }
    }
}

// How many values each index of a family has.
fn value_counts(alloc: Global, subject: &Subject, family: &Family) -> Result<Vec<usize>, AllocError>
    requires apart { AreApart subject.now.design.now.sets }
    requires subject { IsSubject subject.now }
    ensures { IfOk result (λ counts. counts.items ≡ map (λ t. length (values_in (sized subject.now.design.now (sizes_at subject.now.design.now.sets subject.now.sizes.now)) t)) family.now.over) }
{
    let mut counts = Vec::new(alloc);
    let indexes = family.over.as_slice();
    for over in indexes {
        counts.push(value_count(subject.design, subject.sizes, subject.types, *over))?;
    }
    Ok(counts)
}

// Whether a family has too many elements.
fn is_wide_family(alloc: Global, subject: &Subject, family: &Family) -> Result<bool, AllocError>
    requires apart { AreApart subject.now.design.now.sets }
    requires subject { IsSubject subject.now }
    ensures { IfOk result (λ wide. wide ≡ nat_lt 256 (element_count (sized subject.now.design.now (sizes_at subject.now.design.now.sets subject.now.sizes.now)) family.now)) }
{
    let counts = value_counts(alloc, subject, family)?;
    match product(MOST_ELEMENTS, counts.as_slice()) {
        None => Ok(true),
        Some(_) => Ok(false),
    }
}

// Whether some of these families has too many elements.
fn is_wide(alloc: Global, subject: &Subject, families: &[Family]) -> Result<bool, AllocError>
    requires apart { AreApart subject.now.design.now.sets }
    requires subject { IsSubject subject.now }
    ensures { IfOk result (λ wide. wide ≡ list_any (λ f. nat_lt 256 (element_count (sized subject.now.design.now (sizes_at subject.now.design.now.sets subject.now.sizes.now)) f)) families.now) }
{
    for family in families {
        let wide = is_wide_family(alloc, subject, family)?;
        if wide {
            return Ok(true);
        }
    }
    Ok(false)
}

/// The cases of a unit at given sizes, in order. Refused are: another number of sizes than there are set types without one (34, at the front of the text), and at the unit a family with more than 256 elements (35), and more than 8 parameters or 4,096 cases
/// (29). No more than 4,096 are ever made.
pub fn at_sizes(alloc: Global, subject: &Subject) -> Result<Seq<Case>, Refusal>
    requires apart { AreApart subject.now.design.now.sets }
    requires few { AreFew subject.now.design.now subject.now.sizes.now }
    requires subject { IsSubject subject.now }
    ensures cases { IfOk result (λ cases. classes_of cases ≡ cases_in subject.now) }
    ensures refuses { Refuses (cases_fault subject.now.design.now (unit_of subject.now) subject.now.sizes.now) result }
{
    if subject.sizes.len() != undeclared(subject.design.sets.as_slice()) {
        return Err(Refusal::Fault(Fault { number: 34, at: 0 }));
    }
    let wide = is_wide(alloc, subject, subject.design.families.as_slice())?;
    if wide {
        let fault = fault_at_unit(35, subject.design, subject.units, subject.leaf);
        return Err(Refusal::Fault(fault));
    }
    match few_cases(alloc, subject.types, subject.leaf.params.as_slice())? {
        Some(cases) => Ok(cases),
        None => {
            let fault = fault_at_unit(29, subject.design, subject.units, subject.leaf);
            Err(Refusal::Fault(fault))
        }
    }
}
