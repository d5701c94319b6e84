//! The lists of units of two programs, compared, and the Errors of a unit.
ghost use Rattle.std.specs.Prelude.{◌≡◌, ◌==◌, ℕ, List, [], ◌∷◌, length, map, max, slice_get, Bool, Option, Some, None};
ghost use Rattle.scheme_model.specs.declared.Occ.{Occ as AnyOcc};
ghost use Rattle.scheme_model.specs.IncludedUnits.{Placed};
ghost use Rattle.scheme_model.specs.Program.{UnitResult, Program as ModelProgram};
ghost use Rattle.scheme_model.specs.Requirements.{LibraryName};
ghost use Rattle.rename_model.specs.SameProgram.{kind_number, listed_stretches, error_stretch};
ghost use Rattle.syntax_tree.specs.Names.{Names};
ghost use Rattle.syntax_tree.specs.declared.trees.Work.{Work};
ghost use Rattle.core_tree.specs.Units.{kind_as, error_as, unit_errors, UnitsStand};
ghost use Rattle.program_differences.specs.Apart.{FindsFirst};
ghost use Rattle.program_differences.specs.Listed.{same_name, listed_alike, first_unlike as model_unlike, alike_in, AreAlike, forms_of, least_among, least_or, TellsApart, AreDistinct};

use alpha_equal::points::{Pair, SHAPE, Shown, Spot, Told};
use core_tree::units::{Unit, UnitError};
use ls_base::Text;
use syntax_tree::texts::same_text;
use syntax_tree::units::UnitKind;

/// Two points that don't agree, with the form of a unit that they stand in.
#[derive(Clone, Copy)]
pub struct Apart<'a> {
    pub unit: usize,
    pub form: usize,
    pub pair: Pair<'a>,
}

/// Two points of the shape.
const SHAPES: Pair<'static> = Pair {
    old: SHAPE,
    new: SHAPE,
};

// ---- the lists

/// Whether two names of libraries are the same, or there are none.
fn is_same_name(old: &Option<Text>, new: &Option<Text>) -> bool
    ensures { result ≡ same_name old.now new.now }
{
    match old {
        None => new.is_none(),
        Some(name) => match new {
            None => false,
            Some(other) => same_text(name.as_str(), other.as_str()),
        },
    }
}

/// The number by which a kind of units is told from the others.
fn kind_number(kind: UnitKind) -> u8
    ensures { result ≡ kind_number (kind_as kind) }
{
    match kind {
        UnitKind::Library => 0,
        UnitKind::Program => 1,
        UnitKind::Part => 2,
    }
}

/// Whether two kinds of units are the same.
fn is_same_kind(old: UnitKind, new: UnitKind) -> bool
    ensures { result ≡ (kind_number (kind_as old) == kind_number (kind_as new)) }
{
    kind_number(old) == kind_number(new)
}

/// Whether two units are the same in their lists: document, kind, number of forms and name.
fn is_listed_alike(old: &Unit, new: &Unit) -> bool
    ensures { result ≡ listed_alike old.now new.now }
{
    same_text(old.uri.as_str(), new.uri.as_str())
        && is_same_kind(old.kind, new.kind)
        && old.forms.as_slice().len() == new.forms.as_slice().len()
        && is_same_name(&old.name, &new.name)
}

/// Whether a unit is the same as the one at a place of a list, where there is one.
fn is_alike_at(unit: &Unit, units: &[Unit], place: usize) -> bool
    ensures { result ≡ alike_in unit.now (slice_get units.now place) }
{
    if place >= units.len() {
        return false;
    }
    is_listed_alike(unit, &units[place])
}

/// The first place at which two lists of units differ.
fn first_unlike(old: &[Unit], new: &[Unit]) -> Option<usize>
    ensures { result ≡ model_unlike 0 old.now new.now }
{
    for place in 0..old.len() {
        if !is_alike_at(&old[place], new, place) {
            return Some(place);
        }
    }
    if new.len() > old.len() {
        return Some(old.len());
    }
    None
}

/// The first two units of two lists that differ in them.
pub fn listed_apart<'a>(old: &[Unit], new: &[Unit]) -> Option<Apart<'a>>
    ensures first { (work : Work) (text : LibraryName → List ℕ) (uris : List (List ℕ)) (before after : List Placed) (p q : ModelProgram) (live : Option AnyOcc → Bool) →
        TellsApart text p q → AreDistinct uris → UnitsStand work text uris before p 0 old.now p.units → UnitsStand work text uris after q 0 new.now q.units →
        FindsFirst work.symbols live (listed_stretches p q 0 (max (length p.units) (length q.units))) result }
    ensures alike { result ≡ None → AreAlike old.now new.now }
{
    match first_unlike(old, new) {
        None => None,
        Some(unit) => Some(Apart {
            unit,
            form: 0,
            pair: SHAPES,
        }),
    }
}

// ---- Errors

/// The lesser of a form and one that was found before.
fn lesser(least: Option<u32>, form: u32) -> u32
    ensures { Some result ≡ least_or least (form ∷ []) }
{
    match least {
        None => form,
        Some(other) => {
            if other <= form {
                return other;
            }
            form
        }
    }
}

/// The least form with an Error.
fn least_form(errors: &[UnitError]) -> Option<u32>
    ensures { result ≡ least_among (forms_of errors.now) }
{
    let mut least = None;
    for error in errors {
        least = Some(lesser(least, error.form));
    }
    least
}

/// A unit that has an Error in the new program.
pub fn error_apart<'a>(unit: usize, errors: &[UnitError]) -> Option<Apart<'a>>
    ensures { (names : Names) (live : Option AnyOcc → Bool) (r : UnitResult) → map error_as errors.now ≡ unit_errors r →
        FindsFirst names live (error_stretch unit (Some r) ∷ []) result }
{
    match least_form(errors) {
        None => None,
        Some(form) => {
            let told = Told {
                spot: Spot::Errors,
                occ: None,
                shown: Shown::Nothing,
            };
            Some(Apart {
                unit,
                form: form as usize,
                pair: Pair {
                    old: told,
                    new: told,
                },
            })
        }
    }
}
