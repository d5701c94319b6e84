//! The first place at which two programs aren't the same.
ghost use Rattle.std.specs.Prelude.{◌≡◌, ℕ, List, Bool, Option, None, IfOk};
ghost use Rattle.scheme_model.specs.declared.Occ.{Occ as AnyOcc};
ghost use Rattle.scheme_model.specs.IncludedUnits.{Placed};
ghost use Rattle.scheme_model.specs.Program.{Program as ModelProgram};
ghost use Rattle.scheme_model.specs.Cores.{Target as ModelTarget};
ghost use Rattle.scheme_model.specs.Live.{CoreLeaf, NameUse as ModelName};
ghost use Rattle.scheme_model.specs.Meaning.{Meaning as ModelMeaning};
ghost use Rattle.scheme_model.specs.Entries.{same_occ};
ghost use Rattle.scheme_model.specs.Spelling.{is_member};
ghost use Rattle.scheme_model.specs.ProgramArrows.{binder_of as model_binder};
ghost use Rattle.scheme_model.specs.Requirements.{LibraryName};
ghost use Rattle.scheme_model.specs.Substitution.{Table};
ghost use Rattle.rename_model.specs.Walks.{Shown as ModelShown};
ghost use Rattle.rename_model.specs.SameProgram.{stretches};
ghost use Rattle.rename_model.specs.Difference.{Apart as ModelApart, is_renamed, use_kind as model_use, kind_of as model_kind, side_of as model_side, meaning_side as model_meaning, binder_side as model_place, difference, difference_in, first_difference as model_difference};
ghost use Rattle.syntax_tree.specs.Meant.{IsSymbol, IsMeaning};
ghost use Rattle.core_tree.specs.Units.{ProgramStands};
ghost use Rattle.program_leaves.specs.Sights.{Sees, SeesProgram};
ghost use Rattle.program_differences.specs.Apart.{IsApart, FindsFirst};
ghost use Rattle.program_differences.specs.Both.{AreStanding, ProgramsStand, AreNumbered, AreComparable};
ghost use Rattle.alpha_equal.specs.Compared.{TellsLive};
ghost use Rattle.program_differences.specs.Differences.{plan_as, kind_number, side_as, IsDifference, AreOne};
ghost use Rattle.program_differences.specs.Exported.{changes_as, ExportsAreGiven};
ghost use Rattle.program_differences.specs.Listed.{TellsApart, AreDistinct};
ghost use Rattle.alpha_equal.specs.Points.{spot_as, IsShown};

use crate::both::Programs;
use crate::listed::{Apart, listed_apart};
use crate::plan::{Difference, ExportChange, Plan, Side};
use crate::reach::in_reach;
use crate::units::units_apart;
use alpha_equal::numbers::Numbers;
use alpha_equal::points::{Shown, Spot};
use core_tree::units::Program;
use ls_base::{Mem, Memory, Text};
use program_leaves::sight::{FormNo, Sight};
use scheme_model::Occ;
use std::alloc::Global;
use syntax_tree::meaning::Meaning;
use syntax_tree::symbols::SymNo;
use syntax_tree::trees::Work;

// ---- what is told

/// Whether two occurrences are the same.
fn is_same_occ(one: Occ, other: Occ) -> bool
    ensures { result ≡ same_occ one other }
{
    one.unit == other.unit && (one.form == other.form && one.token == other.token)
}

/// Whether an occurrence is one of these.
fn is_among(occs: &[Occ], occ: Occ) -> bool
    ensures { result ≡ is_member occs.now occ }
{
    for other in occs {
        if is_same_occ(*other, occ) {
            return true;
        }
    }
    false
}

/// The kind of a difference at a use.
fn use_kind(class: &[Occ], occ: Option<Occ>) -> u8
    ensures { result ≡ kind_number (model_use (is_renamed class.now occ)) }
{
    match occ {
        None => 2,
        Some(occ) => {
            if is_among(class, occ) {
                return 1;
            }
            2
        }
    }
}

/// The kind of a difference by where it stands.
fn kind_of(class: &[Occ], spot: Spot, occ: Option<Occ>) -> u8
    ensures { result ≡ kind_number (model_kind class.now (spot_as spot) occ) }
{
    match spot {
        Spot::Use => use_kind(class, occ),
        Spot::Quoted => 3,
        Spot::Rule => 4,
        Spot::Template => 4,
        Spot::Export => 5,
        Spot::Shape => 6,
        Spot::Errors => 7,
    }
}

/// The characters of a symbol.
fn text_of(alloc: Global, work: &Work, symbol: SymNo) -> Mem<Text>
    requires { (s : List ℕ) × IsSymbol work.now.symbols symbol s }
    ensures { (s : List ℕ) → IsSymbol work.now.symbols symbol s → IfOk result (λ text. text ≡ s) }
{
    Ok(Text::of(alloc, work.symbols.name(symbol))?)
}

/// A place of what binds, where there is one.
fn binder_side(occ: Option<Occ>) -> Side
    ensures { side_as result ≡ model_place occ }
{
    match occ {
        None => Side::Nothing,
        Some(occ) => Side::Binder(occ),
    }
}

/// What a meaning is told as.
fn meaning_side(
    alloc: Global,
    work: &Work,
    sight: &Sight<'_>,
    at: FormNo,
    meaning: Meaning,
) -> Mem<Side>
    requires { (m : ModelMeaning) × IsMeaning work.now.symbols at.unit at.form meaning m }
    ensures { (leaves : List CoreLeaf) (keywords : List ModelTarget) (names : List ModelName) (table : Table) (m : ModelMeaning) →
        Sees work.now sight.now leaves keywords names table → IsMeaning work.now.symbols at.unit at.form meaning m →
        IfOk result (λ side. side_as side ≡ model_meaning (model_binder leaves table) m) }
{
    match meaning {
        Meaning::Local(_) => Ok(binder_side(sight.binder_of(at, meaning))),
        Meaning::Global { unit: _, ident: _ } => Ok(binder_side(sight.binder_of(at, meaning))),
        Meaning::Standard(name) => Ok(Side::Standard(text_of(alloc, work, name)?)),
        Meaning::Free(name) => Ok(Side::Unbound(text_of(alloc, work, name)?)),
    }
}

/// What a point is told as.
fn side_of(alloc: Global, work: &Work, sight: &Sight<'_>, at: FormNo, shown: Shown<'_>) -> Mem<Side>
    requires { (t : ModelShown) × IsShown work.now.symbols at.unit at.form shown t }
    ensures { (leaves : List CoreLeaf) (keywords : List ModelTarget) (names : List ModelName) (table : Table) (t : ModelShown) →
        Sees work.now sight.now leaves keywords names table → IsShown work.now.symbols at.unit at.form shown.entry t →
        IfOk result (λ side. side_as side ≡ model_side (model_binder leaves table) t) }
{
    match shown {
        Shown::Nothing => Ok(Side::Nothing),
        Shown::Symbol(symbol) => Ok(Side::Symbol(text_of(alloc, work, symbol)?)),
        Shown::Text(text) => Ok(Side::Symbol(Text::of(alloc, text)?)),
        Shown::Meaning(meaning) => Ok(meaning_side(alloc, work, sight, at, meaning)?),
        Shown::Place(occ) => Ok(binder_side(occ)),
    }
}

/// A number of a unit or a form. Memory for more than 2^32 of them isn't there.
fn number_of(place: usize) -> Mem<u32>
    ensures { IfOk result (λ n. n ≡ place) }
{
    match u32::try_from(place) {
        Ok(number) => Ok(number),
        Err(_) => Err(Memory),
    }
}

/// What is told of two points, by what is seen of the programs.
fn told(
    alloc: Global,
    work: &Work,
    before: &Sight<'_>,
    after: &Sight<'_>,
    class: &[Occ],
    apart: Apart<'_>,
) -> Mem<Difference>
    requires { (a : ModelApart) × IsApart work.now.symbols apart a }
    ensures { (all rest : List Placed) (p q : ModelProgram) (a : ModelApart) → SeesProgram work.now before.now all p → SeesProgram work.now after.now rest q →
        IsApart work.now.symbols apart.entry a → IfOk result (λ told. IsDifference told (difference p q class.now a)) }
{
    let at = FormNo {
        unit: apart.unit,
        form: apart.form,
    };
    let old = apart.pair.old;
    Ok(Difference {
        kind: kind_of(class, old.spot, old.occ),
        unit: number_of(apart.unit)?,
        form: number_of(apart.form)?,
        occ: old.occ,
        before: side_of(alloc, work, before, at, old.shown)?,
        after: side_of(alloc, work, after, at, apart.pair.new.shown)?,
    })
}

// ---- programs

/// Two programs with the numbers of their definitions.
fn programs_of<'a>(
    alloc: Global,
    work: &'a Work,
    old: &'a Program,
    new: &'a Program,
) -> Mem<Programs<'a>>
    ensures told { IfOk result (λ programs. (programs.work.now ≡ work.now) × (programs.old.now ≡ old.now) × (programs.new.now ≡ new.now)) }
    ensures numbered { (text : LibraryName → List ℕ) (uris : List (List ℕ)) (before after : List Placed) (p q : ModelProgram) → ProgramStands work.now text uris before old.now p →
        ProgramStands work.now text uris after new.now q → IfOk result (λ programs. AreNumbered programs p q) }
{
    work.symbols.told_apart();
    Ok(Programs {
        work,
        old,
        new,
        old_numbers: Numbers::of(alloc, old)?,
        new_numbers: Numbers::of(alloc, new)?,
    })
}

/// The first place at which programs aren't the same in these units, where what is live is known or nothing is left out.
fn apart_in<'a>(
    alloc: Global,
    programs: &Programs<'a>,
    live: &Option<Sight<'_>>,
    changes: &[ExportChange],
    reach: &[usize],
) -> Mem<Option<Apart<'a>>>
    requires { AreStanding programs.now }
    ensures { (text : LibraryName → List ℕ) (uris : List (List ℕ)) (before after : List Placed) (p q : ModelProgram) (is_live : Option AnyOcc → Bool) → TellsApart text p q → AreDistinct uris →
        ProgramsStand text uris before after programs.now p q → AreNumbered programs.now p q → ExportsAreGiven p → ExportsAreGiven q → TellsLive live.now is_live →
        IfOk result (λ found. FindsFirst programs.now.work.now.symbols is_live (stretches p q (changes_as changes.now) reach.now) found) }
{
    let listed = listed_apart(programs.old.units.as_slice(), programs.new.units.as_slice());
    if listed.is_some() {
        return Ok(listed);
    }
    Ok(units_apart(alloc, programs, live, changes, reach)?)
}

/// The first difference, where what is live in the old program is left out.
fn difference_where(
    alloc: Global,
    programs: &Programs<'_>,
    plan: &Plan,
    reach: &[usize],
) -> Mem<Option<Difference>>
    requires { (h : AreComparable programs.now.work.now programs.now.old.now programs.now.new.now) × AreNumbered programs.now h.p h.q }
    ensures { (text : LibraryName → List ℕ) (uris : List (List ℕ)) (before after : List Placed) (p q : ModelProgram) → TellsApart text p q → AreDistinct uris →
        ProgramsStand text uris before after programs.now p q → AreNumbered programs.now p q → ExportsAreGiven p → ExportsAreGiven q →
        IfOk result (λ found. AreOne found (difference_in before p q (plan_as plan.now) reach.now)) }
{
    let work = programs.work;
    let live = Some(Sight::of(alloc, work, programs.old)?);
    match apart_in(alloc, programs, &live, plan.exports.as_slice(), reach)? {
        None => Ok(None),
        Some(apart) => {
            let before = Sight::of(alloc, work, programs.old)?;
            let after = Sight::of(alloc, work, programs.new)?;
            let class = plan.class.as_slice();
            Ok(Some(told(alloc, work, &before, &after, class, apart)?))
        }
    }
}

/// The first difference in these units. What is live is looked for only where programs differ with nothing left out.
pub fn first_difference_in(
    alloc: Global,
    work: &Work,
    old: &Program,
    new: &Program,
    plan: &Plan,
    reach: &[usize],
) -> Mem<Option<Difference>>
    requires { AreComparable work.now old.now new.now }
    ensures { (text : LibraryName → List ℕ) (uris : List (List ℕ)) (before after : List Placed) (p q : ModelProgram) → TellsApart text p q → AreDistinct uris →
        ProgramStands work.now text uris before old.now p → ProgramStands work.now text uris after new.now q → ExportsAreGiven p → ExportsAreGiven q →
        IfOk result (λ found. AreOne found (difference_in before p q (plan_as plan.now) reach.now)) }
{
    let programs = programs_of(alloc, work, old, new)?;
    let apart = apart_in(alloc, &programs, &None, plan.exports.as_slice(), reach)?;
    if apart.is_none() {
        return Ok(None);
    }
    Ok(difference_where(alloc, &programs, plan, reach)?)
}

/// The first difference in the units in reach of what is renamed.
pub fn first_difference(
    alloc: Global,
    work: &Work,
    old: &Program,
    new: &Program,
    plan: &Plan,
) -> Mem<Option<Difference>>
    requires { AreComparable work.now old.now new.now }
    ensures { (text : LibraryName → List ℕ) (uris : List (List ℕ)) (before after : List Placed) (p q : ModelProgram) → TellsApart text p q → AreDistinct uris →
        ProgramStands work.now text uris before old.now p → ProgramStands work.now text uris after new.now q → ExportsAreGiven p → ExportsAreGiven q →
        IfOk result (λ found. AreOne found (model_difference before p q (plan_as plan.now))) }
{
    let reach = in_reach(alloc, old.units.as_slice(), plan.class.as_slice())?;
    Ok(first_difference_in(alloc, work, old, new, plan, reach.as_slice())?)
}
