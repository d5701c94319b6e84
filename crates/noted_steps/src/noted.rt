//! What a form asks of what is around it, noted: what identifiers mean, whether literals mean the same as identifiers, and the rules of
//! macros (R7RS 4.3, 5.3).
ghost use Rattle.std.specs.Prelude.{◌≡◌, ℕ, ◌<◌, List, [], ◌∷◌, map, length, None};
ghost use Rattle.scheme_model.specs.ExpansionFaults.{Named};
ghost use Rattle.scheme_model.specs.Ident.{Ident as Identifier};
ghost use Rattle.scheme_model.specs.Meaning.{Meaning as ModelMeaning};
ghost use Rattle.scheme_model.specs.Order.{Headed, Meant, RulesOf, Alike, is_some};
ghost use Rattle.scheme_model.specs.Requirements.{Known};
ghost use Rattle.scheme_model.specs.ScopedExpansion.{Frames, ScopedState, macro_at};
ghost use Rattle.syntax_tree.specs.Meant.{IsMeaning};
ghost use Rattle.syntax_tree.specs.declared.trees.Work.{Work as AnyWork};
ghost use Rattle.core_forms.specs.Parts.{IsName};
ghost use Rattle.core_tree.specs.Names.{AllMatch};
ghost use Rattle.unit_scopes.specs.State.{Stands as PlainStands};
ghost use Rattle.unit_scopes.specs.Outcomes.{At, CanLook};
ghost use Rattle.noted_steps.specs.Noting.{Noting, noting};
ghost use Rattle.noted_steps.specs.Standing.{Stands, TargetFor, ComparedFor, with_notes};

use core_forms::NamePart;
use core_tree::cores::Target;
use scope_env::ScopeNo;
use syntax_tree::meaning::Meaning;
use syntax_tree::symbols::IdNo;
use syntax_tree::trees::Work;
use unit_scopes::scope::UnitScope;
use unit_scopes::uses::Comparison;

/// Whether a macro means this.
fn is_macro(units: &UnitScope, meaning: Meaning) -> bool
    ensures { (work : AnyWork) (ls : List Frames) (s : ScopedState) (m : ModelMeaning) → PlainStands work units.now ls s → IsMeaning work.symbols s.unit s.form meaning m →
        result ≡ is_some (macro_at s.macros m) }
{
    units.macros.meaning(units.form.number, meaning).is_some()
}

/// Notes what an identifier means where it is used.
pub fn note(units: &mut UnitScope, work: &Work, target: Target)
    requires { target.ident < length work.now.symbols.idents }
    ensures noted { (known : Known) (ls : List Frames) (s : Noting) (fs : Frames) (n : Named Identifier) → Stands work.now units.old ls s →
        TargetFor work.now s fs target n →
        Stands work.now units.new ls ((noting known).ask (Headed fs n.name ∷ []) s) }
    ensures rest { units.new ≡ with_notes units.old units.new.form.trace.notes }
{
    let keyword = is_macro(units, target.meaning);
    units
        .form
        .trace
        .notes
        .look_up(&work.symbols, target.ident, target.meaning, keyword);
}

/// Notes what identifiers mean where they are used.
pub fn note_all(units: &mut UnitScope, work: &Work, targets: &[Target])
    requires { (s : Noting) × (fs : Frames) × (ns : List (Named Identifier)) × AllMatch (TargetFor work.now s fs) targets.now ns }
    ensures noted { (known : Known) (ls : List Frames) (s : Noting) (fs : Frames) (ns : List (Named Identifier)) → Stands work.now units.old ls s →
        AllMatch (TargetFor work.now s fs) targets.now ns → Stands work.now units.new ls ((noting known).ask (map (λ n. Meant fs n.name) ns) s) }
    ensures rest { units.new ≡ with_notes units.old units.new.form.trace.notes }
{
    let mut left = targets.len();
    while 0 < left {
        left -= 1;
        note(units, work, targets[left]);
    }
}

/// Notes an identifier where it is used.
pub fn note_name(units: &mut UnitScope, work: &Work, scope: ScopeNo, name: NamePart)
    requires look { CanLook work.now units.old scope }
    requires ident { name.ident < length work.now.symbols.idents }
    ensures noted { (known : Known) (ls : List Frames) (s : Noting) (fs : Frames) (n : Named Identifier) → Stands work.now units.old ls s → At ls scope fs → IsName work.now name n →
        Stands work.now units.new ls ((noting known).ask (Meant fs n.name ∷ []) s) }
    ensures rest { units.new ≡ with_notes units.old units.new.form.trace.notes }
{
    let target = units.target(work, scope, name);
    note(units, work, target);
}

/// Notes identifiers where they are used.
pub fn note_names(units: &mut UnitScope, work: &Work, scope: ScopeNo, names: &[NamePart])
    requires look { CanLook work.now units.old scope }
    requires names { (ns : List (Named Identifier)) × AllMatch (IsName work.now) names.now ns }
    ensures noted { (known : Known) (ls : List Frames) (s : Noting) (fs : Frames) (ns : List (Named Identifier)) → Stands work.now units.old ls s → At ls scope fs →
        AllMatch (IsName work.now) names.now ns → Stands work.now units.new ls ((noting known).ask (map (λ n. Meant fs n.name) ns) s) }
    ensures rest { units.new ≡ with_notes units.old units.new.form.trace.notes }
{
    let mut left = names.len();
    while 0 < left {
        left -= 1;
        note_name(units, work, scope, names[left]);
    }
}

/// Notes which rules what means this has, by their edition.
pub fn note_use(units: &mut UnitScope, meaning: Meaning)
    ensures noted { (known : Known) (work : AnyWork) (ls : List Frames) (s : Noting) (m : ModelMeaning) → Stands work units.old ls s → IsMeaning work.symbols s.unit s.form meaning m →
        Stands work units.new ls ((noting known).ask (RulesOf m ∷ []) s) }
    ensures rest { units.new ≡ with_notes units.old units.new.form.trace.notes }
{
    let edition = units.macros.edition(units.form.number, meaning);
    units.form.trace.notes.use_rules(meaning, edition);
}

/// Notes whether a literal means in one scope the same as the identifier beside it in another.
fn note_comparison(
    units: &mut UnitScope,
    work: &Work,
    literal_scope: ScopeNo,
    scope: ScopeNo,
    comparison: Comparison,
)
    requires literals { CanLook work.now units.old literal_scope }
    requires look { CanLook work.now units.old scope }
    requires literal { comparison.pair.literal < length work.now.symbols.idents }
    requires ident { comparison.pair.ident < length work.now.symbols.idents }
    ensures noted { (known : Known) (ls : List Frames) (s : Noting) (gs fs : Frames) (q : Identifier × Identifier) → Stands work.now units.old ls s → At ls literal_scope gs → At ls scope fs →
        ComparedFor work.now s gs fs comparison q → Stands work.now units.new ls ((noting known).ask (Alike gs q.0 fs q.1 ∷ []) s) }
    ensures rest { units.new ≡ with_notes units.old units.new.form.trace.notes }
{
    let pair = comparison.pair;
    let literal = units.target(work, literal_scope, named(pair.literal));
    let ident = units.target(work, scope, named(pair.ident));
    units.form.trace.notes.compare(
        &work.symbols,
        pair.literal,
        pair.ident,
        literal.meaning,
        ident.meaning,
        comparison.held,
    );
}

/// An identifier without a place.
pub(crate) fn named(ident: IdNo) -> NamePart
    ensures { result ≡ record { ident = ident; occ = None } }
{
    NamePart { ident, occ: None }
}

/// Notes the comparisons of a use, of which the first comes to be the newest.
pub fn note_comparisons(
    units: &mut UnitScope,
    work: &Work,
    literal_scope: ScopeNo,
    scope: ScopeNo,
    comparisons: &[Comparison],
)
    requires literals { CanLook work.now units.old literal_scope }
    requires look { CanLook work.now units.old scope }
    requires compared { (s : Noting) × (gs : Frames) × (fs : Frames) × (qs : List (Identifier × Identifier)) × AllMatch (ComparedFor work.now s gs fs) comparisons.now qs }
    ensures noted { (known : Known) (ls : List Frames) (s : Noting) (gs fs : Frames) (qs : List (Identifier × Identifier)) → Stands work.now units.old ls s → At ls literal_scope gs → At ls scope fs →
        AllMatch (ComparedFor work.now s gs fs) comparisons.now qs → Stands work.now units.new ls ((noting known).ask (map (λ q. Alike gs q.0 fs q.1) qs) s) }
    ensures rest { units.new ≡ with_notes units.old units.new.form.trace.notes }
{
    let mut left = comparisons.len();
    while 0 < left {
        left -= 1;
        note_comparison(units, work, literal_scope, scope, comparisons[left]);
    }
}
