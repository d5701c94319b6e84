//! Editions of macros that go on where a form is gone through anew: a macro that has the rules that the unit's macro of its identifier had before
//! has its edition too.
ghost use Rattle.std.specs.Prelude.{◌≡◌, ℕ, List, [], Option, Some, OnOk};
ghost use Rattle.scheme_model.specs.Ident.{Ident as Identifier};
ghost use Rattle.scheme_model.specs.Order.{Note, Transformer};
ghost use Rattle.scheme_model.specs.RulesShape.{Rules};
ghost use Rattle.scheme_model.specs.ScopedExpansion.{FramedIdent, Frames, ScopedState};
ghost use Rattle.syntax_tree.specs.declared.meaning.Meaning.TheVariants as meanings;
ghost use Rattle.equal_trees.specs.Told.{TellsRules};
ghost use Rattle.unit_scopes.specs.Editions.{EditionsTell};
ghost use Rattle.unit_scopes.specs.Macros.{edition_in};
ghost use Rattle.declared_parts.specs.Editions.{HasMacro};

use crate::parts::KeptMacro;
use equal_trees::same_rules;
use ls_base::Mem;
use syntax_tree::meaning::Meaning;
use syntax_tree::trees::Work;
use unit_scopes::UnitScope;

/// A macro of the open unit gets the edition of the one that its identifier was defined as before, if it has the same rules.
pub fn keep_edition(
    units: &mut UnitScope,
    work: &Work,
    kept: &mut KeptMacro,
    before: &KeptMacro,
) -> Mem<()>
    requires kept { (ls : List Frames) × (s : ScopedState) × (notes : List (Note FramedIdent)) × (r : Rules Identifier) × HasMacro work.now units.old ls s notes kept.old r }
    requires before { (q : Rules Identifier) × TellsRules work.now before.now.rules before.now.leaves q }
    // The macro is as before but for its edition, which tells its rules.
    ensures has { (ls : List Frames) (s : ScopedState) (notes : List (Note FramedIdent)) (r : Rules Identifier) → HasMacro work.now units.old ls s notes kept.old r → OnOk result (HasMacro work.now units.new ls s notes kept.new r) }
    ensures tells { (ls : List Frames) (s : ScopedState) (notes : List (Note FramedIdent)) (r q : Rules Identifier) (e : ℕ → Option (Transformer Frames Identifier)) → HasMacro work.now units.old ls s notes kept.old r →
        TellsRules work.now before.now.rules before.now.leaves q → e before.now.edition ≡ Some (record { env = []; rules = q }) → EditionsTell work.now.symbols units.old.macros s e → OnOk result (EditionsTell work.now.symbols units.new.macros s e) }
    // Where both have the same rules, they have one edition.
    ensures same { (ls : List Frames) (s : ScopedState) (notes : List (Note FramedIdent)) (r : Rules Identifier) (form : ℕ) → HasMacro work.now units.old ls s notes kept.old r → TellsRules work.now before.now.rules before.now.leaves r →
        OnOk result ((kept.new.edition ≡ before.now.edition) × (edition_in units.new.macros form (meanings.Global units.new.unit kept.new.ident) ≡ before.now.edition)) }
{
    if !same_rules(
        work,
        &kept.rules,
        kept.leaves.as_slice(),
        &before.rules,
        before.leaves.as_slice(),
    ) {
        return Ok(());
    }
    let Some(mut own) = units.macros.take(units.unit, kept.ident) else {
        return Ok(());
    };
    own.edition = before.edition;
    kept.edition = before.edition;
    let meaning = Meaning::Global {
        unit: units.unit,
        ident: kept.ident,
    };
    units.macros.keep_as(units.form.number, meaning, own)?;
    Ok(())
}
