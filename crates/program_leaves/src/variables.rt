//! The variables of patterns, and where templates use them (R7RS 4.3.2).
ghost use Rattle.std.specs.Prelude.{◌≡◌, ℕ, ◌++◌, ◌==◌, List, Some, None, if◌then◌else◌, map, IfOk, OnOk};
ghost use Rattle.std.specs.BTreeMap.{get};
ghost use Rattle.std.specs.Ordering.{nat_cmp};
ghost use Rattle.scheme_model.specs.Trees.{Tree as ModelTree};
ghost use Rattle.scheme_model.specs.ExpansionFaults.{Named as ModelNamed};
ghost use Rattle.scheme_model.specs.RulesShape.{Rules as ModelRules, Rule as ModelRule, role_of, pattern_variables};
ghost use Rattle.scheme_model.specs.ProgramArrows.{arrow_of, template_arrows, rule_arrows, places_at, variable_places, rule_binders};
ghost use Rattle.scheme_model.specs.Ident.{Ident as Identifier};
ghost use Rattle.syntax_tree.specs.Macros.{identifiers, IsIdent, IsRule, RulesFor, TellsRoles, AreRolesOf};
ghost use Rattle.syntax_tree.specs.Placed.{IsNamed};
ghost use Rattle.syntax_tree.specs.Works.{StandsFor, IsStanding};
ghost use Rattle.core_tree.specs.Names.{AllMatch};
ghost use Rattle.program_leaves.specs.Adds.{Adds};
ghost use Rattle.program_leaves.specs.Names.{pattern_names};
ghost use Rattle.program_leaves.specs.Pairs.{as_arrow};
ghost use Rattle.program_leaves.specs.Placed.{first_or, place_in};
ghost use Rattle.program_leaves.specs.Variables.{if_variable, chosen, place_among};

use crate::names::{add_row, names_of};
use crate::pairs::Pair;
use ls_base::Mem;
use scheme_model::Occ;
use std::alloc::Global;
use std::collections::BTreeMap;
use syntax_tree::look::{Look, look_at};
use syntax_tree::rules::{Named, Role, Roles, Rule, Rules};
use syntax_tree::symbols::IdNo;
use syntax_tree::trees::{Tree, Work};

/// Adds the names of a pattern behind its first part.
fn add_pattern(work: &Work, pattern: Tree, names: &mut Vec<Named>) -> Mem<()>
    requires { IsStanding work.now pattern }
    ensures { (t : ModelTree Identifier) → StandsFor work.now pattern t →
        OnOk result (Adds (IsNamed work.now.symbols) names.old.items names.new.items (pattern_names t)) }
{
    let left = work.depth(pattern);
    match look_at(work, pattern) {
        Look::List(items, end) => Ok(add_row(work, items, 1, end, left, names)?),
        Look::Name(_) => Ok(()),
        Look::Atom(_) => Ok(()),
        Look::Vector(_) => Ok(()),
    }
}

/// Adds a name of a pattern, where it is a variable.
fn add_variable(work: &Work, roles: &Roles, name: Named, found: &mut Vec<Named>) -> Mem<()>
    requires { (i : Identifier) × IsIdent work.now.symbols name.ident i }
    ensures { (r : ModelRules Identifier) (m : ModelNamed Identifier) → TellsRoles work.now.symbols roles.now r → IsNamed work.now.symbols name m →
        OnOk result (Adds (IsNamed work.now.symbols) found.old.items found.new.items (if_variable (role_of identifiers r m.name) m)) }
{
    match roles.role(&work.symbols, name.ident) {
        Role::Variable => Ok(found.push(name)?),
        Role::Literal => Ok(()),
        Role::Ellipsis => Ok(()),
        Role::Any => Ok(()),
    }
}

/// Adds the variables among names, in order.
fn add_variables(work: &Work, roles: &Roles, names: &[Named], found: &mut Vec<Named>) -> Mem<()>
    requires { (ms : List (ModelNamed Identifier)) × AllMatch (IsNamed work.now.symbols) names.now ms }
    ensures { (r : ModelRules Identifier) (ms : List (ModelNamed Identifier)) → TellsRoles work.now.symbols roles.now r →
        AllMatch (IsNamed work.now.symbols) names.now ms →
        OnOk result (Adds (IsNamed work.now.symbols) found.old.items found.new.items (chosen (role_of identifiers r) ms)) }
{
    for name in names {
        add_variable(work, roles, *name, found)?;
    }
    Ok(())
}

/// The variables of a pattern, in order.
fn variables(alloc: Global, work: &Work, roles: &Roles, pattern: Tree) -> Mem<Vec<Named>>
    requires { IsStanding work.now pattern }
    ensures { (r : ModelRules Identifier) (t : ModelTree Identifier) → TellsRoles work.now.symbols roles.now r → StandsFor work.now pattern t →
        IfOk result (λ found. AllMatch (IsNamed work.now.symbols) found.items (chosen (role_of identifiers r) (pattern_names t))) }
{
    let mut names = Vec::new(alloc);
    add_pattern(work, pattern, &mut names)?;
    let mut found = Vec::new(alloc);
    add_variables(work, roles, names.as_slice(), &mut found)?;
    Ok(found)
}

/// Puts the place of a variable that has none yet.
fn put_variable(variable: Named, places: &mut BTreeMap<IdNo, Option<Occ>>) -> Mem<()>
    ensures { OnOk result ((n : ℕ) →
        get nat_cmp places.new n ≡ first_or (get nat_cmp places.old n) (if variable.ident == n then Some variable.occ else None)) }
{
    if places.contains_key(&variable.ident) {
        return Ok(());
    }
    places.insert(variable.ident, variable.occ)?;
    Ok(())
}

/// Where each variable stands; of those that are one identifier the first counts.
fn places_of(alloc: Global, variables: &[Named]) -> Mem<BTreeMap<IdNo, Option<Occ>>>
    ensures { IfOk result (λ places. (n : ℕ) → get nat_cmp places n ≡ place_among variables.now n) }
{
    let mut places = BTreeMap::new(alloc);
    for variable in variables {
        put_variable(*variable, &mut places)?;
    }
    Ok(places)
}

/// Adds the arrow between two places, where there are both.
pub fn add_arrow(binder: Option<Occ>, target: Option<Occ>, pairs: &mut Vec<Pair>) -> Mem<()>
    ensures { OnOk result (map as_arrow pairs.new.items ≡ map as_arrow pairs.old.items ++ arrow_of binder target) }
{
    match binder {
        None => Ok(()),
        Some(binder) => match target {
            None => Ok(()),
            Some(target) => Ok(pairs.push(Pair { binder, target })?),
        },
    }
}

/// Where a variable stands, where it has a place.
fn place_at(places: &BTreeMap<IdNo, Option<Occ>>, ident: IdNo) -> Option<Occ>
    ensures { result ≡ place_in (get nat_cmp places.now ident) }
{
    match places.get(&ident) {
        None => None,
        Some(place) => *place,
    }
}

/// Adds the arrows from the variables of a rule to their places in its template.
fn add_rule_arrows(
    alloc: Global,
    work: &Work,
    roles: &Roles,
    rule: Rule,
    pairs: &mut Vec<Pair>,
) -> Mem<()>
    requires { (m : ModelRule Identifier) × IsRule work.now rule m }
    ensures { (r : ModelRules Identifier) (m : ModelRule Identifier) → TellsRoles work.now.symbols roles.now r → IsRule work.now rule m →
        OnOk result (map as_arrow pairs.new.items ≡ map as_arrow pairs.old.items ++ template_arrows (pattern_variables identifiers r m) m.template) }
{
    work.symbols.told_apart();
    let variables = variables(alloc, work, roles, rule.pattern)?;
    let places = places_of(alloc, variables.as_slice())?;
    let names = names_of(alloc, work, rule.template)?;
    for name in names.as_slice() {
        let binder = place_at(&places, name.ident);
        add_arrow(binder, name.occ, pairs)?;
    }
    Ok(())
}

/// What tells the roles of the identifiers of rules.
fn roles_of(alloc: Global, rules: &Rules) -> Mem<Roles>
    ensures { IfOk result (λ roles. AreRolesOf roles rules.now.ellipsis rules.now.literals) }
{
    Ok(Roles::of(alloc, rules.ellipsis, rules.literals.as_slice())?)
}

/// Adds the arrows from the pattern variables of rules.
pub fn add_rules_arrows(alloc: Global, work: &Work, rules: &Rules, pairs: &mut Vec<Pair>) -> Mem<()>
    requires { (r : ModelRules Identifier) × RulesFor work.now rules.now r }
    ensures { (r : ModelRules Identifier) → RulesFor work.now rules.now r →
        OnOk result (map as_arrow pairs.new.items ≡ map as_arrow pairs.old.items ++ rule_arrows r r.rules) }
{
    let roles = roles_of(alloc, rules)?;
    for rule in rules.rules.as_slice() {
        add_rule_arrows(alloc, work, &roles, *rule, pairs)?;
    }
    Ok(())
}

/// Adds a place, where there is one.
pub fn add_place(place: Option<Occ>, places: &mut Vec<Occ>) -> Mem<()>
    ensures { OnOk result (places.new.items ≡ places.old.items ++ places_at place) }
{
    match place {
        None => Ok(()),
        Some(occ) => Ok(places.push(occ)?),
    }
}

/// Adds the places of the variables of a pattern.
fn add_rule_binders(
    alloc: Global,
    work: &Work,
    roles: &Roles,
    rule: Rule,
    places: &mut Vec<Occ>,
) -> Mem<()>
    requires { (m : ModelRule Identifier) × IsRule work.now rule m }
    ensures { (r : ModelRules Identifier) (m : ModelRule Identifier) → TellsRoles work.now.symbols roles.now r → IsRule work.now rule m →
        OnOk result (places.new.items ≡ places.old.items ++ variable_places (pattern_variables identifiers r m)) }
{
    let variables = variables(alloc, work, roles, rule.pattern)?;
    for variable in variables.as_slice() {
        add_place(variable.occ, places)?;
    }
    Ok(())
}

/// Adds the places of the pattern variables of rules.
pub fn add_rules_binders(
    alloc: Global,
    work: &Work,
    rules: &Rules,
    places: &mut Vec<Occ>,
) -> Mem<()>
    requires { (r : ModelRules Identifier) × RulesFor work.now rules.now r }
    ensures { (r : ModelRules Identifier) → RulesFor work.now rules.now r →
        OnOk result (places.new.items ≡ places.old.items ++ rule_binders r r.rules) }
{
    let roles = roles_of(alloc, rules)?;
    for rule in rules.rules.as_slice() {
        add_rule_binders(alloc, work, &roles, *rule, places)?;
    }
    Ok(())
}
