//! The rules of a macro as a list of slots (R7RS 4.3.2): points, and leaves that mean something where the macro is defined.
ghost use Rattle.std.specs.Prelude.{◌≡◌, ℕ, ◌==◌, ◌∷◌, ◌++◌, [], List, length, map, Option, Some, None, if◌then◌else◌, is_some, IfOk, OnOk};
ghost use Rattle.std.specs.BTreeMap.{get};
ghost use Rattle.std.specs.List.{flat_map};
ghost use Rattle.std.specs.Ordering.{nat_cmp};
ghost use Rattle.scheme_model.specs.Trees.{Atom, atom};
ghost use Rattle.scheme_model.specs.RulesShape.{Rules as ModelRules, Rule as ModelRule, Variable as ModelVariable, role_of};
ghost use Rattle.scheme_model.specs.Ident.{Ident as Identifier};
ghost use Rattle.rename_model.specs.Walks.{TreeNode as ModelNode, Seen as ModelSeen, Shown as ModelShown, Slot as ModelSlot, Fixed, AtRule, OfNode, OfNumber, ShowsNothing, in_rules as model_in_rules, atom_points, list_points, vector_points, rule_slots, pattern_name, template_name, slots_of_rule, slots_of as model_slots};
ghost use Rattle.syntax_tree.specs.Macros.{identifiers, IsRule, AreRules, AreRolesOf, RulesFor, TellsRoles, role_as};
ghost use Rattle.syntax_tree.specs.Names.{Names};
ghost use Rattle.syntax_tree.specs.Placed.{IsNamed};
ghost use Rattle.syntax_tree.specs.Standing.{leaf_tree};
ghost use Rattle.core_tree.specs.Names.{AllMatch};
ghost use Rattle.program_leaves.specs.Adds.{Adds};
ghost use Rattle.program_leaves.specs.Placed.{first_or};
ghost use Rattle.alpha_equal.specs.Nodes.{IsNode};
ghost use Rattle.alpha_equal.specs.Points.{node_as, IsSeen, IsShown};
ghost use Rattle.alpha_equal.specs.Slots.{IsSlot};
ghost use Rattle.program_differences.specs.Variables.{variable_in, numbered, placed, pattern_slots, template_slots, TellsPlaces, heading, literals};

use alpha_equal::nodes::Node;
use alpha_equal::points::{Point, Seen, Shown, Spot, Told};
use alpha_equal::quoted::{truth_node, truth_number};
use alpha_equal::slots::Slot;
use alpha_equal::trees::{TreeNode, pattern_nodes, template_nodes};
use ls_base::Mem;
use scheme_model::Occ;
use std::alloc::Global;
use std::collections::BTreeMap;
use syntax_tree::rules::{Named, Role, Roles, Rule, Rules};
use syntax_tree::symbols::IdNo;
use syntax_tree::trees::{Leaf, Work};

/// A variable of a pattern: its place among those of its rule, and where it stands.
#[derive(Clone, Copy)]
pub struct Variable {
    pub place: usize,
    pub occ: Option<Occ>,
}

/// A point in the rules of a macro.
fn in_rules<'a>(seen: Seen<'a>, occ: Option<Occ>, shown: Shown<'a>) -> Slot<'a>
    ensures { (names : Names) (unit form : ℕ) (s : ModelSeen) (t : ModelShown) → IsSeen names unit form seen.entry s → IsShown names unit form shown.entry t →
        IsSlot names unit form result (model_in_rules s occ t) }
{
    Slot::Fixed(Point {
        told: Told {
            spot: Spot::Rule,
            occ,
            shown,
        },
        seen,
    })
}

/// Adds what is seen of a node, with its place.
fn add_seen<'a>(seen: Seen<'a>, occ: Option<Occ>, slots: &mut Vec<Slot<'a>>) -> Mem<()>
    ensures { (names : Names) (unit form : ℕ) (s : ModelSeen) → IsSeen names unit form seen.entry s →
        OnOk result (Adds (IsSlot names unit form) slots.old.items slots.new.items (model_in_rules s occ ShowsNothing ∷ [])) }
{
    Ok(slots.push(in_rules(seen, occ, Shown::Nothing))?)
}

/// Adds a node that is told without a place.
fn add_node(kind: Node, slots: &mut Vec<Slot<'_>>) -> Mem<()>
    ensures { (names : Names) (unit form : ℕ) → OnOk result (Adds (IsSlot names unit form) slots.old.items slots.new.items (model_in_rules (OfNode (node_as kind)) None ShowsNothing ∷ [])) }
{
    Ok(add_seen(Seen::Node(kind), None, slots)?)
}

/// Adds a number that is told without a place.
fn add_number(number: usize, slots: &mut Vec<Slot<'_>>) -> Mem<()>
    ensures { (names : Names) (unit form : ℕ) → OnOk result (Adds (IsSlot names unit form) slots.old.items slots.new.items (model_in_rules (OfNumber number) None ShowsNothing ∷ [])) }
{
    Ok(add_seen(Seen::Number(number as u64), None, slots)?)
}

/// Adds an atom, which is told with its place.
fn add_atom(leaf: Leaf, occ: Option<Occ>, slots: &mut Vec<Slot<'_>>) -> Mem<()>
    ensures { (names : Names) (unit form : ℕ) (a : Atom) → leaf_tree names leaf occ ≡ Some (atom a occ) →
        OnOk result (Adds (IsSlot names unit form) slots.old.items slots.new.items (map Fixed (atom_points AtRule occ a))) }
{
    match leaf {
        Leaf::Name(_) => Ok(()),
        Leaf::Numeral(text) => Ok(add_seen(Seen::Name(Node::Numeral, text), occ, slots)?),
        Leaf::Quoted(text) => Ok(add_seen(Seen::Name(Node::String, text), occ, slots)?),
        Leaf::Char(c) => {
            add_seen(Seen::Node(Node::Character), occ, slots)?;
            Ok(add_seen(Seen::Number(u64::from(u32::from(c))), occ, slots)?)
        }
        Leaf::Bool(holds) => Ok(add_seen(Seen::Node(truth_node(holds)), occ, slots)?),
        Leaf::Bytes(text) => Ok(add_seen(Seen::Name(Node::Bytes, text), occ, slots)?),
    }
}

/// Adds a list by the number of its parts and whether it has a tail.
fn add_list(parts: usize, dotted: bool, slots: &mut Vec<Slot<'_>>) -> Mem<()>
    ensures { (names : Names) (unit form : ℕ) → OnOk result (Adds (IsSlot names unit form) slots.old.items slots.new.items (map Fixed (list_points AtRule parts dotted))) }
{
    add_node(Node::List, slots)?;
    add_number(parts, slots)?;
    Ok(add_number(truth_number(dotted), slots)?)
}

/// Adds a vector by the number of its parts.
fn add_vector(parts: usize, slots: &mut Vec<Slot<'_>>) -> Mem<()>
    ensures { (names : Names) (unit form : ℕ) → OnOk result (Adds (IsSlot names unit form) slots.old.items slots.new.items (map Fixed (vector_points AtRule parts))) }
{
    add_node(Node::Vector, slots)?;
    Ok(add_number(parts, slots)?)
}

/// Adds a variable at one of its places.
fn add_placed(variable: Variable, occ: Option<Occ>, slots: &mut Vec<Slot<'_>>) -> Mem<()>
    ensures { (names : Names) (unit form : ℕ) (other : List ModelSlot) →
        OnOk result (Adds (IsSlot names unit form) slots.old.items slots.new.items (placed (Some variable) occ other)) }
{
    let shown = Shown::Place(variable.occ);
    slots.push(in_rules(Seen::Node(Node::PatternVariable), occ, shown))?;
    let number = variable.place as u64;
    Ok(slots.push(in_rules(Seen::Number(number), occ, shown))?)
}

/// Adds a node of a pattern, where it is a variable.
fn add_variable(work: &Work, roles: &Roles, node: TreeNode, found: &mut Vec<Named>) -> Mem<()>
    requires { (t : ModelNode Identifier) × IsNode work.now.symbols node t }
    ensures { (r : ModelRules Identifier) (t : ModelNode Identifier) → TellsRoles work.now.symbols roles.now r → IsNode work.now.symbols node t →
        OnOk result (Adds (IsNamed work.now.symbols) found.old.items found.new.items (variable_in (role_of identifiers r) t)) }
{
    match node {
        TreeNode::Name {
            ident,
            dots: _,
            occ,
        } => match roles.role(&work.symbols, ident) {
            Role::Variable => Ok(found.push(Named { ident, occ })?),
            Role::Literal => Ok(()),
            Role::Ellipsis => Ok(()),
            Role::Any => Ok(()),
        },
        TreeNode::Atom { leaf: _, occ: _ } => Ok(()),
        TreeNode::List {
            parts: _,
            dotted: _,
        } => Ok(()),
        TreeNode::Vector { parts: _ } => Ok(()),
        TreeNode::Escape => Ok(()),
    }
}

/// The variables among the nodes of a pattern, in order.
fn variables_of(alloc: Global, work: &Work, roles: &Roles, nodes: &[TreeNode]) -> Mem<Vec<Named>>
    requires { (ts : List (ModelNode Identifier)) × AllMatch (IsNode work.now.symbols) nodes.now ts }
    ensures { (r : ModelRules Identifier) (ts : List (ModelNode Identifier)) → TellsRoles work.now.symbols roles.now r →
        AllMatch (IsNode work.now.symbols) nodes.now ts → IfOk result (λ found. AllMatch (IsNamed work.now.symbols) found.items (flat_map (variable_in (role_of identifiers r)) ts)) }
{
    let mut found = Vec::new(alloc);
    for node in nodes {
        add_variable(work, roles, *node, &mut found)?;
    }
    Ok(found)
}

/// Puts a variable that has no place yet.
fn put_variable(variable: Named, place: usize, variables: &mut BTreeMap<IdNo, Variable>) -> Mem<()>
    ensures { OnOk result ((n : ℕ) → get nat_cmp variables.new n ≡
        first_or (get nat_cmp variables.old n) (if variable.ident == n then Some (record { place = place; occ = variable.occ }) else None)) }
{
    if variables.contains_key(&variable.ident) {
        return Ok(());
    }
    let occ = variable.occ;
    variables.insert(variable.ident, Variable { place, occ })?;
    Ok(())
}

/// The place of each variable; of those that are one identifier the first counts.
fn places_of(alloc: Global, variables: &[Named]) -> Mem<BTreeMap<IdNo, Variable>>
    ensures { IfOk result (λ places. (n : ℕ) → get nat_cmp places n ≡ numbered 0 variables.now n) }
{
    let mut places = BTreeMap::new(alloc);
    for place in 0..variables.len() {
        put_variable(variables[place], place, &mut places)?;
    }
    Ok(places)
}

/// The place of a variable, where an identifier is one.
fn place_at(places: &BTreeMap<IdNo, Variable>, ident: IdNo) -> Option<Variable>
    ensures { result ≡ get nat_cmp places.now ident }
{
    places.get(&ident).copied()
}

/// Adds a name of a pattern.
fn add_pattern_name(
    role: Role,
    variable: Option<Variable>,
    occ: Option<Occ>,
    slots: &mut Vec<Slot<'_>>,
) -> Mem<()>
    ensures { (names : Names) (unit form : ℕ) →
        OnOk result (Adds (IsSlot names unit form) slots.old.items slots.new.items (pattern_slots (role_as role) variable occ)) }
{
    match role {
        Role::Literal => Ok(slots.push(Slot::Leaf(Node::RuleLiteral))?),
        Role::Ellipsis => Ok(add_seen(Seen::Node(Node::Dots), occ, slots)?),
        Role::Any => Ok(add_seen(Seen::Node(Node::Underscore), occ, slots)?),
        Role::Variable => match variable {
            None => Ok(()),
            Some(variable) => Ok(add_placed(variable, occ, slots)?),
        },
    }
}

/// Adds a name of a template.
fn add_template_name(
    dots: bool,
    variable: Option<Variable>,
    occ: Option<Occ>,
    slots: &mut Vec<Slot<'_>>,
) -> Mem<()>
    ensures { (names : Names) (unit form : ℕ) →
        OnOk result (Adds (IsSlot names unit form) slots.old.items slots.new.items (template_slots dots variable occ)) }
{
    if dots {
        return Ok(add_seen(Seen::Node(Node::Dots), occ, slots)?);
    }
    match variable {
        None => Ok(slots.push(Slot::Leaf(Node::Inserted))?),
        Some(variable) => Ok(add_placed(variable, occ, slots)?),
    }
}

/// Adds a node of a pattern.
fn add_pattern_node(
    work: &Work,
    roles: &Roles,
    places: &BTreeMap<IdNo, Variable>,
    node: TreeNode,
    slots: &mut Vec<Slot<'_>>,
) -> Mem<()>
    requires { (t : ModelNode Identifier) × IsNode work.now.symbols node t }
    ensures { (r : ModelRules Identifier) (vs : List (ModelVariable Identifier)) (unit form : ℕ) (t : ModelNode Identifier) → TellsRoles work.now.symbols roles.now r →
        TellsPlaces work.now.symbols places.now vs → IsNode work.now.symbols node t →
        OnOk result (Adds (IsSlot work.now.symbols unit form) slots.old.items slots.new.items (rule_slots (λ i dots o. pattern_name vs (role_of identifiers r i) i o) t)) }
{
    match node {
        TreeNode::Name {
            ident,
            dots: _,
            occ,
        } => {
            let role = roles.role(&work.symbols, ident);
            Ok(add_pattern_name(role, place_at(places, ident), occ, slots)?)
        }
        TreeNode::Atom { leaf, occ } => Ok(add_atom(leaf, occ, slots)?),
        TreeNode::List { parts, dotted } => Ok(add_list(parts, dotted, slots)?),
        TreeNode::Vector { parts } => Ok(add_vector(parts, slots)?),
        TreeNode::Escape => Ok(add_node(Node::Escape, slots)?),
    }
}

/// Adds a node of a template.
fn add_template_node(
    places: &BTreeMap<IdNo, Variable>,
    node: TreeNode,
    slots: &mut Vec<Slot<'_>>,
) -> Mem<()>
    ensures { (names : Names) (vs : List (ModelVariable Identifier)) (unit form : ℕ) (t : ModelNode Identifier) → TellsPlaces names places.now vs → IsNode names node t →
        OnOk result (Adds (IsSlot names unit form) slots.old.items slots.new.items (rule_slots (λ i dots o. template_name vs dots i o) t)) }
{
    match node {
        TreeNode::Name { ident, dots, occ } => {
            Ok(add_template_name(dots, place_at(places, ident), occ, slots)?)
        }
        TreeNode::Atom { leaf, occ } => Ok(add_atom(leaf, occ, slots)?),
        TreeNode::List { parts, dotted } => Ok(add_list(parts, dotted, slots)?),
        TreeNode::Vector { parts } => Ok(add_vector(parts, slots)?),
        TreeNode::Escape => Ok(add_node(Node::Escape, slots)?),
    }
}

/// Adds the nodes of a pattern.
fn add_pattern(
    work: &Work,
    roles: &Roles,
    places: &BTreeMap<IdNo, Variable>,
    nodes: &[TreeNode],
    slots: &mut Vec<Slot<'_>>,
) -> Mem<()>
    requires { (ts : List (ModelNode Identifier)) × AllMatch (IsNode work.now.symbols) nodes.now ts }
    ensures { (r : ModelRules Identifier) (vs : List (ModelVariable Identifier)) (unit form : ℕ) (ts : List (ModelNode Identifier)) → TellsRoles work.now.symbols roles.now r →
        TellsPlaces work.now.symbols places.now vs → AllMatch (IsNode work.now.symbols) nodes.now ts →
        OnOk result (Adds (IsSlot work.now.symbols unit form) slots.old.items slots.new.items (flat_map (rule_slots (λ i dots o. pattern_name vs (role_of identifiers r i) i o)) ts)) }
{
    for node in nodes {
        add_pattern_node(work, roles, places, *node, slots)?;
    }
    Ok(())
}

/// Adds the nodes of a template.
fn add_template(
    places: &BTreeMap<IdNo, Variable>,
    nodes: &[TreeNode],
    slots: &mut Vec<Slot<'_>>,
) -> Mem<()>
    ensures { (names : Names) (vs : List (ModelVariable Identifier)) (unit form : ℕ) (ts : List (ModelNode Identifier)) → TellsPlaces names places.now vs →
        AllMatch (IsNode names) nodes.now ts →
        OnOk result (Adds (IsSlot names unit form) slots.old.items slots.new.items (flat_map (rule_slots (λ i dots o. template_name vs dots i o)) ts)) }
{
    for node in nodes {
        add_template_node(places, *node, slots)?;
    }
    Ok(())
}

/// Adds a rule: its pattern, and then its template.
fn add_rule(
    alloc: Global,
    work: &Work,
    roles: &Roles,
    rule: Rule,
    slots: &mut Vec<Slot<'_>>,
) -> Mem<()>
    requires tells { (r : ModelRules Identifier) × TellsRoles work.now.symbols roles.now r }
    requires rule { (m : ModelRule Identifier) × IsRule work.now rule m }
    ensures { (r : ModelRules Identifier) (unit form : ℕ) (m : ModelRule Identifier) → TellsRoles work.now.symbols roles.now r → IsRule work.now rule m →
        OnOk result (Adds (IsSlot work.now.symbols unit form) slots.old.items slots.new.items (slots_of_rule r m)) }
{
    work.symbols.told_apart();
    let mut pattern = Vec::new(alloc);
    pattern_nodes(work, roles, rule.pattern, &mut pattern)?;
    let variables = variables_of(alloc, work, roles, pattern.as_slice())?;
    let places = places_of(alloc, variables.as_slice())?;
    add_pattern(work, roles, &places, pattern.as_slice(), slots)?;
    let mut template = Vec::new(alloc);
    template_nodes(work, roles, rule.template, &mut template)?;
    Ok(add_template(&places, template.as_slice(), slots)?)
}

/// Adds a leaf for each of so many literals.
fn add_literals(count: usize, slots: &mut Vec<Slot<'_>>) -> Mem<()>
    ensures { (names : Names) (unit form : ℕ) → OnOk result (Adds (IsSlot names unit form) slots.old.items slots.new.items (literals count)) }
{
    for k in 0..count {
        slots.push(Slot::Leaf(Node::RuleLiteral))?;
    }
    Ok(())
}

/// Adds whether there is an ellipsis of its own, and how many literals and rules.
fn add_heading(own: bool, literals: usize, rules: usize, slots: &mut Vec<Slot<'_>>) -> Mem<()>
    ensures { (names : Names) (unit form : ℕ) → OnOk result (Adds (IsSlot names unit form) slots.old.items slots.new.items (heading own literals rules)) }
{
    add_node(Node::Rules, slots)?;
    add_number(truth_number(own), slots)?;
    add_number(literals, slots)?;
    Ok(add_number(rules, slots)?)
}

/// Adds rule by rule pattern and template.
fn add_all_rules(
    alloc: Global,
    work: &Work,
    roles: &Roles,
    rules: &[Rule],
    slots: &mut Vec<Slot<'_>>,
) -> Mem<()>
    requires tells { (r : ModelRules Identifier) × TellsRoles work.now.symbols roles.now r }
    requires rules { (ms : List (ModelRule Identifier)) × AreRules work.now rules.now ms }
    ensures { (r : ModelRules Identifier) (unit form : ℕ) (ms : List (ModelRule Identifier)) → TellsRoles work.now.symbols roles.now r → AreRules work.now rules.now ms →
        OnOk result (Adds (IsSlot work.now.symbols unit form) slots.old.items slots.new.items (flat_map (slots_of_rule r) ms)) }
{
    for rule in rules {
        add_rule(alloc, work, roles, *rule, slots)?;
    }
    Ok(())
}

/// What tells the roles of the identifiers of rules.
fn roles_of(alloc: Global, rules: &Rules) -> Mem<Roles>
    ensures { IfOk result (λ roles. AreRolesOf roles rules.now.ellipsis rules.now.literals) }
{
    Ok(Roles::of(alloc, rules.ellipsis, rules.literals.as_slice())?)
}

/// Adds the heading of rules, and a leaf for each literal of their list.
fn add_front(rules: &Rules, slots: &mut Vec<Slot<'_>>) -> Mem<()>
    ensures { (names : Names) (unit form : ℕ) → OnOk result (Adds (IsSlot names unit form) slots.old.items slots.new.items
        (heading (is_some rules.now.ellipsis) (length rules.now.literals) (length rules.now.rules) ++ literals (length rules.now.literals))) }
{
    let own = rules.ellipsis.is_some();
    let listed = rules.literals.as_slice();
    let all = rules.rules.as_slice();
    add_heading(own, listed.len(), all.len(), slots)?;
    Ok(add_literals(listed.len(), slots)?)
}

/// The slots of rules: their heading, the literals, and then the rules.
pub fn slots_of<'a>(alloc: Global, work: &Work, rules: &Rules) -> Mem<Vec<Slot<'a>>>
    requires { (r : ModelRules Identifier) × RulesFor work.now rules.now r }
    ensures { (unit form : ℕ) (r : ModelRules Identifier) → RulesFor work.now rules.now r →
        IfOk result (λ slots. AllMatch (IsSlot work.now.symbols unit form) slots.items (model_slots r)) }
{
    let mut slots = Vec::new(alloc);
    add_front(rules, &mut slots)?;
    let roles = roles_of(alloc, rules)?;
    add_all_rules(alloc, work, &roles, rules.rules.as_slice(), &mut slots)?;
    Ok(slots)
}
