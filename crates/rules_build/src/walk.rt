//! The plan of a template's instance (R7RS 4.3.2).
ghost use Rattle.std.specs.Prelude.{◌≡◌, ◌++◌, ◌≤◌, ℕ, Bool, true, List, [], Option, Some, Ok, length, IsSome, IfOk, OnOk};
ghost use Rattle.scheme_model.specs.declared.Occ.{Occ as AnyOcc};
ghost use Rattle.scheme_model.specs.Identifiers.{Number};
ghost use Rattle.scheme_model.specs.Trees.{Tree as ModelTree, name, Trees, no_trees, Tail};
ghost use Rattle.scheme_model.specs.TreeParts.{occ_of};
ghost use Rattle.scheme_model.specs.RulesShape.{Rules as ModelRules, is_dots, starts_dots, leading};
ghost use Rattle.scheme_model.specs.Matching.{Binding as ModelBinding, Values, behind};
ghost use Rattle.scheme_model.specs.Building.{Built, value_of, used_in, build_tree, build_parts, repeated, is_escape, alone, list_built};
ghost use Rattle.scheme_model.specs.Ident.{Ident as Identifier, same_ident};
ghost use Rattle.syntax_tree.specs.Looks.{StandsWithin, PartsWithin, PartsStand, EndStands, AreStanding, EndIsStanding};
ghost use Rattle.syntax_tree.specs.Macros.{IsIdent, TellsRoles};
ghost use Rattle.syntax_tree.specs.Works.{StandsFor, IsStanding, CanName};
ghost use Rattle.syntax_tree.specs.declared.trees.table.Region.{Region};
ghost use Rattle.syntax_tree.specs.declared.trees.Work.{Work as AnyWork};
ghost use Rattle.rules_build.specs.Values.{AreBound, AreValuesOf, IsFound, IsIndexOf};
ghost use Rattle.rules_build.specs.declared.values.Bound.{Bound as AnyBound};
ghost use Rattle.rules_build.specs.Drafts.{spent, Draft, Drafts, IsDraft, AreDrafts, IsPlanOf, ArePlansOf, CanStand, IsEndedBy, IsEndOf};
ghost use Rattle.rules_build.specs.Builds.{inserting, dots_where, one_row, IsRow, Plans, PlansAll, Knows, HasBound};

use crate::BuildFault;
use crate::index::{Index, index_of, only_value, value_of};
use crate::plan::{End, Plan, spend};
use crate::used::used_in;
use crate::values::{Bound, Value, bound_by, first_place, later_places, places_of};
use ls_base::{Mem, Memory};
use scheme_model::Occ;
use std::alloc::Global;
use syntax_tree::look::{Look, look_at};
use syntax_tree::rules::{Binding, Roles};
use syntax_tree::symbols::IdNo;
use syntax_tree::trees::{Node, Tree, Work};

/// What the walk takes: the trees, and the roles of the identifiers of the template.
#[derive(Clone, Copy)]
pub struct Walk<'a> {
    pub alloc: Global,
    pub work: &'a Work,
    pub roles: &'a Roles,
}

impl Walk<'_> {
    /// The plan of a template that is at most `left` nodes deep. In an escape ellipses are identifiers. What the plan counts is
    /// taken from `room`, and where that is not enough the plan is of no use, but lengths are still compared.
    #[cycle(walk)]
    pub fn tree(
        &self,
        template: Tree,
        escaped: bool,
        bounds: &[Bound],
        index: &Index,
        left: u32,
        room: &mut Option<u32>,
    ) -> Result<Plan, BuildFault>
        requires roles { Knows self.now }
        requires template { StandsWithin self.now.work.now template left }
        requires bounds { HasBound self.now bounds.now }
        requires index { IsIndexOf bounds.now index.now }
        ensures { (r : ModelRules Identifier) (region : Region) (k : Number) (t : ModelTree Identifier) (ms : List (ModelBinding Identifier Identifier)) →
            TellsRoles self.now.work.now.symbols self.now.roles.now r → StandsFor self.now.work.now template t → AreBound self.now.work.now region bounds.now ms →
            Plans self.now.work.now region k room.old room.new (build_tree (inserting k) (dots_where escaped r) t ms) result }
    {
        match look_at(self.work, template) {
            Look::Name(id) => Ok(self.name(template, id, index, room)),
            Look::Atom(leaf) => {
                *room = spend(*room, 1);
                Ok(Plan::Atom(leaf))
            }
            Look::Vector(items) => {
                let mut plans = Vec::with_capacity(self.alloc, items.len())?;
                self.parts(items, escaped, bounds, index, left - 1, room, &mut plans)?;
                *room = spend(*room, 1);
                Ok(Plan::Vector(plans))
            }
            Look::List(items, end) => {
                if self.is_escape(items, end, escaped) {
                    return Ok(self.tree(items[1], true, bounds, index, left - 1, room)?);
                }
                let mut plans = Vec::with_capacity(self.alloc, items.len())?;
                self.parts(items, escaped, bounds, index, left - 1, room, &mut plans)?;
                match end {
                    None => {
                        *room = spend(*room, 1);
                        Ok(Plan::List(plans, End::Proper))
                    }
                    Some(tail) => {
                        let last = self.tree(tail, escaped, bounds, index, left - 1, room)?;
                        Ok(self.joined(plans, last, room)?)
                    }
                }
            }
        }
    }

    /// Adds the plans of the parts of a list or a vector. An ellipsis itself is no part.
    #[cycle(walk)]
    fn parts(
        &self,
        items: &[Tree],
        escaped: bool,
        bounds: &[Bound],
        index: &Index,
        left: u32,
        room: &mut Option<u32>,
        plans: &mut Vec<Plan>,
    ) -> Result<(), BuildFault>
        requires roles { Knows self.now }
        requires items { PartsWithin self.now.work.now items.now left }
        requires bounds { HasBound self.now bounds.now }
        requires index { IsIndexOf bounds.now index.now }
        ensures { (r : ModelRules Identifier) (region : Region) (k : Number) (ts : Trees Identifier) (ms : List (ModelBinding Identifier Identifier)) →
            TellsRoles self.now.work.now.symbols self.now.roles.now r → PartsStand self.now.work.now items.now ts → AreBound self.now.work.now region bounds.now ms →
            PlansAll self.now.work.now region k room.old room.new plans.old.items plans.new.items (build_parts (inserting k) (dots_where escaped r) ts ms) result }
    {
        let mut dots = self.dots_at(items, 0, escaped);
        for k in 0..items.len() {
            let follows = self.dots_at(items, k + 1, escaped);
            if !dots {
                let times = self.leading(items, k + 1, escaped, follows);
                self.part(times, items[k], escaped, bounds, index, left, room, plans)?;
            }
            dots = follows;
        }
        Ok(())
    }

    /// Adds the plans of a part under so many ellipses, of the variables that stand in it.
    #[cycle(walk)]
    fn part(
        &self,
        times: usize,
        template: Tree,
        escaped: bool,
        bounds: &[Bound],
        index: &Index,
        left: u32,
        room: &mut Option<u32>,
        plans: &mut Vec<Plan>,
    ) -> Result<(), BuildFault>
        requires roles { Knows self.now }
        requires template { StandsWithin self.now.work.now template left }
        requires bounds { HasBound self.now bounds.now }
        requires index { IsIndexOf bounds.now index.now }
        ensures { (r : ModelRules Identifier) (region : Region) (k : Number) (t : ModelTree Identifier) (ms : List (ModelBinding Identifier Identifier)) →
            TellsRoles self.now.work.now.symbols self.now.roles.now r → StandsFor self.now.work.now template t → AreBound self.now.work.now region bounds.now ms →
            PlansAll self.now.work.now region k room.old room.new plans.old.items plans.new.items
            (repeated times (build_tree (inserting k) (dots_where escaped r) t) (used_in same_ident t ms)) result }
    {
        if times == 0 {
            let plan = self.tree(template, escaped, bounds, index, left, room)?;
            return Ok(keep(*room, plan, plans)?);
        }
        match self.row_under(times, template, index) {
            Some(row) => Ok(self.add_values(template, row.0, row.1, room, plans)?),
            None => Ok(self.each_place(
                times, template, escaped, bounds, index, left, room, plans,
            )?),
        }
    }

    /// The same under some ellipses, at each of their places.
    #[cycle(walk)]
    fn each_place(
        &self,
        times: usize,
        template: Tree,
        escaped: bool,
        bounds: &[Bound],
        index: &Index,
        left: u32,
        room: &mut Option<u32>,
        plans: &mut Vec<Plan>,
    ) -> Result<(), BuildFault>
        requires roles { Knows self.now }
        requires template { StandsWithin self.now.work.now template left }
        requires bounds { HasBound self.now bounds.now }
        requires index { IsIndexOf bounds.now index.now }
        ensures { (r : ModelRules Identifier) (region : Region) (k : Number) (t : ModelTree Identifier) (ms : List (ModelBinding Identifier Identifier)) →
            TellsRoles self.now.work.now.symbols self.now.roles.now r → StandsFor self.now.work.now template t → AreBound self.now.work.now region bounds.now ms →
            PlansAll self.now.work.now region k room.old room.new plans.old.items plans.new.items
            (repeated times (build_tree (inserting k) (dots_where escaped r) t) (used_in same_ident t ms)) result }
    {
        let used = used_in(self.alloc, self.work, template, left, bounds, index)?;
        let places = index_of(self.alloc, &used)?;
        Ok(self.repeated(times, template, escaped, &used, &places, left, room, plans)?)
    }

    /// Adds the plans of a template under so many ellipses, the last of which is the outermost.
    #[cycle(walk)]
    fn repeated(
        &self,
        times: usize,
        template: Tree,
        escaped: bool,
        bounds: &[Bound],
        index: &Index,
        left: u32,
        room: &mut Option<u32>,
        plans: &mut Vec<Plan>,
    ) -> Result<(), BuildFault>
        requires roles { Knows self.now }
        requires template { StandsWithin self.now.work.now template left }
        requires bounds { HasBound self.now bounds.now }
        requires index { IsIndexOf bounds.now index.now }
        ensures { (r : ModelRules Identifier) (region : Region) (k : Number) (t : ModelTree Identifier) (ms : List (ModelBinding Identifier Identifier)) →
            TellsRoles self.now.work.now.symbols self.now.roles.now r → StandsFor self.now.work.now template t → AreBound self.now.work.now region bounds.now ms →
            PlansAll self.now.work.now region k room.old room.new plans.old.items plans.new.items
            (repeated times (build_tree (inserting k) (dots_where escaped r) t) ms) result }
    {
        if times == 0 {
            let plan = self.tree(template, escaped, bounds, index, left, room)?;
            return Ok(keep(*room, plan, plans)?);
        }
        let places = places_of(bounds)?;
        let mut here = copied(self.alloc, bounds)?;
        for _place in 0..places {
            let first = first_place(self.alloc, &here)?;
            let names = index_of(self.alloc, &first)?;
            self.repeated(
                times - 1,
                template,
                escaped,
                &first,
                &names,
                left,
                room,
                plans,
            )?;
            here = later_places(self.alloc, &here)?;
        }
        Ok(())
    }

    /// The plan of an identifier: what the variable stands for, or the identifier, which the use is to mark.
    #[inline(always)]
    fn name(&self, template: Tree, id: IdNo, index: &Index, room: &mut Option<u32>) -> Plan
        requires template { IsStanding self.now.work.now template }
        ensures { (region : Region) (k : Number) (dots : Identifier → Bool) (i : Identifier) (o : Option AnyOcc) (bounds : List AnyBound) (ms : List (ModelBinding Identifier Identifier)) →
            StandsFor self.now.work.now template (name i o) → IsIdent self.now.work.now.symbols id i → IsIndexOf bounds index.now → AreBound self.now.work.now region bounds ms →
            Plans self.now.work.now region k room.old room.new (build_tree (inserting k) dots (name i o) ms) (Ok result) }
    {
        self.work.symbols.told_apart();
        *room = spend(*room, 1);
        match value_of(index, id) {
            None => Plan::Name(id, place_of(self.work, template)),
            Some(value) => self.valued(template, id, value),
        }
    }

    /// The plan of an identifier that stands for this.
    fn valued(&self, template: Tree, id: IdNo, value: Value) -> Plan
        requires template { IsStanding self.now.work.now template }
        ensures { (region : Region) (k : Number) (dots : Identifier → Bool) (i : Identifier) (o : Option AnyOcc) (ms : List (ModelBinding Identifier Identifier)) (room : Option ℕ) →
            StandsFor self.now.work.now template (name i o) → IsIdent self.now.work.now.symbols id i → IsFound self.now.work.now region (Some value.entry) (value_of same_ident ms i) →
            Plans self.now.work.now region k room (spent room 1) (build_tree (inserting k) dots (name i o) ms) (Ok result) }
    {
        match value {
            Value::Many(_) => Plan::Name(id, place_of(self.work, template)),
            Value::One(tree) => Plan::Held(tree),
            Value::Rest(list, from) => Plan::List(Vec::new(self.alloc), End::Behind(list, from)),
        }
    }

    /// The values of a part that is a variable under one ellipsis, with the variable, where it is bound once and to several.
    fn row_under<'b>(
        &self,
        times: usize,
        template: Tree,
        index: &Index<'b>,
    ) -> Option<(IdNo, &'b [Binding])>
        requires template { IsStanding self.now.work.now template }
        ensures { (region : Region) (t : ModelTree Identifier) (bounds : List AnyBound) (ms : List (ModelBinding Identifier Identifier)) →
            StandsFor self.now.work.now template t → IsIndexOf bounds index.now → AreBound self.now.work.now region bounds ms →
            IsRow self.now.work.now region times t ms result }
    {
        if times == 1 {
            return self.row(template, index);
        }
        None
    }

    /// The same under one ellipsis.
    fn row<'b>(&self, template: Tree, index: &Index<'b>) -> Option<(IdNo, &'b [Binding])>
        requires template { IsStanding self.now.work.now template }
        ensures { (region : Region) (t : ModelTree Identifier) (bounds : List AnyBound) (ms : List (ModelBinding Identifier Identifier)) →
            StandsFor self.now.work.now template t → IsIndexOf bounds index.now → AreBound self.now.work.now region bounds ms →
            IsRow self.now.work.now region 1 t ms result }
    {
        self.work.symbols.told_apart();
        match look_at(self.work, template) {
            Look::Name(id) => match only_value(index, id) {
                Some(Value::Many(values)) => Some((id, values)),
                Some(Value::One(_)) => None,
                Some(Value::Rest(_, _)) => None,
                None => None,
            },
            Look::Atom(_) => None,
            Look::Vector(_) => None,
            Look::List(_, _) => None,
        }
    }

    /// Adds the plans of the values of a variable.
    fn add_values(
        &self,
        template: Tree,
        id: IdNo,
        values: &[Binding],
        room: &mut Option<u32>,
        plans: &mut Vec<Plan>,
    ) -> Mem<()>
        requires template { IsStanding self.now.work.now template }
        ensures { (region : Region) (k : Number) (dots : Identifier → Bool) (i : Identifier) (o : Option AnyOcc) (j : Identifier) (vs : Values Identifier) →
            StandsFor self.now.work.now template (name i o) → IsIdent self.now.work.now.symbols id i → same_ident j i ≡ true → AreValuesOf self.now.work.now region values.now vs →
            OnOk result (PlansAll self.now.work.now region k room.old room.new plans.old.items plans.new.items
            (repeated 1 (build_tree (inserting k) dots (name i o)) (one_row j vs)) (Ok tt)) }
    {
        for binding in values {
            *room = spend(*room, 1);
            let plan = self.valued(template, id, bound_by(binding).value);
            keep(*room, plan, plans)?;
        }
        Ok(())
    }

    /// A list with a tail. Where its parts all vanish it is the tail itself.
    fn joined(&self, parts: Vec<Plan>, last: Plan, room: &mut Option<u32>) -> Mem<Plan>
        requires { IsSome room.old → CanStand self.now.work.now last }
        ensures { (region : Region) (k : Number) (first : Option ℕ) (us : Built (Trees Identifier)) (t : Built (ModelTree Identifier)) →
            (us.value ≡ no_trees → us.count ≡ 0) → room.old ≡ spent (spent first us.count) t.count → (IsSome room.old → ArePlansOf self.now.work.now region k [] parts.items us) →
            (IsSome room.old → IsPlanOf self.now.work.now region k last t) →
            IfOk result (λ plan. Plans self.now.work.now region k first room.new (Some (list_built us (Some t))) (Ok plan)) }
    {
        if room.is_none() {
            return Ok(last);
        }
        if parts.is_empty() {
            return Ok(last);
        }
        *room = spend(*room, 1);
        let mut all = parts;
        let end = self.behind(&mut all, last)?;
        Ok(Plan::List(all, end))
    }

    /// What comes behind the parts of a list with this tail. The parts of a tail that is a list are added to them.
    fn behind(&self, parts: &mut Vec<Plan>, last: Plan) -> Mem<End>
        requires { CanStand self.now.work.now last }
        ensures { (region : Region) (k : Number) (ds : Drafts) (d : Draft) →
            AreDrafts self.now.work.now region parts.old.items ds → IsDraft self.now.work.now region last d →
            IfOk result (λ end. IsEndedBy self.now.work.now region k ds d parts.new.items end) }
    {
        match last {
            Plan::List(items, end) => {
                add_plans(parts, items)?;
                Ok(end)
            }
            Plan::Held(tree) => Ok(self.behind_held(tree)?),
            Plan::Name(id, occ) => Ok(End::Dotted(Box::new(self.alloc, Plan::Name(id, occ))?)),
            Plan::Atom(leaf) => Ok(End::Dotted(Box::new(self.alloc, Plan::Atom(leaf))?)),
            Plan::Vector(items) => Ok(End::Dotted(Box::new(self.alloc, Plan::Vector(items))?)),
        }
    }

    /// The same for a tail that is there.
    fn behind_held(&self, tree: Tree) -> Mem<End>
        requires { IsStanding self.now.work.now tree }
        ensures { (region : Region) (k : Number) (t : ModelTree Identifier) → StandsFor self.now.work.now tree t →
            CanName self.now.work.now region tree → IfOk result (λ end. IsEndOf self.now.work.now region k t end) }
    {
        match look_at(self.work, tree) {
            Look::List(_, _) => Ok(End::Behind(tree, 0)),
            Look::Name(_) => Ok(End::Dotted(Box::new(self.alloc, Plan::Held(tree))?)),
            Look::Atom(_) => Ok(End::Dotted(Box::new(self.alloc, Plan::Held(tree))?)),
            Look::Vector(_) => Ok(End::Dotted(Box::new(self.alloc, Plan::Held(tree))?)),
        }
    }

    /// Whether a part is an ellipsis.
    #[inline(always)]
    fn is_dots(&self, tree: Tree, escaped: bool) -> bool
        requires { IsStanding self.now.work.now tree }
        ensures { (r : ModelRules Identifier) (t : ModelTree Identifier) → TellsRoles self.now.work.now.symbols self.now.roles.now r →
            StandsFor self.now.work.now tree t → result ≡ is_dots (dots_where escaped r) t }
    {
        !escaped && self.roles.is_dots(self.work, tree)
    }

    /// Whether an ellipsis stands at a place.
    #[inline(always)]
    fn dots_at(&self, items: &[Tree], k: usize, escaped: bool) -> bool
        requires { AreStanding self.now.work.now items.now }
        ensures { (r : ModelRules Identifier) (ts : Trees Identifier) → TellsRoles self.now.work.now.symbols self.now.roles.now r →
            PartsStand self.now.work.now items.now ts → result ≡ starts_dots (dots_where escaped r) (behind k ts) }
    {
        if escaped {
            return false;
        }
        self.roles.dots_at(self.work, items, k)
    }

    /// How many ellipses stand in a row from a place on, where it is known whether one stands there.
    #[inline(always)]
    fn leading(&self, items: &[Tree], from: usize, escaped: bool, first: bool) -> usize
        requires items { AreStanding self.now.work.now items.now }
        requires from { from ≤ length items.now }
        ensures { (r : ModelRules Identifier) (ts : Trees Identifier) → TellsRoles self.now.work.now.symbols self.now.roles.now r →
            PartsStand self.now.work.now items.now ts → first ≡ starts_dots (dots_where escaped r) (behind from ts) →
            result ≡ leading (dots_where escaped r) (behind from ts) }
    {
        let mut dots = first;
        let mut count = 0;
        for k in from..items.len() {
            if !dots {
                return count;
            }
            count += 1;
            dots = self.dots_at(items, k + 1, escaped);
        }
        count
    }

    /// Whether a list is `(... template)`.
    #[inline(always)]
    fn is_escape(&self, items: &[Tree], end: Option<Tree>, escaped: bool) -> bool
        requires items { AreStanding self.now.work.now items.now }
        requires end { EndIsStanding self.now.work.now end }
        ensures { (r : ModelRules Identifier) (ts : Trees Identifier) (tail : Tail Identifier) → TellsRoles self.now.work.now.symbols self.now.roles.now r →
            PartsStand self.now.work.now items.now ts → EndStands self.now.work.now end tail → result ≡ is_escape (dots_where escaped r) ts tail }
    {
        items.len() == 2 && end.is_none() && self.is_dots(items[0], escaped)
    }
}

/// Adds plans to others.
fn add_plans(parts: &mut Vec<Plan>, items: Vec<Plan>) -> Mem<()>
    ensures { OnOk result (parts.new.items ≡ parts.old.items ++ items.items) }
{
    for item in items {
        parts.push(item)?;
    }
    Ok(())
}

/// Adds a plan, where there was room for it.
#[inline(always)]
fn keep(room: Option<u32>, plan: Plan, plans: &mut Vec<Plan>) -> Mem<()>
    ensures { (work : AnyWork) (region : Region) (k : Number) (b : Built (ModelTree Identifier)) → (IsSome room → IsPlanOf work region k plan b) →
        OnOk result (IsSome room → ArePlansOf work region k plans.old.items plans.new.items (alone b)) }
{
    if room.is_some() {
        plans.push(plan)?;
    }
    Ok(())
}

/// The place of a tree.
fn place_of(work: &Work, tree: Tree) -> Option<Occ>
    requires { IsStanding work.now tree }
    ensures { (t : ModelTree Identifier) → StandsFor work.now tree t → result ≡ occ_of t }
{
    match work.node(tree) {
        Node::Atom { occ, .. } => *occ,
        Node::List { occ, .. } => *occ,
        Node::Vector { occ, .. } => *occ,
    }
}

/// The same bounds.
fn copied<'a>(alloc: Global, bounds: &[Bound<'a>]) -> Mem<Vec<Bound<'a>>>
    ensures { IfOk result (λ copy. copy.items ≡ bounds.now) }
{
    let mut copy = Vec::with_capacity(alloc, bounds.len())?;
    for bound in bounds {
        copy.push(*bound)?;
    }
    Ok(copy)
}
