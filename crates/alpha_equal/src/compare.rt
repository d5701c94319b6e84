//! Two lists of points, compared point by point, with the locals that binders paired so far.
ghost use Rattle.std.specs.Prelude.{◌≡◌, ℕ, ◌++◌, ◌==◌, List, [], ◌∷◌, IfOk, OnOk, Option, Bool};
ghost use Rattle.std.specs.Str.{bytes_eq};
ghost use Rattle.std.specs.List.{zip};
ghost use Rattle.std.specs.BTreeSet.{contains};
ghost use Rattle.scheme_model.specs.declared.Occ.{Occ as AnyOcc};
ghost use Rattle.rename_model.specs.Walks.{Seen as ModelSeen, Point as ModelPoint, OfNode, OfNumber, OfName, OfDefinition, OfBinders, Spot as ModelSpot, node_number};
ghost use Rattle.scheme_model.specs.Identifiers.{Number};
ghost use Rattle.rename_model.specs.SameProgram.{Partners as ModelPartners, seen_code, agree, paired, paired_with, partner_seen, at_template, left_out, points_agree};
ghost use Rattle.rename_model.specs.Difference.{first_apart as model_apart};
ghost use Rattle.syntax_tree.specs.Names.{Names};
ghost use Rattle.syntax_tree.specs.Meant.{IsSymbol};
ghost use Rattle.core_tree.specs.Names.{AllMatch};
ghost use Rattle.alpha_equal.specs.Points.{node_as, spot_as, locals_of, IsSeen, IsTold, IsPoint, ArePair};
ghost use Rattle.alpha_equal.specs.Compared.{partners_cmp, local, ArePartners, live_at, TellsLive};

use crate::nodes::Node;
use crate::points::{Pair, Point, SHAPE, Seen, Spot, Told};
use core_tree::cores::Binder;
use ls_base::Mem;
use program_leaves::sight::Sight;
use scheme_model::Occ;
use std::alloc::Global;
use std::collections::BTreeSet;
use syntax_tree::symbols::SymNo;
use syntax_tree::trees::Work;

/// A local of the old program and one of the new, whose binders stand at the same place.
#[derive(Clone, Copy, PartialEq, Eq, PartialOrd, Ord)]
pub struct Partners {
    pub old: u64,
    pub new: u64,
}

/// Whether a node of a kind is seen.
fn is_node(kind: Node, seen: Seen<'_>) -> bool
    ensures { (names : Names) (unit form : ℕ) (s : ModelSeen) → IsSeen names unit form seen.entry s →
        result ≡ bytes_eq (seen_code (OfNode (node_as kind))) (seen_code s) }
{
    match seen {
        Seen::Node(other) => kind.number() == other.number(),
        Seen::Number(_) => false,
        Seen::Name(_, _) => false,
        Seen::Defined { unit: _, number: _ } => false,
        Seen::Local(_) => false,
        Seen::Binders(_, _) => false,
    }
}

/// Whether a number is seen.
fn is_number(number: u64, seen: Seen<'_>) -> bool
    ensures { (names : Names) (unit form : ℕ) (s : ModelSeen) → IsSeen names unit form seen.entry s →
        result ≡ bytes_eq (seen_code (OfNumber number)) (seen_code s) }
{
    match seen {
        Seen::Node(_) => false,
        Seen::Number(other) => number == other,
        Seen::Name(_, _) => false,
        Seen::Defined { unit: _, number: _ } => false,
        Seen::Local(_) => false,
        Seen::Binders(_, _) => false,
    }
}

/// Whether a name of a kind is seen.
fn is_name(work: &Work, kind: Node, symbol: SymNo, seen: Seen<'_>) -> bool
    ensures { (unit form : ℕ) (text : List ℕ) (s : ModelSeen) → IsSymbol work.now.symbols symbol text → IsSeen work.now.symbols unit form seen.entry s →
        result ≡ bytes_eq (seen_code (OfName (node_as kind) text)) (seen_code s) }
{
    work.symbols.told_apart();
    match seen {
        Seen::Node(_) => false,
        Seen::Number(_) => false,
        Seen::Name(other, second) => kind.number() == other.number() && symbol == second,
        Seen::Defined { unit: _, number: _ } => false,
        Seen::Local(_) => false,
        Seen::Binders(_, _) => false,
    }
}

/// Whether two numbers of definitions are the same, or there are none.
fn is_same_number(one: Option<u64>, other: Option<u64>) -> bool
    ensures { (unit : ℕ) → result ≡ bytes_eq (seen_code (OfDefinition unit one)) (seen_code (OfDefinition unit other)) }
{
    match one {
        None => other.is_none(),
        Some(n) => match other {
            None => false,
            Some(m) => n == m,
        },
    }
}

/// Whether a definition of a unit is seen.
fn is_definition(unit: u32, number: Option<u64>, seen: Seen<'_>) -> bool
    ensures { (names : Names) (in_unit form : ℕ) (s : ModelSeen) → IsSeen names in_unit form seen.entry s →
        result ≡ bytes_eq (seen_code (OfDefinition unit number)) (seen_code s) }
{
    match seen {
        Seen::Node(_) => false,
        Seen::Number(_) => false,
        Seen::Name(_, _) => false,
        Seen::Defined {
            unit: other,
            number: second,
        } => unit == other && is_same_number(number, second),
        Seen::Local(_) => false,
        Seen::Binders(_, _) => false,
    }
}

/// Whether two locals are partners.
fn has_partners(old: u64, new: u64, partners: &BTreeSet<Partners>) -> bool
    ensures { result ≡ contains partners_cmp partners.now (record { old = old; new = new }) }
{
    partners.contains(&Partners { old, new })
}

/// Whether a partner of a local is seen.
fn is_partner(number: u64, seen: Seen<'_>, partners: &BTreeSet<Partners>) -> bool
    ensures { (names : Names) (unit form : ℕ) (ps : ModelPartners) (s : ModelSeen) → ArePartners unit form partners.now ps →
        IsSeen names unit form seen.entry s → result ≡ partner_seen ps (local unit form number) s }
{
    match seen {
        Seen::Node(_) => false,
        Seen::Number(_) => false,
        Seen::Name(_, _) => false,
        Seen::Defined { unit: _, number: _ } => false,
        Seen::Local(other) => has_partners(number, other, partners),
        Seen::Binders(_, _) => false,
    }
}

/// Whether binders are seen, of whatever kind.
fn are_binders(seen: Seen<'_>) -> bool
    ensures { (names : Names) (unit form : ℕ) (s : ModelSeen) → IsSeen names unit form seen.entry s →
        result ≡ bytes_eq (5 ∷ []) (seen_code s) }
{
    match seen {
        Seen::Node(_) => false,
        Seen::Number(_) => false,
        Seen::Name(_, _) => false,
        Seen::Defined { unit: _, number: _ } => false,
        Seen::Local(_) => false,
        Seen::Binders(_, _) => true,
    }
}

/// Whether the same is seen in both programs.
pub fn agrees(work: &Work, old: Seen<'_>, new: Seen<'_>, partners: &BTreeSet<Partners>) -> bool
    ensures { (unit form : ℕ) (ps : ModelPartners) (o n : ModelSeen) → ArePartners unit form partners.now ps →
        IsSeen work.now.symbols unit form old.entry o → IsSeen work.now.symbols unit form new.entry n → result ≡ agree ps o n }
{
    match old {
        Seen::Node(kind) => is_node(kind, new),
        Seen::Number(number) => is_number(number, new),
        Seen::Name(kind, symbol) => is_name(work, kind, symbol, new),
        Seen::Defined { unit, number } => is_definition(unit, number, new),
        Seen::Local(number) => is_partner(number, new, partners),
        Seen::Binders(_, _) => are_binders(new),
    }
}

/// Whether a place is a live occurrence.
fn is_live_in(sight: &Sight<'_>, place: Option<Occ>) -> bool
    ensures { result ≡ live_at sight.now place }
{
    match place {
        None => false,
        Some(occ) => sight.live.contains(&occ),
    }
}

/// Whether a point is an identifier of a template that is live.
fn is_left_out(live: &Option<Sight<'_>>, told: Told<'_>) -> bool
    ensures { (names : Names) (unit form : ℕ) (is_live : Option AnyOcc → Bool) (p : ModelPoint) → TellsLive live.now is_live →
        IsTold names unit form told.entry p → result ≡ left_out is_live p }
{
    match told.spot {
        Spot::Template => match live {
            None => false,
            Some(sight) => is_live_in(sight, told.occ),
        },
        Spot::Use => false,
        Spot::Quoted => false,
        Spot::Rule => false,
        Spot::Export => false,
        Spot::Errors => false,
        Spot::Shape => false,
    }
}

/// Whether two points agree.
fn agree_at(
    work: &Work,
    live: &Option<Sight<'_>>,
    old: Point<'_>,
    new: Point<'_>,
    partners: &BTreeSet<Partners>,
) -> bool
    ensures { (unit form : ℕ) (is_live : Option AnyOcc → Bool) (ps : ModelPartners) (o n : ModelPoint) → TellsLive live.now is_live →
        ArePartners unit form partners.now ps → IsPoint work.now.symbols unit form old.entry o → IsPoint work.now.symbols unit form new.entry n →
        result ≡ points_agree is_live ps o n }
{
    is_left_out(live, old.told) || agrees(work, old.seen, new.seen, partners)
}

/// Pairs the locals of binders in their order.
fn pair(old: &[Binder], new: &[Binder], partners: &mut BTreeSet<Partners>) -> Mem<()>
    ensures { (unit form : ℕ) (ps : ModelPartners) → ArePartners unit form partners.old ps →
        OnOk result (ArePartners unit form partners.new (zip (locals_of unit form old.now) (locals_of unit form new.now) ++ ps)) }
{
    for k in 0..old.len().min(new.len()) {
        partners.insert(Partners {
            old: old[k].number,
            new: new[k].number,
        })?;
    }
    Ok(())
}

/// Pairs the locals of binders with those that are seen, where these are of the same kind.
fn pair_with(
    kind: Node,
    binders: &[Binder],
    seen: Seen<'_>,
    partners: &mut BTreeSet<Partners>,
) -> Mem<()>
    ensures { (names : Names) (unit form : ℕ) (ps : ModelPartners) (s : ModelSeen) → ArePartners unit form partners.old ps → IsSeen names unit form seen.entry s →
        OnOk result (ArePartners unit form partners.new (paired_with (node_as kind) (locals_of unit form binders.now) s ++ ps)) }
{
    match seen {
        Seen::Node(_) => Ok(()),
        Seen::Number(_) => Ok(()),
        Seen::Name(_, _) => Ok(()),
        Seen::Defined { unit: _, number: _ } => Ok(()),
        Seen::Local(_) => Ok(()),
        Seen::Binders(other, second) => {
            if kind.number() == other.number() {
                return Ok(pair(binders, second, partners)?);
            }
            Ok(())
        }
    }
}

/// Pairs the locals that are bound at two points.
fn pair_at(old: Seen<'_>, new: Seen<'_>, partners: &mut BTreeSet<Partners>) -> Mem<()>
    ensures { (names : Names) (unit form : ℕ) (ps : ModelPartners) (o n : ModelSeen) → ArePartners unit form partners.old ps →
        IsSeen names unit form old.entry o → IsSeen names unit form new.entry n →
        OnOk result (ArePartners unit form partners.new (paired o n ++ ps)) }
{
    match old {
        Seen::Node(_) => Ok(()),
        Seen::Number(_) => Ok(()),
        Seen::Name(_, _) => Ok(()),
        Seen::Defined { unit: _, number: _ } => Ok(()),
        Seen::Local(_) => Ok(()),
        Seen::Binders(kind, binders) => Ok(pair_with(kind, binders, new, partners)?),
    }
}

/// The first two points that don't agree. A point that only one list has is told as one of the shape.
pub fn first_apart<'a>(
    alloc: Global,
    work: &Work,
    live: &Option<Sight<'_>>,
    old: &[Point<'a>],
    new: &[Point<'a>],
) -> Mem<Option<Pair<'a>>>
    ensures { (unit form : ℕ) (is_live : Option AnyOcc → Bool) (os ns : List ModelPoint) → TellsLive live.now is_live →
        AllMatch (IsPoint work.now.symbols unit form) old.now os → AllMatch (IsPoint work.now.symbols unit form) new.now ns →
        IfOk result (λ found. ArePair work.now.symbols unit form found (model_apart is_live [] os ns)) }
{
    let mut partners = BTreeSet::new(alloc);
    for k in 0..old.len() {
        if k >= new.len() {
            return Ok(Some(Pair {
                old: SHAPE,
                new: SHAPE,
            }));
        }
        if !agree_at(work, live, old[k], new[k], &partners) {
            return Ok(Some(Pair {
                old: old[k].told,
                new: new[k].told,
            }));
        }
        pair_at(old[k].seen, new[k].seen, &mut partners)?;
    }
    if new.len() > old.len() {
        return Ok(Some(Pair {
            old: SHAPE,
            new: SHAPE,
        }));
    }
    Ok(None)
}
