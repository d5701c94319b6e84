//! The derived forms as macros (R7RS 4.2, 7.3), by the numbers of their trees.
ghost use Rattle.std.specs.Prelude.{◌≡◌, ◌+◌, ◌^◌, ◌<◌, ◌≤◌, true, Err, MatchResult, IfOk, map};
ghost use Rattle.ls_base.specs.Limits.{max_tree_depth};
ghost use Rattle.scheme_model.specs.Prelude as model;
ghost use Rattle.syntax_tree.specs.Names.{KeepsNames};
ghost use Rattle.syntax_tree.specs.Works.{IsOpened, KeepsTrees, SameRegions, AddsIn, live_count};
ghost use Rattle.base_library.specs.Macros.{Each, AreMacros, AllChecked, AllLieIn, prelude_nodes};
ghost use Rattle.base_library.specs.Sketched.{IsNamed, IsSketched, paired, sketch_size, sketches_size, all_small, Makes};

use crate::making::{UNIT, make_trees};
use crate::sketch::Sketch;
use crate::sketches::sketches;
use ls_base::{Items, Mem};
use std::alloc::Global;
use syntax_tree::rules::{Rule, Rules};
use syntax_tree::symbols::{IdNo, Ident, SymNo, Symbols};
use syntax_tree::trees::{PoolFault, Region, Tree, Work};

/// A macro of the prelude: its name and its rules.
#[derive(Drop)]
pub struct PreludeMacro {
    pub name: SymNo,
    pub rules: Rules,
}

/// Adds the macros of the prelude to a region, in order. Their rules are checked, their identifiers are written in the prelude's
/// unit, and no tree has a place. One node is added for each node of their patterns and templates. `Full` comes only where the
/// nodes that live and these are together more than 2^31. What a fault leaves of them stays.
pub fn prelude(
    alloc: Global,
    work: &mut Work,
    region: &Region,
) -> Result<Items<PreludeMacro>, PoolFault>
    requires { IsOpened work.old region.now }
    ensures macros { IfOk result (λ macros. AreMacros work.new macros model.prelude) }
    ensures checked { IfOk result (λ macros. AllChecked work.new macros) }
    ensures region { IfOk result (λ macros. AllLieIn work.new region.now macros) }
    ensures keeps { KeepsTrees work.old work.new }
    ensures added { AddsIn work.old work.new region.now }
    ensures regions { SameRegions work.old work.new }
    ensures names { KeepsNames work.old.symbols work.new.symbols }
    ensures nodes { MatchResult result (λ _. live_count work.new ≡ live_count work.old + prelude_nodes)
        (λ _. live_count work.new ≤ live_count work.old + prelude_nodes) }
    ensures full { result ≡ Err PoolFault.Full → 2 ^ 31 < live_count work.old + prelude_nodes }
{
    Ok(add_macros(alloc, work, region, sketches())?)
}

/// Adds the macros of a row of sketches.
fn add_macros(
    alloc: Global,
    work: &mut Work,
    region: &Region,
    sketches: &[Sketch],
) -> Result<Items<PreludeMacro>, PoolFault>
    requires region { IsOpened work.old region.now }
    requires small { all_small sketches.now ≡ true }
    ensures { Makes work.old work.new region.now (sketches_size sketches.now)
        (λ macros. Each (IsSketched work.new region.now) macros sketches.now) result }
{
    let mut macros = Items::new(alloc);
    for sketch in sketches {
        let made = add_macro(alloc, work, region, sketch)?;
        macros.push(made)?;
    }
    Ok(macros)
}

/// Adds the macro of a sketch.
fn add_macro(
    alloc: Global,
    work: &mut Work,
    region: &Region,
    sketch: &Sketch,
) -> Result<PreludeMacro, PoolFault>
    requires region { IsOpened work.old region.now }
    requires small { sketch_size sketch.now ≤ max_tree_depth }
    ensures { Makes work.old work.new region.now (sketch_size sketch.now) (λ made. IsSketched work.new region.now made sketch.now) result }
{
    let trees = make_trees(alloc, work, region, sketch.steps)?;
    let rules = rules_of(alloc, &trees)?;
    let literals = literals_of(alloc, &mut work.symbols, sketch.literals)?;
    let name = work.symbols.symbol(sketch.name)?;
    Ok(PreludeMacro {
        name,
        rules: Rules {
            ellipsis: None,
            literals,
            rules,
        },
    })
}

/// The rules of a row of patterns and templates, each template behind its pattern.
fn rules_of(alloc: Global, trees: &[Tree]) -> Mem<Items<Rule>>
    ensures { IfOk result (λ rules. rules ≡ paired trees.now) }
{
    let mut rules = Items::new(alloc);
    for k in 0..trees.len() / 2 {
        rules.push(Rule {
            pattern: trees[2 * k],
            template: trees[2 * k + 1],
        })?;
    }
    Ok(rules)
}

/// The identifiers of the prelude with these names.
fn literals_of(alloc: Global, symbols: &mut Symbols, names: &[&str]) -> Mem<Items<IdNo>>
    ensures ids { IfOk result (λ ids. Each (IsNamed symbols.new) ids (map (λ s. s.now) names.now)) }
    ensures keeps { KeepsNames symbols.old symbols.new }
{
    let mut ids = Items::new(alloc);
    for name in names {
        let id = literal(symbols, name)?;
        ids.push(id)?;
    }
    Ok(ids)
}

/// The identifier of the prelude with this name.
fn literal(symbols: &mut Symbols, name: &str) -> Mem<IdNo>
    ensures id { IfOk result (λ id. IsNamed symbols.new id name.now) }
    ensures keeps { KeepsNames symbols.old symbols.new }
{
    let symbol = symbols.symbol(name)?;
    Ok(symbols.ident(Ident::Written { unit: UNIT, symbol })?)
}
