//! A work under other numbers. All memory is taken beforehand, for the table of identifiers.
ghost use Rattle.std.specs.Prelude.{◌≡◌, ◌≢◌, ℕ, [], map, IfOk, OnOk};
ghost use Rattle.std.specs.Option.{option_map};
ghost use Rattle.std.specs.FinMap as finite;
ghost use Rattle.syntax_tree.specs.Names.{AreToldApart};
ghost use Rattle.renumbering_laws.specs.Renumbering.{ident};
ghost use Rattle.moves.specs.Numbers.{numbers_of};
ghost use Rattle.moves.specs.Works.{lived_as, NamesMove, TreesMove, WorkMoves};

use crate::numbers::Moves;
use ls_base::Mem;
use std::alloc::Global;
use std::mem;
use syntax_tree::symbols::Symbols;
use syntax_tree::trees::{Trees, Work};

/// Adds all symbols of a table to one that is empty.
fn add_symbols(from: &Symbols, to: &mut Symbols) -> Mem<()>
    requires { to.old.symbols ≡ [] }
    ensures symbols { OnOk result (to.new.symbols ≡ from.now.symbols) }
    ensures idents { to.new.idents ≡ to.old.idents }
{
    from.told_apart();
    for number in 0..from.symbol_count() {
        to.symbol(from.name(number))?;
    }
    Ok(())
}

/// Adds all identifiers of a table, under the new numbers, to one that has its symbols alone.
fn add_idents(from: &Symbols, moves: &Moves, to: &mut Symbols) -> Mem<()>
    requires apart { AreToldApart (map (ident (numbers_of moves.now)) from.now.idents) }
    requires symbols { to.old.symbols ≡ from.now.symbols }
    requires idents { to.old.idents ≡ [] }
    ensures { OnOk result (NamesMove (numbers_of moves.now) from.now to.new) }
{
    from.told_apart();
    from.in_order();
    for id in 0..from.ident_count() {
        to.ident(moves.entry(from.ident_at(id)))?;
    }
    Ok(())
}

/// A table with the same symbols, and with each identifier at its place under its new numbers, where these leave identifiers apart.
pub fn renamed(alloc: Global, symbols: &Symbols, moves: &Moves) -> Mem<Symbols>
    requires { AreToldApart (map (ident (numbers_of moves.now)) symbols.now.idents) }
    ensures { IfOk result (λ new. NamesMove (numbers_of moves.now) symbols.now new) }
{
    let mut new = Symbols::new(alloc);
    add_symbols(symbols, &mut new)?;
    add_idents(symbols, moves, &mut new)?;
    Ok(new)
}

/// The node of a number under the new numbers, if one lives there.
fn renumber_node(trees: &mut Trees, moves: &Moves, number: u32)
    ensures here { finite.get trees.new.nodes number ≡ option_map (lived_as (numbers_of moves.now)) (finite.get trees.old.nodes number) }
    ensures others { (n : ℕ) → n ≢ number → finite.get trees.new.nodes n ≡ finite.get trees.old.nodes n }
    ensures identity { trees.new.identity ≡ trees.old.identity }
    ensures regions { trees.new.regions ≡ trees.old.regions }
    ensures counts { trees.new.counts ≡ trees.old.counts }
    ensures spare { trees.new.spare ≡ trees.old.spare }
{
    if let Some(place) = trees.place_at(number) {
        trees.set_place(number, moves.place(place));
    }
}

/// All nodes that live under the new numbers. It takes no memory.
pub fn renumber_trees(trees: &mut Trees, moves: &Moves)
    ensures { TreesMove (numbers_of moves.now) trees.old trees.new }
{
    for number in 0..trees.end() {
        renumber_node(trees, moves, number);
    }
}

/// The work under the new numbers, with the table that was made for it; the one before is given for it, and is put back with it on the
/// way back. It takes no memory.
pub fn renumber(work: &mut Work, moves: &Moves, renamed: &mut Symbols)
    requires { NamesMove (numbers_of moves.now) work.old.symbols renamed.old }
    ensures moved { WorkMoves (numbers_of moves.now) work.old work.new }
    ensures before { renamed.new ≡ work.old.symbols }
{
    mem::swap(&mut work.symbols, renamed);
    renumber_trees(&mut work.trees, moves);
}
