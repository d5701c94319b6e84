//! The identifiers of import sets and exports (R7RS 5.2, 5.6.1), with their places.
ghost use Rattle.std.specs.Prelude.{◌≡◌, List, ℕ, map};
ghost use Rattle.scheme_model.specs.Trees.{Tail};
ghost use Rattle.scheme_model.specs.Shapes.{name_of, names_of};
ghost use Rattle.scheme_model.specs.Entries.{pair_of, pairs_of};
ghost use Rattle.import_sets.specs.Sets.{named, paired};
ghost use Rattle.datum_reader.specs.Looks.{tree_at, trees_at, is_dotted};
ghost use Rattle.datum_reader.specs.Forms.{place};
ghost use Rattle.known_libraries.specs.PartsRead.{Reads};
ghost use Rattle.unit_sources.specs.PartsRead.{names_in, pairs_in, only_name, pair_in};

use datum_reader::Datum;
use datum_reader::look::{Look, Row, look_at, row_of};
use datum_reader::shape_fault::ShapeFault;
use datum_reader::start::place;
use import_sets::{NamePair, SetName};
use ls_base::{Items, Text};
use scheme_model::Home;
use std::alloc::Global;

/// An identifier with its place.
pub fn name_of(alloc: Global, datum: &Datum, home: Home) -> Result<SetName, ShapeFault>
    ensures { Reads named result (name_of (tree_at (place home) datum.now)) }
{
    match look_at(datum) {
        Look::Name(symbol) => {
            let name = Text::of(alloc, symbol)?;
            let occ = Some(place(home, datum.first));
            Ok(SetName { name, occ })
        }
        Look::Implied(symbol) => {
            let name = Text::of(alloc, symbol)?;
            Ok(SetName { name, occ: None })
        }
        Look::Numeral(_) => Err(ShapeFault::BadForm),
        Look::List(_, _) => Err(ShapeFault::BadForm),
        Look::Other => Err(ShapeFault::BadForm),
    }
}

/// Identifiers in a row.
fn names_of(alloc: Global, parts: &[Datum], home: Home) -> Result<Items<SetName>, ShapeFault>
    ensures { Reads (λ ns. map named ns) result (names_of (trees_at (place home) parts.now)) }
{
    let mut names = Items::new(alloc);
    for datum in parts {
        let name = name_of(alloc, datum, home)?;
        names.push(name)?;
    }
    Ok(names)
}

/// The identifiers of a list that may not be dotted.
pub fn names_in(
    alloc: Global,
    parts: &[Datum],
    dotted: bool,
    home: Home,
) -> Result<Items<SetName>, ShapeFault>
    ensures { (end : Tail (List ℕ)) → is_dotted end ≡ dotted →
        Reads (λ ns. map named ns) result (names_in (trees_at (place home) parts.now) end) }
{
    if dotted {
        return Err(ShapeFault::BadForm);
    }
    Ok(names_of(alloc, parts, home)?)
}

/// The identifier that stands alone in a list that may not be dotted.
pub fn only_name(
    alloc: Global,
    parts: &[Datum],
    dotted: bool,
    home: Home,
) -> Result<SetName, ShapeFault>
    ensures { (end : Tail (List ℕ)) → is_dotted end ≡ dotted →
        Reads named result (only_name (trees_at (place home) parts.now) end) }
{
    if dotted {
        return Err(ShapeFault::BadForm);
    }
    match row_of(parts) {
        Row::Empty => Err(ShapeFault::BadForm),
        Row::Parts(first, rest) => {
            if !rest.is_empty() {
                return Err(ShapeFault::BadForm);
            }
            Ok(name_of(alloc, first, home)?)
        }
    }
}

/// A list of two identifiers.
fn pair_of(alloc: Global, datum: &Datum, home: Home) -> Result<NamePair, ShapeFault>
    ensures { Reads paired result (pair_of (tree_at (place home) datum.now)) }
{
    match look_at(datum) {
        Look::List(parts, dotted) => pair_in(alloc, parts, dotted, home),
        Look::Name(_) => Err(ShapeFault::BadForm),
        Look::Implied(_) => Err(ShapeFault::BadForm),
        Look::Numeral(_) => Err(ShapeFault::BadForm),
        Look::Other => Err(ShapeFault::BadForm),
    }
}

/// The two identifiers of a list.
fn pair_in(alloc: Global, parts: &[Datum], dotted: bool, home: Home) -> Result<NamePair, ShapeFault>
    ensures { (end : Tail (List ℕ)) → is_dotted end ≡ dotted →
        Reads paired result (pair_in (trees_at (place home) parts.now) end) }
{
    match row_of(parts) {
        Row::Empty => Err(ShapeFault::BadForm),
        Row::Parts(first, rest) => {
            let from = name_of(alloc, first, home)?;
            let to = only_name(alloc, rest, dotted, home)?;
            Ok(NamePair { from, to })
        }
    }
}

/// Pairs of identifiers in a row.
fn pairs_of(alloc: Global, parts: &[Datum], home: Home) -> Result<Items<NamePair>, ShapeFault>
    ensures { Reads (λ ps. map paired ps) result (pairs_of (trees_at (place home) parts.now)) }
{
    let mut pairs = Items::new(alloc);
    for datum in parts {
        let pair = pair_of(alloc, datum, home)?;
        pairs.push(pair)?;
    }
    Ok(pairs)
}

/// The pairs of identifiers of a list that may not be dotted.
pub fn pairs_in(
    alloc: Global,
    parts: &[Datum],
    dotted: bool,
    home: Home,
) -> Result<Items<NamePair>, ShapeFault>
    ensures { (end : Tail (List ℕ)) → is_dotted end ≡ dotted →
        Reads (λ ps. map paired ps) result (pairs_in (trees_at (place home) parts.now) end) }
{
    if dotted {
        return Err(ShapeFault::BadForm);
    }
    pairs_of(alloc, parts, home)
}
