//! The links of a program, in order, each once.
ghost use Rattle.std.specs.Prelude.{◌↔◌, ℕ, List, map, IfOk};
ghost use Rattle.std.specs.List.{Contains};
ghost use Rattle.std.specs.List.Sorted.{IsStrictlySortedBy};
ghost use Rattle.scheme_model.specs.declared.Occ.{Occ as AnyOcc};
ghost use Rattle.scheme_model.specs.IncludedUnits.{Placed};
ghost use Rattle.scheme_model.specs.Program.{Program as ModelProgram};
ghost use Rattle.scheme_model.specs.ProgramArrows.{binders_in as program_binders};
ghost use Rattle.scheme_model.specs.Requirements.{LibraryName};
ghost use Rattle.scheme_model.specs.Spelling.{Link as ModelLink, links_of};
ghost use Rattle.core_tree.specs.Units.{ProgramStands, IsProgramOf};
ghost use Rattle.program_leaves.specs.Members.{IsIn};
ghost use Rattle.program_leaves.specs.Sights.{SeesProgram, IsSightOf};
ghost use Rattle.arrow_index.specs.Links.{as_link, link_cmp, AreLinks};
ghost use Rattle.arrow_index.specs.declared.links.Link.{Link as AnyLink};

use crate::binders::binders_in;
use crate::links::{Link, link_themselves};
use crate::use_links::{link_all_names, link_macros, link_seconds, link_targets, link_uses};
use core_tree::units::Program;
use ls_base::{Items, Mem};
use program_leaves::entries::Entries;
use program_leaves::sight::Sight;
use scheme_model::Occ;
use std::alloc::Global;
use syntax_tree::trees::Work;

/// The links of a program in no order, of which some may stand twice.
fn all_links(
    alloc: Global,
    work: &Work,
    sight: &Sight<'_>,
    binders: &[Occ],
    program: &Program,
) -> Mem<Vec<Link>>
    requires { IsSightOf work.now sight.now program.now }
    ensures { (text : LibraryName → List ℕ) (uris : List (List ℕ)) (all : List Placed) (p : ModelProgram) →
        ProgramStands work.now text uris all program.now p → SeesProgram work.now sight.now all p → ((o : AnyOcc) → IsIn o binders.now ↔ IsIn o (program_binders p)) →
        IfOk result (λ links. (l : ModelLink) → IsIn l (map as_link links.items) ↔ IsIn l (links_of all p)) }
{
    let entries = Entries::of(alloc, program)?;
    let mut links = Vec::new(alloc);
    link_uses(
        alloc,
        work,
        sight,
        &entries,
        sight.leaves.as_slice(),
        &mut links,
    )?;
    link_targets(
        alloc,
        work,
        sight,
        &entries,
        sight.met.as_slice(),
        &mut links,
    )?;
    link_all_names(alloc, work, program.units.as_slice(), &mut links)?;
    link_themselves(alloc, binders, &mut links)?;
    link_seconds(alloc, program.units.as_slice(), &mut links)?;
    link_macros(
        alloc,
        work,
        sight,
        &entries,
        sight.leaves.as_slice(),
        &mut links,
    )?;
    Ok(links)
}

/// Links in order, each once.
fn links_in_order(links: Vec<Link>) -> Mem<Items<Link>>
    ensures { IfOk result (λ sorted. IsStrictlySortedBy link_cmp sorted × ((l : AnyLink) → Contains sorted l ↔ Contains links.items l)) }
{
    let mut links = links;
    links.sort()?;
    links.dedup();
    Ok(Items::from_vec(links))
}

/// The links of a program that is seen already, and whose binders these are, in order, each once.
pub fn links_seen(
    alloc: Global,
    work: &Work,
    sight: &Sight<'_>,
    binders: &[Occ],
    program: &Program,
) -> Mem<Items<Link>>
    requires { IsSightOf work.now sight.now program.now }
    ensures { (text : LibraryName → List ℕ) (uris : List (List ℕ)) (all : List Placed) (p : ModelProgram) →
        ProgramStands work.now text uris all program.now p → SeesProgram work.now sight.now all p → ((o : AnyOcc) → IsIn o binders.now ↔ IsIn o (program_binders p)) →
        IfOk result (λ links. AreLinks links (links_of all p)) }
{
    let links = all_links(alloc, work, sight, binders, program)?;
    Ok(links_in_order(links)?)
}

/// The links of a program, sorted by origin, target and prefix, each once.
pub fn spelled_links(alloc: Global, work: &Work, program: &Program) -> Mem<Items<Link>>
    requires { IsProgramOf work.now program.now }
    ensures { (text : LibraryName → List ℕ) (uris : List (List ℕ)) (all : List Placed) (p : ModelProgram) →
        ProgramStands work.now text uris all program.now p → IfOk result (λ links. AreLinks links (links_of all p)) }
{
    let sight = Sight::of(alloc, work, program)?;
    let binders = binders_in(alloc, work, &sight, program)?;
    Ok(links_seen(alloc, work, &sight, binders.as_slice(), program)?)
}
