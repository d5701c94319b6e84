//! The conditions of a rename before programs are compared, one function each. They expand nothing.
ghost use Rattle.std.specs.Prelude.{◌≡◌, ◌<◌, ◌≤◌, [], ℕ, List, length, map, None, Some, IfOk, IfNone, OnOk};
ghost use Rattle.std.specs.BTreeMap.{get};
ghost use Rattle.std.specs.FinMap.{entries};
ghost use Rattle.std.specs.Option.{ok_or, option_map};
ghost use Rattle.ls_base.specs.declared.encoding.Encoding.{Encoding as AnyEncoding};
ghost use Rattle.scheme_model.specs.declared.Occ.{Occ as AnyOcc};
ghost use Rattle.document_store.specs.Texts.{Document};
ghost use Rattle.read_documents.specs.Readings.{Read, AreReadAs};
ghost use Rattle.program_answers.specs.Classed.{IsClassOf};
ghost use Rattle.program_answers.specs.ToldAnswers.{facts_in, name_there};
ghost use Rattle.text_edits.specs.Members as members;
ghost use Rattle.text_edits.specs.Views.{occ_cmp};
ghost use Rattle.class_edits.specs.Clashes.{clashing};
ghost use Rattle.class_edits.specs.DocumentEdits.{CanEditAll, edits_of_class, seen, too_long};
ghost use Rattle.class_edits.specs.Named.{AreNamed};
ghost use Rattle.rename_conditions.specs.Readers.{Reader, IsReader};
ghost use Rattle.rename_conditions.specs.Opened.{edited_in};
ghost use Rattle.rename_conditions.specs.Renames as model;
ghost use Rattle.rename_planner.specs.Planning.{ComesTo, Holds, Same, errors_in};
ghost use Rattle.rename_answers.specs.ReadDocuments.{read_as};

use class_edits::{class_edits, first_clash, first_too_long};
use ls_base::{Items, Pos, Text};
use rename_answers::RenameFault;
use std::alloc::Global;
use text_edits::{Edit, Members, new_symbol, stem_of};
use workspace_state::{Class, PlacedError, Workspace};

/// The class of the identifier at a position, where a link joins it.
pub fn bound(ws: &Workspace, uri: &str, position: Pos) -> Result<Class, RenameFault>
    ensures exact { (rs : List Read) → AreReadAs (entries ws.now.texts) rs → ComesTo ws.now.encoding (entries ws.now.texts) (IsClassOf (entries ws.now.texts) (facts_in rs))
        (ok_or (model.joined_at (facts_in rs).links (name_there ws.now.encoding (entries ws.now.texts) rs uri.now position)) model.NotBound) result }
{
    match ws.class_at(uri, position)? {
        Some(class) => Ok(class),
        None => Err(RenameFault::NotBound),
    }
}

/// Refused where a standard name spells it: the first in byte order.
pub fn no_standard(class: &Class) -> Result<(), RenameFault>
    ensures { (encoding : AnyEncoding) (ds : List (List ℕ × Document)) (rs : List Read) (o : AnyOcc) → IsClassOf ds (facts_in rs) o class.now →
        ComesTo encoding ds Holds (model.unless (model.first_of (model.standard_names (read_as ds rs) o)) model.IsStandard) result }
{
    match &class.standard {
        Some(name) => {
            let name = name.clone()?;
            Err(RenameFault::Standard(name))
        }
        None => Ok(()),
    }
}

/// The symbol of the new name.
pub fn symbol(alloc: Global, new_name: &str) -> Result<Text, RenameFault>
    ensures { (encoding : AnyEncoding) (ds : List (List ℕ × Document)) (r : Reader) → IsReader r →
        ComesTo encoding ds Same (ok_or (model.new_symbol (r.symbol new_name.now)) model.BadName) result }
{
    match new_symbol(alloc, new_name)? {
        Some(symbol) => Ok(symbol),
        None => Err(RenameFault::BadName),
    }
}

/// Refused where an open document doesn't read: the first by its uri.
pub fn all_read(alloc: Global, ws: &Workspace) -> Result<(), RenameFault>
    ensures { (rs : List Read) → AreReadAs (entries ws.now.texts) rs →
        ComesTo ws.now.encoding (entries ws.now.texts) Holds (model.unless (model.first_unread 0 (read_as (entries ws.now.texts) rs).readings) model.Unreadable) result }
{
    match ws.unreadable() {
        Some(uri) => Err(RenameFault::Unreadable(Text::of(alloc, uri)?)),
        None => Ok(()),
    }
}

/// The new stem: the new name without the prefix.
pub fn stem(alloc: Global, prefix: &str, symbol: &str) -> Result<Text, RenameFault>
    ensures { (encoding : AnyEncoding) (ds : List (List ℕ × Document)) →
        ComesTo encoding ds Same (ok_or (members.stem_of prefix.now symbol.now) (model.PrefixLost prefix.now)) result }
{
    match stem_of(prefix, symbol) {
        Some(stem) => Ok(Text::of(alloc, stem)?),
        None => Err(RenameFault::PrefixLost(Text::of(alloc, prefix)?)),
    }
}

/// Refused where a member would get two names: the first by uri and start.
pub fn no_clash(ws: &Workspace, class: &Class) -> Result<(), RenameFault>
    requires { 0 < length (entries ws.now.texts) }
    ensures exact { (rs : List Read) (o : AnyOcc) → AreReadAs (entries ws.now.texts) rs → IsClassOf (entries ws.now.texts) (facts_in rs) o class.now →
        ComesTo ws.now.encoding (entries ws.now.texts) Holds (model.unless (model.first_of (model.clashes (read_as (entries ws.now.texts) rs) o)) model.PrefixClash) result }
    ensures apart { (rs : List Read) (o : AnyOcc) → AreReadAs (entries ws.now.texts) rs → IsClassOf (entries ws.now.texts) (facts_in rs) o class.now →
        OnOk result (clashing (facts_in rs).links o ≡ []) }
{
    match first_clash(ws.open(), class.parts.as_slice(), ws.encoding())? {
        Some(place) => Err(RenameFault::PrefixClash(place)),
        None => Ok(()),
    }
}

/// Refused where one of these units has an Error: the first of the first.
fn no_error(ws: &Workspace, units: &[u32]) -> Result<(), RenameFault>
    ensures { (rs : List Read) → AreReadAs (entries ws.now.texts) rs →
        ComesTo ws.now.encoding (entries ws.now.texts) Holds (model.unless (model.first_of (errors_in (read_as (entries ws.now.texts) rs) units.now)) model.broken) result }
{
    let _program = ws.program();
    for unit in units {
        if let Some(PlacedError { place, code }) = ws.first_error(*unit)? {
            return Err(RenameFault::BrokenUnit { place, code });
        }
    }
    Ok(())
}

/// Refused where a unit in reach has an Error: the first in the order of units.
pub fn all_whole(ws: &Workspace, class: &Class) -> Result<(), RenameFault>
    ensures { (rs : List Read) (o : AnyOcc) → AreReadAs (entries ws.now.texts) rs → IsClassOf (entries ws.now.texts) (facts_in rs) o class.now →
        ComesTo ws.now.encoding (entries ws.now.texts) Holds (model.unless (model.first_of (model.errors_in_reach (read_as (entries ws.now.texts) rs) o)) model.broken) result }
{
    let units = ws.in_reach(class)?;
    no_error(ws, units.as_slice())?;
    Ok(())
}

/// The edits of each document, unless an edited text would be too long: the first by its uri.
pub fn fitting_edits(
    alloc: Global,
    ws: &Workspace,
    members: &Members,
) -> Result<Items<Items<Edit>>, RenameFault>
    ensures exact { (rs : List Read) (o : AnyOcc) (stem : List ℕ) → AreReadAs (entries ws.now.texts) rs → AreNamed (facts_in rs).links stem o (λ x. get occ_cmp members.now x) →
        ComesTo ws.now.encoding (entries ws.now.texts) Holds (model.unless (model.first_too_long 0 (edited_in (read_as (entries ws.now.texts) rs) o stem)) model.TooLong) result }
    ensures edits { (rs : List Read) (o : AnyOcc) (stem : List ℕ) → AreReadAs (entries ws.now.texts) rs → AreNamed (facts_in rs).links stem o (λ x. get occ_cmp members.now x) →
        IfOk result (λ all. seen all ≡ edits_of_class (entries ws.now.texts) rs stem o) }
    ensures made { IfOk result (CanEditAll (entries ws.now.texts)) }
    ensures fit { IfOk result (λ all. too_long (entries ws.now.texts) (seen all) ≡ None) }
{
    let all = class_edits(alloc, ws.open(), members)?;
    match first_too_long(ws.open(), all.as_slice()) {
        Some(uri) => Err(RenameFault::Limit(Text::of(alloc, uri)?)),
        None => Ok(all),
    }
}
