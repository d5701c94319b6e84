//! `define-record-type` (R7RS 5.5).
ghost use Rattle.std.specs.Prelude.{◌≡◌, ℕ, List, map, Result, IfOk};
ghost use Rattle.std.specs.BTreeSet.{contains};
ghost use Rattle.std.specs.Ordering.{nat_cmp};
ghost use Rattle.scheme_model.specs.Trees.{Tree as ModelTree, Trees, Tail};
ghost use Rattle.scheme_model.specs.ExpansionFaults.{Named, Fault};
ghost use Rattle.scheme_model.specs.Shapes.{FieldShape as ModelField, RecordShape as ModelRecord, or_bad_record, constructor_of, fields_of, field_with, all_among, record_in, record_of};
ghost use Rattle.scheme_model.specs.Ident.{Ident as Identifier, same_ident};
ghost use Rattle.syntax_tree.specs.Looks.{PartsStand, EndStands, AreStanding};
ghost use Rattle.syntax_tree.specs.Works.{StandsFor, IsStanding};
ghost use Rattle.core_forms.specs.Parts.{AllMatch, IsName, IsConstructor, IsField, AreFields};
ghost use Rattle.core_forms.specs.Steps.{field_of, uses_of, behind_name, behind_constructor, record_with};
ghost use Rattle.core_forms.specs.Numbers.{has_number, all_numbers};
ghost use Rattle.core_forms.specs.declared.shape.NamePart.{NamePart as Part};
ghost use Rattle.core_forms.specs.Ends.{Ends, Refuses, IsRecordType};

use crate::fault::CoreFault;
use crate::names::{distinct, name_of, names_of};
use crate::rows::{Row, row_of};
use crate::shape::{CoreShape, FieldShape, NamePart};
use ls_base::{Mem, Memory};
use std::alloc::Global;
use std::collections::BTreeSet;
use syntax_tree::look::{Look, look_at};
use syntax_tree::symbols::IdNo;
use syntax_tree::trees::{Tree, Work};

/// A constructor and the fields that it uses.
#[derive(Drop)]
pub struct Constructor {
    pub name: NamePart,
    pub used: Vec<NamePart>,
}

/// `(define-record-type name constructor predicate field ...)`: whatever is wrong is `BadRecord`.
pub fn record_of(
    alloc: Global,
    work: &Work,
    items: &[Tree],
    end: Option<Tree>,
) -> Result<CoreShape, CoreFault>
    requires { AreStanding work.now items.now }
    ensures { (ts : Trees Identifier) (tail : Tail Identifier) → PartsStand work.now items.now ts → EndStands work.now end tail →
        Ends work.now (IsRecordType work.now) (record_of same_ident ts tail) result }
{
    match record_in(alloc, work, items, end) {
        Ok(shape) => Ok(shape),
        Err(fault) => Err(as_bad_record(work, fault)),
    }
}

/// Whatever is wrong with a record is `BadRecord`.
fn as_bad_record(work: &Work, fault: CoreFault) -> CoreFault
    ensures { (s : Result (ModelRecord Identifier) (Fault Identifier)) → Refuses work.now fault s →
        Refuses work.now result (or_bad_record s) }
{
    match fault {
        CoreFault::BadForm => CoreFault::BadRecord,
        CoreFault::DuplicateBinder(_) => CoreFault::BadRecord,
        CoreFault::BadPlace => CoreFault::BadRecord,
        CoreFault::BadRecord => CoreFault::BadRecord,
        CoreFault::BadQuasi => CoreFault::BadRecord,
        CoreFault::Memory => CoreFault::Memory,
    }
}

/// The same with the fault that holds.
fn record_in(
    alloc: Global,
    work: &Work,
    items: &[Tree],
    end: Option<Tree>,
) -> Result<CoreShape, CoreFault>
    requires { AreStanding work.now items.now }
    ensures { (ts : Trees Identifier) (tail : Tail Identifier) → PartsStand work.now items.now ts → EndStands work.now end tail →
        Ends work.now (IsRecordType work.now) (record_in same_ident ts tail) result }
{
    if end.is_some() {
        return Err(CoreFault::BadForm);
    }
    match row_of(work, items) {
        Row::Empty => Err(CoreFault::BadForm),
        Row::Parts(first, rest) => {
            let name = name_of(work, first)?;
            behind_name(alloc, work, name, rest)
        }
    }
}

/// What stands behind the name.
fn behind_name(
    alloc: Global,
    work: &Work,
    name: NamePart,
    items: &[Tree],
) -> Result<CoreShape, CoreFault>
    requires { AreStanding work.now items.now }
    ensures { (n : Named Identifier) (ts : Trees Identifier) → IsName work.now name n → PartsStand work.now items.now ts →
        Ends work.now (IsRecordType work.now) (behind_name n ts) result }
{
    match row_of(work, items) {
        Row::Empty => Err(CoreFault::BadForm),
        Row::Parts(first, rest) => {
            let constructor = constructor_of(alloc, work, first)?;
            behind_constructor(alloc, work, name, constructor, rest)
        }
    }
}

/// What stands behind the constructor.
fn behind_constructor(
    alloc: Global,
    work: &Work,
    name: NamePart,
    constructor: Constructor,
    items: &[Tree],
) -> Result<CoreShape, CoreFault>
    requires { AreStanding work.now items.now }
    ensures { (n : Named Identifier) (c : Named Identifier × List (Named Identifier)) (ts : Trees Identifier) → IsName work.now name n →
        IsConstructor work.now constructor c → PartsStand work.now items.now ts →
        Ends work.now (IsRecordType work.now) (behind_constructor n c ts) result }
{
    match row_of(work, items) {
        Row::Empty => Err(CoreFault::BadForm),
        Row::Parts(first, rest) => {
            let predicate = name_of(work, first)?;
            let fields = fields_of(alloc, work, rest)?;
            record_with(alloc, work, name, constructor, predicate, fields)
        }
    }
}

/// A record of these parts, if its fields differ and the constructor uses fields of it.
fn record_with(
    alloc: Global,
    work: &Work,
    name: NamePart,
    constructor: Constructor,
    predicate: NamePart,
    fields: Vec<FieldShape>,
) -> Result<CoreShape, CoreFault>
    ensures { (n : Named Identifier) (c : Named Identifier × List (Named Identifier)) (p : Named Identifier) (fs : List (ModelField Identifier)) →
        IsName work.now name n → IsConstructor work.now constructor c → IsName work.now predicate p → AreFields work.now fields fs →
        Ends work.now (IsRecordType work.now) (record_with n c p fs) result }
{
    let names = field_names(alloc, fields.as_slice())?;
    distinct(alloc, work, names.as_slice())?;
    if !uses_fields(alloc, work, constructor.used.as_slice(), names.as_slice())? {
        return Err(CoreFault::BadForm);
    }
    Ok(CoreShape::RecordType {
        name,
        constructor: constructor.name,
        used: constructor.used,
        predicate,
        fields,
    })
}

/// The names of fields.
fn field_names(alloc: Global, fields: &[FieldShape]) -> Mem<Vec<NamePart>>
    ensures { IfOk result (λ names. names.items ≡ map (λ f. f.name) fields.now) }
{
    let mut names = Vec::new(alloc);
    for field in fields {
        names.push(field.name)?;
    }
    Ok(names)
}

/// Whether all that a constructor uses are fields.
fn uses_fields(alloc: Global, work: &Work, used: &[NamePart], fields: &[NamePart]) -> Mem<bool>
    ensures { (us fs : List (Named Identifier)) → AllMatch (IsName work.now) used.now us → AllMatch (IsName work.now) fields.now fs →
        IfOk result (λ all. all ≡ all_among same_ident us fs) }
{
    work.symbols.told_apart();
    let numbers = numbers_of(alloc, fields)?;
    Ok(are_among(used, &numbers))
}

/// The numbers of names.
fn numbers_of(alloc: Global, names: &[NamePart]) -> Mem<BTreeSet<IdNo>>
    ensures { IfOk result (λ set. (n : ℕ) → contains nat_cmp set n ≡ has_number names.now n) }
{
    let mut numbers = BTreeSet::new(alloc);
    for name in names {
        numbers.insert(name.ident)?;
    }
    Ok(numbers)
}

/// Whether the numbers of all names are among these.
fn are_among(names: &[NamePart], numbers: &BTreeSet<IdNo>) -> bool
    ensures { (fields : List Part) → ((n : ℕ) → contains nat_cmp numbers.now n ≡ has_number fields n) →
        result ≡ all_numbers names.now fields }
{
    for name in names {
        if !numbers.contains(&name.ident) {
            return false;
        }
    }
    true
}

/// A constructor: `(id field ...)`, or an identifier, which uses no field.
fn constructor_of(alloc: Global, work: &Work, tree: Tree) -> Result<Constructor, CoreFault>
    requires { IsStanding work.now tree }
    ensures { (t : ModelTree Identifier) → StandsFor work.now tree t →
        Ends work.now (IsConstructor work.now) (constructor_of t) result }
{
    match look_at(work, tree) {
        Look::Name(_) => Ok(Constructor {
            name: name_of(work, tree)?,
            used: Vec::new(alloc),
        }),
        Look::List(items, end) => uses_of(alloc, work, items, end),
        Look::Atom(_) => Err(CoreFault::BadForm),
        Look::Vector(_) => Err(CoreFault::BadForm),
    }
}

/// The list of a constructor.
fn uses_of(
    alloc: Global,
    work: &Work,
    items: &[Tree],
    end: Option<Tree>,
) -> Result<Constructor, CoreFault>
    requires { AreStanding work.now items.now }
    ensures { (ts : Trees Identifier) (tail : Tail Identifier) → PartsStand work.now items.now ts → EndStands work.now end tail →
        Ends work.now (IsConstructor work.now) (uses_of ts tail) result }
{
    if end.is_some() {
        return Err(CoreFault::BadForm);
    }
    match row_of(work, items) {
        Row::Empty => Err(CoreFault::BadForm),
        Row::Parts(first, rest) => {
            let name = name_of(work, first)?;
            let used = names_of(alloc, work, rest)?;
            Ok(Constructor { name, used })
        }
    }
}

/// Fields in a row.
fn fields_of(alloc: Global, work: &Work, items: &[Tree]) -> Result<Vec<FieldShape>, CoreFault>
    requires { AreStanding work.now items.now }
    ensures { (ts : Trees Identifier) → PartsStand work.now items.now ts → Ends work.now (AreFields work.now) (fields_of ts) result }
{
    let mut fields = Vec::new(alloc);
    for item in items {
        let read = field_of(alloc, work, *item)?;
        fields.push(read)?;
    }
    Ok(fields)
}

/// `(field accessor)` or `(field accessor modifier)`.
fn field_of(alloc: Global, work: &Work, tree: Tree) -> Result<FieldShape, CoreFault>
    requires { IsStanding work.now tree }
    ensures { (t : ModelTree Identifier) → StandsFor work.now tree t → Ends work.now (IsField work.now) (field_of t) result }
{
    match look_at(work, tree) {
        Look::List(items, end) => {
            if end.is_some() {
                return Err(CoreFault::BadForm);
            }
            let names = names_of(alloc, work, items)?;
            field_with(work, names.as_slice())
        }
        Look::Name(_) => Err(CoreFault::BadForm),
        Look::Atom(_) => Err(CoreFault::BadForm),
        Look::Vector(_) => Err(CoreFault::BadForm),
    }
}

/// A field of two names or three.
fn field_with(work: &Work, names: &[NamePart]) -> Result<FieldShape, CoreFault>
    ensures { (ms : List (Named Identifier)) → AllMatch (IsName work.now) names.now ms →
        Ends work.now (IsField work.now) (field_with ms) result }
{
    if names.len() == 2 {
        return Ok(FieldShape {
            name: names[0],
            accessor: names[1],
            modifier: None,
        });
    }
    if names.len() == 3 {
        return Ok(FieldShape {
            name: names[0],
            accessor: names[1],
            modifier: Some(names[2]),
        });
    }
    Err(CoreFault::BadForm)
}
