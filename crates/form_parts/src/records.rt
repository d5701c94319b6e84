//! The shape of a record's definition (R7RS 5.5): the names that it defines, its modifiers, and the fields that its constructor uses.
ghost use Rattle.std.specs.Prelude.{◌≡◌, ◌++◌, ◌^◌, ◌<◌, ℕ, List, length, map, filter_map, position, unwrap_or, nat_eq, IfOk, OnOk, ◌+◌, Vec};
ghost use Rattle.std.specs.BTreeMap.{get};
ghost use Rattle.std.specs.Ordering.{nat_cmp};
ghost use Rattle.scheme_model.specs.ExpansionFaults.{Named};
ghost use Rattle.scheme_model.specs.Shapes.{FieldShape as ModelField, RecordShape};
ghost use Rattle.scheme_model.specs.Order.{record_names, modified};
ghost use Rattle.scheme_model.specs.Ident.{Ident as Identifier};
ghost use Rattle.syntax_tree.specs.Names.{AreToldApart};
ghost use Rattle.syntax_tree.specs.declared.trees.Work.{Work as AnyWork};
ghost use Rattle.core_forms.specs.Parts.{IsName, IsField, AreNames, AllMatch as Match};
ghost use Rattle.core_forms.specs.Ends.{IsRecord};
ghost use Rattle.core_tree.specs.Names.{IsField as IsUse};
ghost use Rattle.form_parts.specs.FormsSeen.{used_fields};

use core_forms::{FieldShape, NamePart};
use core_tree::cores::FieldUse;
use ls_base::Mem;
use std::alloc::Global;
use std::collections::BTreeMap;
use syntax_tree::symbols::IdNo;

/// The shape of a record's definition.
#[derive(Drop)]
pub struct Record {
    pub name: NamePart,
    pub constructor: NamePart,
    pub used: Vec<NamePart>,
    pub predicate: NamePart,
    pub fields: Vec<FieldShape>,
}

impl Record {
    /// The names of its fields.
    pub fn field_names(&self, alloc: Global) -> Mem<Vec<NamePart>>
        ensures { IfOk result (λ names. names.items ≡ map (λ f. f.name) self.now.fields.items) }
    {
        let mut names = Vec::new(alloc);
        for field in &self.fields {
            names.push(field.name)?;
        }
        Ok(names)
    }

    /// What it defines: the type, the constructor, the predicate, the accessors and the modifiers.
    pub fn names(&self, alloc: Global) -> Mem<Vec<NamePart>>
        ensures { (work : AnyWork) (r : RecordShape Identifier) → IsRecord work self.now.name self.now.constructor self.now.used self.now.predicate self.now.fields r →
            IfOk result (λ names. AreNames work names (record_names r)) }
    {
        let mut names = Vec::new(alloc);
        names.push(self.name)?;
        names.push(self.constructor)?;
        names.push(self.predicate)?;
        for field in &self.fields {
            names.push(field.accessor)?;
        }
        add_modifiers(&self.fields, &mut names)?;
        Ok(names)
    }
}

/// Adds the modifiers of fields.
fn add_modifiers(fields: &[FieldShape], names: &mut Vec<NamePart>) -> Mem<()>
    ensures { OnOk result (names.new.items ≡ names.old.items ++ filter_map (λ f. f.modifier) fields.now) }
{
    for field in fields {
        if let Some(modifier) = field.modifier {
            names.push(modifier)?;
        }
    }
    Ok(())
}

/// The places of the fields that have a modifier.
pub fn modified(alloc: Global, fields: &[FieldShape]) -> Mem<Vec<u32>>
    requires { length fields.now < 2 ^ 32 }
    ensures { (work : AnyWork) (fs : List (ModelField Identifier)) → Match (IsField work) fields.now fs →
        IfOk result (λ places. places.items ≡ modified 0 fs) }
{
    let mut places = Vec::new(alloc);
    for k in 0..fields.len() {
        if fields[k].modifier.is_some() {
            places.push(k as u32)?;
        }
    }
    Ok(places)
}

/// The fields that the constructor uses, by their places.
pub fn used(alloc: Global, names: &[NamePart], fields: &[FieldShape]) -> Mem<Vec<FieldUse>>
    requires { length fields.now < 2 ^ 32 }
    ensures { (work : AnyWork) (ns : List (Named Identifier)) (fs : List (ModelField Identifier)) → AreToldApart work.symbols.idents →
        Match (IsName work) names.now ns → Match (IsField work) fields.now fs → IfOk result (λ uses. Match IsUse uses.items (used_fields fs ns)) }
{
    let places = places_of(alloc, fields)?;
    let count = fields.len() as u32;
    let mut uses = Vec::new(alloc);
    for name in names {
        let field = place_in(&places, name.ident, count);
        uses.push(FieldUse {
            field,
            occ: name.occ,
        })?;
    }
    Ok(uses)
}

/// The place of a field by its name, or else a place behind them all.
fn place_in(places: &BTreeMap<IdNo, u32>, name: IdNo, count: u32) -> u32
    ensures { result ≡ unwrap_or (get nat_cmp places.now name) count }
{
    match places.get(&name) {
        Some(place) => *place,
        None => count,
    }
}

/// The place of each field by its name: of a name that stands twice, the first.
fn places_of(alloc: Global, fields: &[FieldShape]) -> Mem<BTreeMap<IdNo, u32>>
    requires { length fields.now < 2 ^ 32 }
    ensures { IfOk result (λ places. (n : ℕ) → get nat_cmp places n ≡ position (λ f. nat_eq n f.name.ident) fields.now) }
{
    let mut places = BTreeMap::new(alloc);
    for k in 0..fields.len() {
        let name = fields[k].name.ident;
        if !places.contains_key(&name) {
            places.insert(name, k as u32)?;
        }
    }
    Ok(places)
}
