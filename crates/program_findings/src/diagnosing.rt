//! What is found wrong in the forms of a unit, and in a unit that is broken as a whole.
ghost use Rattle.std.specs.Prelude.{◌≡◌, ◌<◌, ◌++◌, ◌∷◌, ℕ, List, [], length, map, slice_get, vec_len, Some, None, IfOk, OnOk};
ghost use Rattle.scheme_model.specs.Declarations.{forms_hold};
ghost use Rattle.scheme_model.specs.Included.{LostString as Lost};
ghost use Rattle.scheme_model.specs.Ident.{Ident as Identifier, symbol_of};
ghost use Rattle.scheme_model.specs.Steps.{Broken};
ghost use Rattle.scheme_model.specs.UnitExpansion.{Formed};
ghost use Rattle.scheme_model.specs.Program.{UnitResult, WholeFault as Whole, result_at, whole_code};
ghost use Rattle.scheme_model.specs.Cores.{Target as CoreTarget};
ghost use Rattle.scheme_model.specs.Live.{unit_leaves};
ghost use Rattle.scheme_model.specs.Diagnostics.{bytes_of, document_of, fault_names, fault_occ, form_diagnostics, lost_diagnostics, unbound_diagnostics, whole_fault};
ghost use Rattle.syntax_tree.specs.Names.{Names, KeepsNames};
ghost use Rattle.syntax_tree.specs.declared.trees.Work.{Work};
ghost use Rattle.syntax_tree.specs.declared.meaning.Meaning.TheVariants as meant;
ghost use Rattle.core_tree.specs.declared.traces.FormFault.{FormFault as Fault};
ghost use Rattle.core_tree.specs.Traces.{IsFault};
ghost use Rattle.core_tree.specs.Units.{FormsStand, form_errors};
ghost use Rattle.unit_sources.specs.UnitsRead.{forms_of, lost_as};
ghost use Rattle.read_documents.specs.declared.findings.At.{At as Found};
ghost use Rattle.read_documents.specs.Readings.{Read};
ghost use Rattle.read_documents.specs.Changed.{Changes};
ghost use Rattle.read_documents.specs.Diagnosed.{IsWhole, fault_found, unbound_found, TellsStop, TellsStopOf, text_unit, whole_at, whole_number};
ghost use Rattle.read_documents.specs.Findings.{Adds};
ghost use Rattle.read_documents.specs.Places.{AreFoundIn, ArePlaces, CanPlace, spans_of};
ghost use Rattle.program_findings.specs.LostFound.{lost_found};
ghost use Rattle.program_findings.specs.StandIn.{StandIn};
ghost use Rattle.program_findings.specs.Unbound.{IsUnbound};

use crate::homes::form_holds;
use crate::unbound::unbound;
use core_tree::cores::Target;
use core_tree::traces::FormFault;
use core_tree::units::UnitForm;
use ls_base::Mem;
use read_documents::documents::{Document, Unread};
use read_documents::findings::{At, Finding, Sorted};
use read_documents::form_numbers::number_of;
use read_documents::heads::WholeFault;
use read_documents::places::Places;
use read_documents::wording::message;
use scheme_model::Occ;
use std::alloc::Global;
use std::collections::BTreeMap;
use syntax_tree::meaning::Meaning;
use syntax_tree::symbols::{IdNo, Symbols};
use unit_sources::{LostString, UnitForm as SourceForm};

/// Adds the faults of the forms of a unit, which were read from these.
pub fn add_faults(
    alloc: Global,
    symbols: &Symbols,
    places: Places<'_>,
    unit: u32,
    sources: &[SourceForm],
    forms: &[&UnitForm],
    findings: &mut Vec<Finding>,
) -> Mem<()>
    requires forms { StandIn symbols.now (map (λ form. form.now) forms.now) }
    requires documents { 0 < length places.documents.now }
    requires places { CanPlace places }
    ensures inside { AreFoundIn (length places.entry.documents.now) findings.old.items → OnOk result (AreFoundIn (length places.entry.documents.now) findings.new.items) }
    ensures exact { (rs : List Read) (us : List UnitResult) (work : Work) (fs : List Formed) → ArePlaces places.entry rs us → KeepsNames work.symbols symbols.now → FormsStand work unit 0 (map (λ form. form.now) forms.now) fs →
        OnOk result (Adds findings.old.items findings.new.items (form_diagnostics (bytes_of (spans_of rs) us) (forms_hold unit (forms_of sources.now)) unit fs) (form_errors fs)) }
{
    for (place, form) in forms.iter().enumerate() {
        let number = number_of(place)?;
        add_fault(
            alloc, symbols, places, unit, number, sources, form, findings,
        )?;
    }
    Ok(())
}

/// Adds the fault of a form, where it has one.
fn add_fault(
    alloc: Global,
    symbols: &Symbols,
    places: Places<'_>,
    unit: u32,
    number: u32,
    sources: &[SourceForm],
    form: &UnitForm,
    findings: &mut Vec<Finding>,
) -> Mem<()>
    requires named { (fault : Fault) (name : ℕ) → form.now.fault ≡ Some fault → fault.name ≡ Some name → name < length symbols.now.idents }
    requires documents { 0 < length places.documents.now }
    requires places { CanPlace places }
    ensures inside { AreFoundIn (length places.entry.documents.now) findings.old.items → OnOk result (AreFoundIn (length places.entry.documents.now) findings.new.items) }
    ensures whole { form.now.fault ≡ None → OnOk result (findings.new.items ≡ findings.old.items) }
    ensures fault { (rs : List Read) (us : List UnitResult) (names : Names) (fault : Fault) (e : Broken) → ArePlaces places.entry rs us → KeepsNames names symbols.now →
        form.now.fault ≡ Some fault → IsFault names fault e →
        OnOk result (findings.new.items ≡ findings.old.items ++ fault_found (bytes_of (spans_of rs) us) (forms_hold unit (forms_of sources.now)) unit number e ∷ []) }
{
    let Some(fault) = &form.fault else {
        return Ok(());
    };
    let occ = fault_occ(unit, number, sources, fault);
    let spot = places.at_or_form(occ, unit, number);
    let name = name_of(symbols, fault);
    let finding = Finding::new(alloc, Some(spot), number, fault.code, name)?;
    findings.push(finding)?;
    Ok(())
}

/// Where a fault stands: at what it names, if that is a token of its form, or else where the form was read.
fn fault_occ(unit: u32, number: u32, sources: &[SourceForm], fault: &FormFault) -> Option<Occ>
    ensures { result ≡ fault_occ (forms_hold unit (forms_of sources.now) number) fault.now.occ fault.now.here }
{
    match fault.occ {
        None => fault.here,
        Some(occ) => {
            if form_holds(unit, sources, number, occ) {
                Some(occ)
            } else {
                fault.here
            }
        }
    }
}

/// What a fault names: the symbol of an identifier, or the text of a `syntax-error`.
fn name_of<'a>(symbols: &'a Symbols, fault: &'a FormFault) -> &'a str
    requires { (name : ℕ) → fault.now.name ≡ Some name → name < length symbols.now.idents }
    ensures { (names : Names) (e : Broken) → KeepsNames names symbols.now → IsFault names fault.now e → result.now ≡ fault_names e.fault }
{
    if let Some(name) = fault.name {
        return symbol_of(symbols, name);
    }
    match &fault.text {
        Some(text) => text.as_str(),
        None => "",
    }
}

/// The text of the symbol of an identifier.
fn symbol_of(symbols: &Symbols, name: IdNo) -> &str
    requires { name < length symbols.now.idents }
    ensures { (i : Identifier) → slice_get symbols.now.idents name ≡ Some i → result.now ≡ symbol_of i }
{
    symbols.name(symbols.strip(name))
}

/// Adds the references and assignments of forms that mean nothing.
pub fn add_unbound(
    alloc: Global,
    symbols: &Symbols,
    places: Places<'_>,
    forms: &[&UnitForm],
    findings: &mut Vec<Finding>,
) -> Mem<()>
    requires forms { StandIn symbols.now (map (λ form. form.now) forms.now) }
    requires documents { 0 < length places.documents.now }
    requires places { CanPlace places }
    ensures inside { AreFoundIn (length places.entry.documents.now) findings.old.items → OnOk result (AreFoundIn (length places.entry.documents.now) findings.new.items) }
    ensures exact { (rs : List Read) (us : List UnitResult) (work : Work) (unit : ℕ) (fs : List Formed) → ArePlaces places.entry rs us → KeepsNames work.symbols symbols.now → FormsStand work unit 0 (map (λ form. form.now) forms.now) fs →
        OnOk result (Adds findings.old.items findings.new.items (unbound_diagnostics (bytes_of (spans_of rs) us) (unit_leaves fs)) []) }
{
    for target in unbound(alloc, forms)? {
        add_target(alloc, symbols, places, target, findings)?;
    }
    Ok(())
}

/// Adds a use that means nothing, where it has a place.
fn add_target(
    alloc: Global,
    symbols: &Symbols,
    places: Places<'_>,
    target: Target,
    findings: &mut Vec<Finding>,
) -> Mem<()>
    requires named { (symbol : ℕ) → target.meaning ≡ meant.Free symbol → symbol < length symbols.now.symbols }
    requires documents { 0 < length places.documents.now }
    requires places { CanPlace places }
    ensures inside { AreFoundIn (length places.entry.documents.now) findings.old.items → OnOk result (AreFoundIn (length places.entry.documents.now) findings.new.items) }
    ensures exact { (rs : List Read) (us : List UnitResult) (names : Names) (m : CoreTarget) → ArePlaces places.entry rs us → KeepsNames names symbols.now → IsUnbound names target m →
        OnOk result (findings.new.items ≡ findings.old.items ++ unbound_found (bytes_of (spans_of rs) us) m) }
{
    let Some(occ) = target.occ else {
        return Ok(());
    };
    let Meaning::Free(symbol) = target.meaning else {
        return Ok(());
    };
    let spot = places.at(occ);
    let name = symbols.name(symbol);
    let finding = Finding::new(alloc, Some(spot), occ.form, 103, name)?;
    findings.push(finding)?;
    Ok(())
}

/// What is found of a unit that is broken as a whole.
pub fn whole_finding(
    alloc: Global,
    places: Places<'_>,
    unit: u32,
    fault: WholeFault,
) -> Mem<Finding>
    requires documents { 0 < length places.documents.now }
    requires places { CanPlace places }
    ensures inside { IfOk result (λ found. (at : Found) → found.at ≡ Some at → at.document < length places.entry.documents.now) }
    ensures exact { (rs : List Read) (us : List UnitResult) (r : UnitResult) (f : Whole) → ArePlaces places.entry rs us → result_at us unit ≡ Some r → IsWhole fault f →
        IfOk result (λ found. Adds [] (found ∷ []) (whole_fault (spans_of rs) (document_of us) r.unit f ∷ []) ((whole_code f, 0) ∷ [])) }
{
    let at = whole_at(places.start(text_unit(unit, fault)), fault);
    let code = whole_number(fault);
    Ok(Finding::new(alloc, Some(at), 0, code, "")?)
}

/// Adds that strings mean no text that can be included, each where it is written.
pub fn add_lost(
    alloc: Global,
    places: Places<'_>,
    lost: &[LostString],
    findings: &mut Vec<Finding>,
) -> Mem<()>
    ensures inside { AreFoundIn (length places.entry.documents.now) findings.old.items → OnOk result (AreFoundIn (length places.entry.documents.now) findings.new.items) }
    ensures exact { (ls : List Lost) → lost.now ≡ map lost_as ls → ((n : ℕ) (l : Lost) → slice_get ls n ≡ Some l → l.document < length places.entry.documents.now) →
        OnOk result (Adds findings.old.items findings.new.items (lost_diagnostics ls) []) }
{
    for string in lost {
        add_string(alloc, places, string, findings)?;
    }
    Ok(())
}

/// Adds that a string means no text that can be included, where there is the document in which it is written.
fn add_string(
    alloc: Global,
    places: Places<'_>,
    string: &LostString,
    findings: &mut Vec<Finding>,
) -> Mem<()>
    ensures inside { AreFoundIn (length places.entry.documents.now) findings.old.items → OnOk result (AreFoundIn (length places.entry.documents.now) findings.new.items) }
    ensures exact { (l : Lost) → string.now ≡ lost_as l → l.document < length places.entry.documents.now →
        OnOk result (findings.new.items ≡ findings.old.items ++ lost_found l ∷ []) }
{
    let document = string.document as usize;
    if document >= places.documents.len() {
        return Ok(());
    }
    let at = At::new(document, string.span);
    let name = string.characters.as_str();
    let finding = Finding::new(alloc, Some(at), 0, 105, name)?;
    findings.push(finding)?;
    Ok(())
}

/// A unit of the document in which a fault stands that breaks a unit as a whole.
fn text_unit(unit: u32, fault: WholeFault) -> u32
    ensures { result ≡ text_unit unit fault }
{
    match fault {
        WholeFault::BadDeclaration { unit, .. } => unit,
        WholeFault::IncludeCycle => unit,
        WholeFault::ImportCycle => unit,
        WholeFault::DefinedTwice => unit,
        WholeFault::TooLarge => unit,
        WholeFault::TooMany => unit,
    }
}

/// Where a unit is broken as a whole: at its bad declaration, or at its start.
fn whole_at(start: At, fault: WholeFault) -> At
    ensures { result ≡ whole_at start fault }
{
    match fault {
        WholeFault::BadDeclaration { span, .. } => At::new(start.document, span),
        WholeFault::IncludeCycle => start,
        WholeFault::ImportCycle => start,
        WholeFault::DefinedTwice => start,
        WholeFault::TooLarge => start,
        WholeFault::TooMany => start,
    }
}

/// The code of what breaks a unit as a whole.
fn whole_number(fault: WholeFault) -> u32
    ensures { result ≡ whole_number fault }
{
    match fault {
        WholeFault::BadDeclaration { .. } => 61,
        WholeFault::ImportCycle => 62,
        WholeFault::DefinedTwice => 63,
        WholeFault::TooLarge => 66,
        WholeFault::TooMany => 67,
        WholeFault::IncludeCycle => 68,
    }
}

/// A document that can't be read on has that alone, whatever else is told of it.
pub fn tell_unread(alloc: Global, documents: &[Document], findings: &mut Vec<Sorted>) -> Mem<()>
    requires { vec_len findings.old ≡ length documents.now }
    ensures { OnOk result (Changes (λ n. TellsStopOf (slice_get documents.now n)) findings.old.items findings.new.items) }
{
    for (place, document) in documents.iter().enumerate() {
        tell_stop(alloc, document.fault, &mut findings[place])?;
    }
    Ok(())
}

/// Where a document can't be read on is its only finding, if it can't.
fn tell_stop(alloc: Global, fault: Option<Unread>, findings: &mut Sorted) -> Mem<()>
    ensures { OnOk result (TellsStop fault findings.old findings.new) }
{
    let Some(fault) = fault else {
        return Ok(());
    };
    let code = u32::from(fault.number);
    let key = (fault.span.start, code, message(alloc, code, "")?);
    let mut only = BTreeMap::new(alloc);
    only.insert(key, fault.span.end)?;
    *findings = only;
    Ok(())
}
