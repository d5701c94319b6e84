//! The forms of two units that go on: the longest common front and then the longest common end, or all forms of a unit with included ones.
ghost use Rattle.std.specs.Prelude.{◌≡◌, ◌+◌, ◌≤◌, drop, length, reverse, true, IfOk, IfSome};
ghost use Rattle.std.specs.List.{list_any};
ghost use Rattle.std.specs.Option.{option_map};
ghost use Rattle.std.specs.Str.{bytes_eq};
ghost use Rattle.carried_forms.specs.Alike.{same_list, same_tree};
ghost use Rattle.carried_forms.specs.Paired as paired;
ghost use Rattle.form_pairs.specs.Fronts.{front_of, is_included, runs_in};
ghost use Rattle.form_pairs.specs.Units.{form_as, form_at, forms_in, texts_at};

use crate::same::is_same;
use crate::units::{Side, first_of, forms_at, home_of};
use ls_base::Mem;
use std::alloc::Global;
use unit_sources::UnitForm;

/// So many forms at the front, and so many at the end.
#[derive(Clone, Copy)]
pub struct Runs {
    pub front: usize,
    pub end: usize,
}

/// Whether two forms are the same.
fn is_same_form(alloc: Global, a: &UnitForm, b: &UnitForm) -> Mem<bool>
    ensures { IfOk result (λ same. same ≡ same_tree bytes_eq (form_as a.now) (form_as b.now)) }
{
    is_same(alloc, &a.datum, first_of(a), &b.datum, first_of(b))
}

/// How many forms are the same at the front.
fn common_front(alloc: Global, a: &[UnitForm], b: &[UnitForm]) -> Mem<usize>
    ensures count { IfOk result (λ n. n ≡ front_of a.now b.now) }
    ensures before { IfOk result (λ n. n ≤ length a.now) }
    ensures after { IfOk result (λ n. n ≤ length b.now) }
{
    let most = a.len().min(b.len());
    for n in 0..most {
        if !is_same_form(alloc, &a[n], &b[n])? {
            return Ok(n);
        }
    }
    Ok(most)
}

/// How many forms are the same at the end.
fn common_end(alloc: Global, a: &[UnitForm], b: &[UnitForm]) -> Mem<usize>
    ensures count { IfOk result (λ n. n ≡ front_of (reverse a.now) (reverse b.now)) }
    ensures before { IfOk result (λ n. n ≤ length a.now) }
    ensures after { IfOk result (λ n. n ≤ length b.now) }
{
    let most = a.len().min(b.len());
    for n in 0..most {
        if !is_same_form(alloc, &a[a.len() - 1 - n], &b[b.len() - 1 - n])? {
            return Ok(n);
        }
    }
    Ok(most)
}

/// The forms that go on by the ends of both lists.
fn by_ends(alloc: Global, a: &[UnitForm], b: &[UnitForm]) -> Mem<Runs>
    ensures front { IfOk result (λ r. r.front ≡ front_of a.now b.now) }
    ensures end { IfOk result (λ r. r.end ≡ front_of (reverse (drop r.front a.now)) (reverse (drop r.front b.now))) }
    ensures before { IfOk result (λ r. r.front + r.end ≤ length a.now) }
    ensures after { IfOk result (λ r. r.front + r.end ≤ length b.now) }
{
    let front = common_front(alloc, a, b)?;
    let end = common_end(alloc, &a[front..], &b[front..])?;
    Ok(Runs { front, end })
}

/// Whether some form is included from another text.
fn includes(forms: &[UnitForm]) -> bool
    ensures { result ≡ list_any is_included forms.now }
{
    for form in forms {
        if form.home.is_some() {
            return true;
        }
    }
    false
}

/// Whether a form of each of two units with one number are the same and at home at the same place.
fn is_same_at_home(
    alloc: Global,
    before: &Side<'_>,
    f: &UnitForm,
    after: &Side<'_>,
    g: &UnitForm,
    number: usize,
) -> Mem<bool>
    ensures { IfOk result (λ same. same ≡ paired.is_same_at_home
        (form_at before.now.units.now before.now.unit number f.now) (form_at after.now.units.now after.now.unit number g.now)) }
{
    let (uri, place) = home_of(before, number, f);
    let (other, there) = home_of(after, number, g);
    let same = is_same_form(alloc, f, g)?;
    Ok(same & ((uri == other) & (place == there)))
}

/// Whether all forms of two units are the same, each at home at the same place.
fn are_same_at_home(alloc: Global, before: &Side<'_>, after: &Side<'_>) -> Mem<bool>
    ensures same { IfOk result (λ same. same ≡ same_list paired.is_same_at_home (texts_at before.now.units.now before.now.unit) (texts_at after.now.units.now after.now.unit)) }
    ensures many { IfOk result (λ same. same ≡ true → length (forms_in before.now.units.now before.now.unit) ≡ length (forms_in after.now.units.now after.now.unit)) }
{
    let old = forms_at(before);
    let new = forms_at(after);
    if old.len() != new.len() {
        return Ok(false);
    }
    for k in 0..old.len() {
        if !is_same_at_home(alloc, before, &old[k], after, &new[k], k)? {
            return Ok(false);
        }
    }
    Ok(true)
}

/// The forms of two units that go on. `None` where the unit doesn't: some form is included, and not all are the same at the same places.
pub fn form_runs(alloc: Global, before: &Side<'_>, after: &Side<'_>) -> Mem<Option<Runs>>
    ensures pairs { IfOk result (λ r. option_map (runs_in before.now after.now) r
        ≡ paired.form_pairs (texts_at before.now.units.now before.now.unit) (texts_at after.now.units.now after.now.unit)) }
    ensures before { IfOk result (λ o. IfSome o (λ r. r.front + r.end ≤ length (forms_in before.now.units.now before.now.unit))) }
    ensures after { IfOk result (λ o. IfSome o (λ r. r.front + r.end ≤ length (forms_in after.now.units.now after.now.unit))) }
{
    let old = forms_at(before);
    let new = forms_at(after);
    if !(includes(old) | includes(new)) {
        return Ok(Some(by_ends(alloc, old, new)?));
    }
    if !are_same_at_home(alloc, before, after)? {
        return Ok(None);
    }
    Ok(Some(Runs {
        front: old.len(),
        end: 0,
    }))
}
