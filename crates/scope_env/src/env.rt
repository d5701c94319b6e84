//! The scopes of all units, and what an identifier means in one of them (R7RS 3.1, 4.3).
ghost use Rattle.std.specs.Prelude.{◌≡◌, ℕ, ◌<◌, ◌++◌, [], ◌∷◌, length, reverse, Option, Some, None, true, false, IsTrue, IsSome, ◌↔◌, IfOk, OnOk, OnErr};
ghost use Rattle.std.specs.FinMap.{get};
ghost use Rattle.scheme_model.specs.Ident.{Ident as Identifier};
ghost use Rattle.scheme_model.specs.Scopes.{Chain, Uses, Own, means};
ghost use Rattle.syntax_tree.specs.Macros.{IsIdent};
ghost use Rattle.syntax_tree.specs.Meant.{IsMeaning};
ghost use Rattle.syntax_tree.specs.Numbered.{number_of};
ghost use Rattle.scope_env.specs.Environment.{no_scopes, with_root, with_child, with_bound, with_added, with_use, with_before, without_locals, IsSound};
ghost use Rattle.scope_env.specs.Resolved.{local, own, bound_at, resolved, reached};
ghost use Rattle.scope_env.specs.Standing.{EnvFor, StandsFor};
ghost use Rattle.scope_env.specs.Marks.{marked, marked_for};
ghost use Rattle.scheme_model.specs.Meaning.{of_form};

use crate::marks::Marks;
use ls_base::{Mem, Memory};
use std::alloc::Global;
use std::collections::BTreeMap;
use std::marker::Model;
use syntax_tree::meaning::Meaning;
use syntax_tree::notes::{Notes, Question};
use syntax_tree::symbols::{IdNo, Ident, Symbols, UseNo};

/// A scope's number: its place in the list of scopes.
pub type ScopeNo = usize;

/// What a scope binds, and the scope around it. A local scope has one around it, a unit's own scope has none.
#[derive(Drop)]
struct Scope {
    parent: Option<ScopeNo>,
    bound: BTreeMap<IdNo, Meaning>,
}

/// A binding that may be made: what a scope would bind an identifier to.
#[derive(Clone, Copy)]
pub struct Bound {
    pub scope: ScopeNo,
    pub ident: IdNo,
    pub meaning: Meaning,
}

/// The scopes of all units: one `Env` holds them, since an inserted identifier leads to the unit of its macro. What some local scope
/// binds is marked, and what some unit's own scope binds: most identifiers aren't, and no scope has to be asked for them.
#[derive(Drop)]
pub struct Env {
    alloc: Global,
    scopes: Vec<Scope>,
    uses: BTreeMap<UseNo, ScopeNo>,
    roots: BTreeMap<u32, ScopeNo>,
    locals: Marks,
    owns: Marks,
}

impl Model for Env {
    ghost use Rattle.scope_env.specs.Environment.{Environment};
    ghost use Rattle.scope_env.specs.Kept.{environment_code, environment_of};
    ghost use Rattle.scope_env.specs.Marks.{IsKept};

    ghost Value = { Environment };

    ghost coded = { environment_code };

    ghost view = { λ s. environment_of s.scopes.items s.uses.entries s.roots.entries };

    ghost invariant = { λ s. IsKept (environment_of s.scopes.items s.uses.entries s.roots.entries) s.locals s.owns };
}

impl Env {
    /// An environment without scopes, which takes no memory.
    pub fn new(alloc: Global) -> Env
        ensures { result ≡ no_scopes }
    {
        Env {
            alloc,
            scopes: Vec::new(alloc),
            uses: BTreeMap::new(alloc),
            roots: BTreeMap::new(alloc),
            locals: Marks::new(alloc),
            owns: Marks::new(alloc),
        }
    }

    /// How many scopes there are.
    pub fn count(&self) -> usize
        ensures { result ≡ length self.now.scopes }
    {
        self.scopes.len()
    }

    /// Opens the own scope of a unit that has none yet. It binds nothing, and no scope is around it.
    pub fn root(&mut self, unit: u32) -> Mem<ScopeNo>
        requires { get self.old.roots unit ≡ None }
        ensures ok { IfOk result (λ n. n ≡ length self.old.scopes) }
        ensures added { OnOk result (self.new ≡ with_root self.old unit) }
        ensures err { OnErr result (self.new ≡ self.old) }
    {
        let scope = self.scopes.len();
        let bound = BTreeMap::new(self.alloc);
        self.scopes.push(Scope {
            parent: None,
            bound,
        })?;
        if self.roots.insert(unit, scope).is_err() {
            self.scopes.pop();
            return Err(Memory);
        }
        Ok(scope)
    }

    /// Opens a local scope inside another. It binds nothing yet.
    pub fn child(&mut self, parent: ScopeNo) -> Mem<ScopeNo>
        requires { parent < length self.old.scopes }
        ensures ok { IfOk result (λ n. n ≡ length self.old.scopes) }
        ensures added { OnOk result (self.new ≡ with_child self.old parent) }
        ensures err { OnErr result (self.new ≡ self.old) }
    {
        let scope = self.scopes.len();
        let bound = BTreeMap::new(self.alloc);
        self.scopes.push(Scope {
            parent: Some(parent),
            bound,
        })?;
        Ok(scope)
    }

    /// Binds an identifier in a scope, in place of what the scope bound it to before.
    pub fn bind(&mut self, scope: ScopeNo, ident: IdNo, meaning: Meaning) -> Mem<()>
        requires { scope < length self.old.scopes }
        ensures bound { OnOk result (self.new ≡ with_bound self.old scope ident meaning) }
        ensures err { OnErr result (self.new ≡ self.old) }
    {
        mark(
            &mut self.locals,
            &mut self.owns,
            self.scopes[scope].parent,
            ident,
        )?;
        let scope = &mut self.scopes[scope];
        scope.bound.insert(ident, meaning)?;
        Ok(())
    }

    /// Binds an identifier that a scope binds to what it was bound to before, or to nothing. It takes no memory.
    pub fn put_back(&mut self, scope: ScopeNo, ident: IdNo, before: Option<Meaning>)
        requires scope { scope < length self.old.scopes }
        requires bound { IsSome (bound_at self.old scope ident) }
        ensures { self.new ≡ with_before self.old scope ident before }
    {
        match before {
            None => self.unbind(scope, ident),
            Some(meaning) => self.bind_again(scope, ident, meaning),
        }
    }

    /// Binds an identifier to nothing.
    fn unbind(&mut self, scope: ScopeNo, ident: IdNo)
        requires { scope < length self.old.scopes }
        ensures { self.new ≡ with_before self.old scope ident None }
    {
        let scope = &mut self.scopes[scope];
        scope.bound.remove(&ident);
    }

    /// Binds an identifier that a scope binds to something else.
    fn bind_again(&mut self, scope: ScopeNo, ident: IdNo, meaning: Meaning)
        requires scope { scope < length self.old.scopes }
        requires bound { IsSome (bound_at self.old scope ident) }
        ensures { self.new ≡ with_bound self.old scope ident meaning }
    {
        let scope = &mut self.scopes[scope];
        let _ = scope.bound.insert(ident, meaning);
    }

    /// Keeps the scope in which the macro of a use was defined.
    pub fn note_use(&mut self, number: UseNo, scope: ScopeNo) -> Mem<()>
        requires { scope < length self.old.scopes }
        ensures noted { OnOk result (self.new ≡ with_use self.old (number_of number) scope) }
        ensures err { OnErr result (self.new ≡ self.old) }
    {
        self.uses.insert(number, scope)?;
        Ok(())
    }

    /// Forgets the scopes from a number on, none of which is a unit's own, and where the macros of uses were defined. It takes no memory.
    pub fn forget_from(&mut self, from: ScopeNo)
        requires { (u n : ℕ) → get self.old.roots u ≡ Some n → n < from }
        ensures { self.new ≡ without_locals self.old from }
    {
        self.scopes.truncate(from);
        self.uses = BTreeMap::new(self.alloc);
    }

    /// What holds of every environment: a scope is newer than the one around it, scopes that uses and units have are there, and
    /// no two units share one.
    pub fn sound(&self)
        ensures { IsSound self.now }
    {
        let _scopes = &self.scopes;
    }

    /// What this very scope binds an identifier to, with a binding added where one is given.
    #[inline(always)]
    fn here(&self, scope: ScopeNo, ident: IdNo, added: Option<Bound>) -> Option<Meaning>
        requires { scope < length self.now.scopes }
        ensures { result ≡ bound_at (with_added self.now added) scope ident }
    {
        if let Some(added) = added {
            if added.scope == scope && added.ident == ident {
                return Some(added.meaning);
            }
        }
        self.scopes[scope].bound.get(&ident).copied()
    }

    /// What this very scope binds an identifier to. It takes no memory.
    pub fn bound(&self, scope: ScopeNo, ident: IdNo) -> Option<Meaning>
        requires { scope < length self.now.scopes }
        ensures { result ≡ bound_at self.now scope ident }
    {
        self.here(scope, ident, None)
    }

    /// Whether this very scope binds an identifier. It takes no memory.
    pub fn binds(&self, scope: ScopeNo, ident: IdNo) -> bool
        requires { scope < length self.now.scopes }
        ensures { IsTrue result ↔ IsSome (bound_at self.now scope ident) }
    {
        self.here(scope, ident, None).is_some()
    }

    /// The scope that a walk is in: the one that it set out from, or that of the last use that it went through.
    fn reached(&self, start: ScopeNo, last: Option<UseNo>) -> Option<ScopeNo>
        requires { start < length self.now.scopes }
        ensures scope { result ≡ reached self.now start last }
        ensures within { (n : ℕ) → result ≡ Some n → n < length self.now.scopes }
    {
        match last {
            None => Some(start),
            Some(number) => self.uses.get(&number).copied(),
        }
    }

    /// What the innermost local scope that binds an identifier binds it to, where a walk came to. The scope is looked up only where
    /// some local scope binds the identifier.
    #[inline(always)]
    fn local(
        &self,
        start: ScopeNo,
        last: Option<UseNo>,
        ident: IdNo,
        added: Option<Bound>,
    ) -> Option<Meaning>
        requires { start < length self.now.scopes }
        ensures { result ≡ local (with_added self.now added) (reached self.now start last) ident }
    {
        if is_unmarked(&self.locals, ident, added) {
            return None;
        }
        self.innermost(self.reached(start, last), ident, added)
    }

    /// What the innermost local scope that binds an identifier binds it to, from a scope outwards.
    #[inline(always)]
    fn innermost(
        &self,
        scope: Option<ScopeNo>,
        ident: IdNo,
        added: Option<Bound>,
    ) -> Option<Meaning>
        requires { (n : ℕ) → scope ≡ Some n → n < length self.now.scopes }
        ensures { result ≡ local (with_added self.now added) scope ident }
    {
        let mut at = scope?;
        loop {
            let parent = self.scopes[at].parent?;
            if let Some(meaning) = self.here(at, ident, added) {
                return Some(meaning);
            }
            at = parent;
        }
    }

    /// What the own scope of a unit binds an identifier to.
    #[inline(always)]
    fn own(&self, unit: u32, ident: IdNo, added: Option<Bound>) -> Option<Meaning>
        ensures { result ≡ own (with_added self.now added) unit ident }
    {
        if is_unmarked(&self.owns, ident, added) {
            return None;
        }
        let root = self.roots.get(&unit)?;
        self.here(*root, ident, added)
    }

    /// What an identifier means in a scope, with a binding added where one is given.
    fn meant(&self, scope: ScopeNo, ident: IdNo, symbols: &Symbols, added: Option<Bound>) -> Meaning
        requires scope { scope < length self.now.scopes }
        requires ident { ident < length symbols.now.idents }
        ensures value { (i : Identifier) → IsIdent symbols.now ident i → result ≡ resolved (with_added self.now added) symbols.now (Some scope) i }
        ensures meaning { (given : Own) (uses : Uses) (c : Chain) (unit form : ℕ) (i : Identifier) → IsIdent symbols.now ident i →
            EnvFor symbols.now (with_added self.now added) given uses → StandsFor symbols.now (with_added self.now added) (Some scope) c →
            IsMeaning symbols.now unit form result (of_form unit form (means given uses c i)) }
    {
        symbols.told_apart();
        self.sound();
        let mut last = None;
        let mut at = ident;
        loop {
            if let Some(meaning) = self.local(scope, last, at, added) {
                return meaning;
            }
            match symbols.ident_at(at) {
                Ident::Written { unit, symbol } => {
                    return self.own(unit, at, added).unwrap_or(Meaning::Free(symbol));
                }
                Ident::Inserted { id, number } => {
                    if let Some(meaning) = self.own(number.unit, at, added) {
                        return meaning;
                    }
                    last = Some(number);
                    at = id;
                }
            }
        }
    }

    /// What an identifier means in a scope: the innermost local scope that binds exactly this identifier decides, and then the
    /// own scope of its unit, or of the unit of the use that inserted it. Else a written identifier is free, and an inserted one
    /// means what the identifier inside it means in the scope of its use. It takes no memory.
    pub fn resolve(&self, scope: ScopeNo, ident: IdNo, symbols: &Symbols) -> Meaning
        requires scope { scope < length self.now.scopes }
        requires ident { ident < length symbols.now.idents }
        ensures value { (i : Identifier) → IsIdent symbols.now ident i → result ≡ resolved self.now symbols.now (Some scope) i }
        ensures meaning { (given : Own) (uses : Uses) (c : Chain) (unit form : ℕ) (i : Identifier) → IsIdent symbols.now ident i →
            EnvFor symbols.now self.now given uses → StandsFor symbols.now self.now (Some scope) c →
            IsMeaning symbols.now unit form result (of_form unit form (means given uses c i)) }
    {
        self.meant(scope, ident, symbols, None)
    }

    /// What `resolve` would answer if one more identifier were bound, in any scope. Nothing is bound, and it takes no memory.
    pub fn resolve_with(
        &self,
        scope: ScopeNo,
        ident: IdNo,
        symbols: &Symbols,
        added: Bound,
    ) -> Meaning
        requires scope { scope < length self.now.scopes }
        requires ident { ident < length symbols.now.idents }
        ensures value { (i : Identifier) → IsIdent symbols.now ident i →
            result ≡ resolved (with_bound self.now added.scope added.ident added.meaning) symbols.now (Some scope) i }
        ensures meaning { (given : Own) (uses : Uses) (c : Chain) (unit form : ℕ) (i : Identifier) → IsIdent symbols.now ident i →
            EnvFor symbols.now (with_bound self.now added.scope added.ident added.meaning) given uses →
            StandsFor symbols.now (with_bound self.now added.scope added.ident added.meaning) (Some scope) c →
            IsMeaning symbols.now unit form result (of_form unit form (means given uses c i)) }
    {
        self.meant(scope, ident, symbols, Some(added))
    }

    /// What `resolve` answers, as a question of the notes; `head` tells that it was asked of the head of a form.
    pub fn resolve_noted(
        &self,
        scope: ScopeNo,
        ident: IdNo,
        head: bool,
        symbols: &Symbols,
        notes: &mut Notes,
    ) -> Mem<Meaning>
        requires scope { scope < length self.now.scopes }
        requires ident { ident < length symbols.now.idents }
        ensures value { (i : Identifier) → IsIdent symbols.now ident i →
            IfOk result (λ m. m ≡ resolved self.now symbols.now (Some scope) i) }
        ensures meaning { (given : Own) (uses : Uses) (c : Chain) (unit form : ℕ) (i : Identifier) → IsIdent symbols.now ident i →
            EnvFor symbols.now self.now given uses → StandsFor symbols.now self.now (Some scope) c →
            IfOk result (λ m. IsMeaning symbols.now unit form m (of_form unit form (means given uses c i))) }
        ensures noted { IfOk result (λ m. notes.new ≡ notes.old ++ Question.Lookup ident head m ∷ []) }
        ensures err { OnErr result (notes.new ≡ notes.old) }
    {
        let answer = self.resolve(scope, ident, symbols);
        notes.push(Question::Lookup {
            ident,
            head,
            answer,
        })?;
        Ok(answer)
    }
}

/// Marks an identifier that a scope inside this one, or inside none, is to bind.
fn mark(locals: &mut Marks, owns: &mut Marks, parent: Option<ScopeNo>, ident: IdNo) -> Mem<()>
    ensures kept { (around : Option ℕ) (n : ℕ) → marked_for locals.new owns.new around n ≡ false → marked_for locals.old owns.old around n ≡ false }
    ensures marked { OnOk result (marked_for locals.new owns.new parent ident ≡ true) }
{
    match parent {
        Some(_) => Ok(locals.add(ident)?),
        None => Ok(owns.add(ident)?),
    }
}

/// Whether an identifier has no mark, and no binding is added.
fn is_unmarked(marks: &Marks, ident: IdNo, added: Option<Bound>) -> bool
    ensures { IsTrue result → (added ≡ None) × (marked marks.now ident ≡ false) }
{
    added.is_none() && !marks.has(ident)
}
