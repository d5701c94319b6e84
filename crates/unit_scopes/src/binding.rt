//! Binders and scopes (R7RS 3.1): the parameters of procedures, the fields of records.
ghost use Rattle.std.specs.Prelude.{◌≡◌, ◌+◌, ◌^◌, ◌<◌, length, IfOk, OnOk};
ghost use Rattle.unit_scopes.specs.Binds.{local_binder, local_binders, with_locals, Binds};

use crate::scope::UnitScope;
use core_forms::NamePart;
use core_tree::cores::Binder;
use ls_base::Mem;
use scope_env::ScopeNo;
use syntax_tree::meaning::Meaning;

impl UnitScope {
    /// The next local of the form, as the binder of a name.
    pub(crate) fn take_local(&mut self, name: NamePart) -> Binder
        requires { self.old.form.budget.locals + 1 < 2 ^ 64 }
        ensures binder { result ≡ local_binder self.old.form.budget.locals name }
        ensures taken { self.new ≡ with_locals self.old (self.old.form.budget.locals + 1) }
    {
        let number = self.form.budget.locals;
        self.form.budget.locals += 1;
        Binder {
            number,
            ident: name.ident,
            occ: name.occ,
        }
    }

    /// The next locals of the form, as the binders of names that no scope binds.
    pub fn take_locals(&mut self, names: &[NamePart]) -> Mem<Vec<Binder>>
        requires { self.old.form.budget.locals + length names.now < 2 ^ 64 }
        ensures binders { IfOk result (λ bs. bs.items ≡ local_binders self.old.form.budget.locals names.now) }
        ensures taken { OnOk result (self.new ≡ with_locals self.old (self.old.form.budget.locals + length names.now)) }
    {
        let mut binders = Vec::new(self.alloc);
        for name in names {
            let binder = self.take_local(*name);
            binders.push(binder)?;
        }
        Ok(binders)
    }

    /// Binds names to the next locals in a new scope inside another.
    pub fn bind_names(&mut self, scope: ScopeNo, names: &[NamePart]) -> Mem<(ScopeNo, Vec<Binder>)>
        requires scope { scope < length self.old.env.scopes }
        requires room { self.old.form.budget.locals + length names.now < 2 ^ 64 }
        ensures { IfOk result (λ p. Binds self.old self.new scope names.now p.0 p.1.items) }
    {
        let inner = self.env.child(scope)?;
        let mut binders = Vec::with_capacity(self.alloc, names.len())?;
        for name in names {
            let binder = self.take_local(*name);
            self.env
                .bind(inner, name.ident, Meaning::Local(binder.number))?;
            binders.push(binder)?;
        }
        Ok((inner, binders))
    }
}
