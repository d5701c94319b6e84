//! What is local to the forms of units is forgotten between two of them (R7RS 4.3, 5.3): the scopes inside of units, where macros were
//! used, and local macros.
ghost use Rattle.std.specs.Prelude.{◌≡◌, ℕ, ◌+◌, List, Option, None, take, min};
ghost use Rattle.std.specs.Option.{option_map};
ghost use Rattle.scheme_model.specs.Ident.{Ident as Identifier};
ghost use Rattle.scheme_model.specs.Order.{Note, Transformer};
ghost use Rattle.scheme_model.specs.ScopedExpansion.{Frames, FramedIdent, ScopedState};
ghost use Rattle.syntax_tree.specs.Names.{Names};
ghost use Rattle.syntax_tree.specs.declared.meaning.Meaning.TheVariants as meanings;
ghost use Rattle.syntax_tree.specs.declared.trees.Work.{Work as AnyWork};
ghost use Rattle.unit_scopes.specs.Editions.{EditionsTell};
ghost use Rattle.unit_scopes.specs.Forgotten.{ForgetsLocals, MacrosAtRoot, AreAtRoot, AllOwn, OwnFirst, without_local_scopes};
ghost use Rattle.unit_scopes.specs.Macros.{macro_in};
ghost use Rattle.unit_scopes.specs.Outcomes.{KeepsNumbers};
ghost use Rattle.unit_scopes.specs.Units.{UnitStands};
ghost use Rattle.unit_scopes.specs.Within.{macro_within};

use crate::macros::Macros;
use crate::scope::UnitScope;
use scope_env::ScopeNo;
use std::alloc::Global;
use std::collections::BTreeMap;

impl Macros {
    /// Forgets the local macros. Others of newer scopes than this one are from now on of this one.
    pub(crate) fn forget_locals(&mut self, alloc: Global, last: ScopeNo)
        ensures locals { (f n : ℕ) → macro_in self.new f (meanings.Local n) ≡ None }
        ensures globals { (f u i : ℕ) → macro_in self.new f (meanings.Global u i) ≡ option_map (macro_within last) (macro_in self.old f (meanings.Global u i)) }
        ensures standards { (f s : ℕ) → macro_in self.new f (meanings.Standard s) ≡ option_map (macro_within last) (macro_in self.old f (meanings.Standard s)) }
    {
        self.locals = BTreeMap::new(alloc);
        self.globals.keep_within(last);
        self.standards.retain(|_, kept| {
            kept.scope = kept.scope.min(last);
            true
        });
    }
}

impl UnitScope {
    /// Forgets what is local to the forms so far. It takes no memory.
    pub fn forget_locals(&mut self)
        requires { OwnFirst self.old }
        ensures after { self.new ≡ without_local_scopes self.old self.new.macros self.new.asked }
        ensures own { OwnFirst self.new }
        ensures all_own { AllOwn self.new }
        ensures rests { (work : AnyWork) (ls : List Frames) (s t : ScopedState) (notes : List (Note FramedIdent)) → UnitStands work self.old ls s notes →
            ForgetsLocals s t → MacrosAtRoot s → AreAtRoot notes → UnitStands work self.new (take (self.old.root + 1) ls) t notes }
        ensures editions { (names : Names) (s t : ScopedState) (editions : ℕ → Option (Transformer Frames Identifier)) → ForgetsLocals s t → EditionsTell names self.old.macros s editions → EditionsTell names self.new.macros t editions }
        ensures numbers { KeepsNumbers self.old self.new }
    {
        self.env.sound();
        let _scopes = self.env.count();
        self.macros.forget_locals(self.alloc, self.root);
        self.asked.keep_within(self.root);
        self.env.forget_from(self.root + 1);
    }
}
