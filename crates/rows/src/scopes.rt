//! Rows of scope_env: what identifiers mean in scopes.
ghost use Rattle.std.specs.Prelude.{◌≡◌, ◌<◌, length, IfOk, OnOk};

use row_values::argument::{flag, item, list, number, text};
use row_values::fault::{Row, RowFault};
use row_values::shown::Shown;
use scope_env::{Env, ScopeNo};
use serde_json::Value;
use std::alloc::Global;
use syntax_tree::meaning::Meaning;
use syntax_tree::notes::{Notes, Question};
use syntax_tree::symbols::{IdNo, Ident, Symbols, UseNo};

pub fn answer(out: &mut Shown, call: &str, argument: &Value) -> Row<()> {
    match call {
        "of" => scopes(out, list(argument)?),
        _ => Err(RowFault::NoCall),
    }
}

/// The scopes of a row, how many they are, and the identifiers that it names.
#[derive(Drop)]
struct Script {
    env: Env,
    scopes: usize,
    symbols: Symbols,
}

/// The answers of the steps that ask.
fn scopes(out: &mut Shown, steps: &[Value]) -> Row<()> {
    let mut script = Script::new(out.alloc())?;
    out.open();
    for step in steps {
        script.step(out, step)?;
    }
    out.close();
    Ok(())
}

impl Script {
    /// The units 0 and 1, whose own scopes are 0 and 1.
    fn new(alloc: Global) -> Row<Script>
        ensures { IfOk result (λ script. script.scopes ≡ length script.env.scopes) }
    {
        let mut env = Env::new(alloc);
        env.root(0)?;
        env.root(1)?;
        Ok(Script {
            env,
            scopes: 2,
            symbols: Symbols::new(alloc),
        })
    }

    fn step(&mut self, out: &mut Shown, step: &Value) -> Row<()>
        requires { self.old.scopes ≡ length self.old.env.scopes }
        ensures { OnOk result (self.new.scopes ≡ length self.new.env.scopes) }
    {
        match text(item(step, 0)?)? {
            "child" => self.child(item(step, 1)?),
            "bind" => self.bind(item(step, 1)?, item(step, 2)?, item(step, 3)?),
            "use" => self.note_use(item(step, 1)?, item(step, 2)?),
            "resolve" => self.resolve(out, item(step, 1)?, item(step, 2)?),
            "noted" => self.resolve_noted(out, step),
            _ => Err(RowFault::NoCall),
        }
    }

    /// A scope's number, where there is such a scope.
    fn scope(&self, value: &Value) -> Row<ScopeNo>
        ensures { IfOk result (λ scope. scope < self.now.scopes) }
    {
        let scope = number(value)? as usize;
        if scope < self.scopes {
            return Ok(scope);
        }
        Err(RowFault::BadArgument)
    }

    fn child(&mut self, parent: &Value) -> Row<()>
        requires { self.old.scopes ≡ length self.old.env.scopes }
        ensures { OnOk result (self.new.scopes ≡ length self.new.env.scopes) }
    {
        let parent = self.scope(parent)?;
        let scopes = self.scopes.checked_add(1).ok_or(RowFault::TooLong)?;
        self.env.child(parent)?;
        self.scopes = scopes;
        Ok(())
    }

    fn bind(&mut self, scope: &Value, name: &Value, meaning: &Value) -> Row<()>
        requires { self.old.scopes ≡ length self.old.env.scopes }
        ensures { OnOk result (self.new.scopes ≡ length self.new.env.scopes) }
    {
        let scope = self.scope(scope)?;
        let id = identifier_of(&mut self.symbols, name)?;
        let meaning = meaning_of(&mut self.symbols, meaning)?;
        Ok(self.env.bind(scope, id, meaning)?)
    }

    fn note_use(&mut self, number: &Value, scope: &Value) -> Row<()>
        requires { self.old.scopes ≡ length self.old.env.scopes }
        ensures { OnOk result (self.new.scopes ≡ length self.new.env.scopes) }
    {
        let scope = self.scope(scope)?;
        Ok(self.env.note_use(use_no(number)?, scope)?)
    }

    fn resolve(&mut self, out: &mut Shown, scope: &Value, name: &Value) -> Row<()>
        requires { self.old.scopes ≡ length self.old.env.scopes }
        ensures { OnOk result (self.new.scopes ≡ length self.new.env.scopes) }
    {
        let scope = self.scope(scope)?;
        let id = identifier_of(&mut self.symbols, name)?;
        show_meaning(out, self.env.resolve(scope, id, &self.symbols));
        Ok(())
    }

    /// The meaning of an identifier, and what was noted.
    fn resolve_noted(&mut self, out: &mut Shown, step: &Value) -> Row<()>
        requires { self.old.scopes ≡ length self.old.env.scopes }
        ensures { OnOk result (self.new.scopes ≡ length self.new.env.scopes) }
    {
        let scope = self.scope(item(step, 1)?)?;
        let id = identifier_of(&mut self.symbols, item(step, 2)?)?;
        let head = flag(item(step, 3)?)?;
        let mut notes = Notes::new(out.alloc());
        let meaning = self
            .env
            .resolve_noted(scope, id, head, &self.symbols, &mut notes)?;
        out.open();
        show_meaning(out, meaning);
        show_questions(out, notes.as_slice());
        out.close();
        Ok(())
    }
}

/// `[NAME, UNIT, [USE, ..]]`: an identifier.
fn identifier_of(symbols: &mut Symbols, value: &Value) -> Row<IdNo>
    ensures { IfOk result (λ id. id < length symbols.new.idents) }
{
    let mut id = written(symbols, text(item(value, 0)?)?, number(item(value, 1)?)?)?;
    for by in list(item(value, 2)?)? {
        id = inserted(symbols, id, use_no(by)?)?;
    }
    Ok(id)
}

/// The identifier of a name that is written in a unit.
fn written(symbols: &mut Symbols, name: &str, unit: u32) -> Row<IdNo>
    ensures { IfOk result (λ id. id < length symbols.new.idents) }
{
    let symbol = symbols.symbol(name)?;
    Ok(symbols.ident(Ident::Written { unit, symbol })?)
}

/// The identifier that a macro use inserts.
fn inserted(symbols: &mut Symbols, id: IdNo, number: UseNo) -> Row<IdNo>
    requires { id < length symbols.old.idents }
    ensures { IfOk result (λ id. id < length symbols.new.idents) }
{
    Ok(symbols.ident(Ident::Inserted { id, number })?)
}

/// `[UNIT, FORM, COUNT]`.
fn use_no(value: &Value) -> Row<UseNo> {
    Ok(UseNo {
        unit: number(item(value, 0)?)?,
        form: number(item(value, 1)?)?,
        count: number(item(value, 2)?)?,
    })
}

/// `["local",NUMBER]`, `["global",UNIT,IDENTIFIER]`, `["standard",NAME]` or `["free",NAME]`.
pub fn meaning_of(symbols: &mut Symbols, value: &Value) -> Row<Meaning> {
    match text(item(value, 0)?)? {
        "local" => Ok(Meaning::Local(number(item(value, 1)?)? as u64)),
        "global" => Ok(Meaning::Global {
            unit: number(item(value, 1)?)?,
            ident: identifier_of(symbols, item(value, 2)?)?,
        }),
        "standard" => Ok(Meaning::Standard(symbols.symbol(text(item(value, 1)?)?)?)),
        "free" => Ok(Meaning::Free(symbols.symbol(text(item(value, 1)?)?)?)),
        _ => Err(RowFault::BadArgument),
    }
}

pub fn show_meaning(out: &mut Shown, meaning: Meaning) {
    out.open();
    match meaning {
        Meaning::Local(local) => {
            out.string("local");
            out.number(local);
        }
        Meaning::Global { unit, ident } => {
            out.string("global");
            out.number(unit as u64);
            out.number(ident as u64);
        }
        Meaning::Standard(symbol) => {
            out.string("standard");
            out.number(symbol as u64);
        }
        Meaning::Free(symbol) => {
            out.string("free");
            out.number(symbol as u64);
        }
    }
    out.close();
}

/// No other question is asked of scopes.
fn show_questions(out: &mut Shown, questions: &[Question]) {
    for question in questions {
        match question {
            Question::Lookup {
                ident,
                head,
                answer,
            } => show_lookup(out, *ident, *head, *answer),
            Question::Macro { .. } => out.fail(RowFault::NotShown),
            Question::MacroRules { .. } => out.fail(RowFault::NotShown),
            Question::Literal { .. } => out.fail(RowFault::NotShown),
            Question::Library { .. } => out.fail(RowFault::NotShown),
            Question::Definition { .. } => out.fail(RowFault::NotShown),
            Question::Declared => out.fail(RowFault::NotShown),
        }
    }
}

/// `["lookup",IDENTIFIER,HEAD,MEANING]`.
fn show_lookup(out: &mut Shown, ident: IdNo, head: bool, answer: Meaning) {
    out.open();
    out.string("lookup");
    out.number(ident as u64);
    out.flag(head);
    show_meaning(out, answer);
    out.close();
}
