//! Cores (R7RS 4.1, 4.2.8, 4.3.1, 5.3, 5.5): what expressions, bodies and definitions are once no macro is left.
use scheme_model::Occ;
use syntax_tree::meaning::Meaning;
use syntax_tree::rules::Rules;
use syntax_tree::symbols::IdNo;
use syntax_tree::trees::Tree;

/// An identifier where it is bound: by a local of its form with this number, or by the unit's definition with this number.
#[derive(Clone, Copy)]
pub struct Binder {
    pub number: u64,
    pub ident: IdNo,
    pub occ: Option<Occ>,
}

/// An identifier where it is used, and what it means there.
#[derive(Clone, Copy)]
pub struct Target {
    pub meaning: Meaning,
    pub ident: IdNo,
    pub occ: Option<Occ>,
}

/// A leaf of a macro's rules, and what it means where the macro is defined: a literal in its list or in a pattern, or an
/// identifier of a template that is no pattern variable.
#[derive(Clone, Copy)]
pub struct RuleLeaf {
    pub target: Target,
    pub literal: bool,
}

/// A macro where it is defined. Its leaves are in the order of its rules, the list of literals first.
#[derive(Drop)]
pub struct MacroDef {
    pub binder: Binder,
    pub rules: Rules,
    pub leaves: Vec<RuleLeaf>,
}

/// A field that a record's constructor uses, by its place among the fields, and where the constructor names it.
#[derive(Clone, Copy)]
pub struct FieldUse {
    pub field: u32,
    pub occ: Option<Occ>,
}

/// The core of an expression.
#[cycle(core)]
#[derive(Drop)]
pub enum Core {
    Ref(Target),
    /// An atom that stands for itself.
    Const(Tree),
    Quote(Tree),
    /// A quasiquoted datum with a hole for each of its unquoted expressions. The datum's tree has these expressions in it; a place
    /// tells how many of its nodes stand before the hole, those in other holes left out.
    Quasi {
        datum: Tree,
        places: Vec<u32>,
        parts: Vec<Core>,
    },
    Lambda(Clause),
    CaseLambda(Vec<Clause>),
    If(Vec<Core>),
    Set {
        target: Target,
        value: Box<Core>,
    },
    Call(Vec<Core>),
    Body(Vec<CorePart>),
    LetSyntax {
        macros: Vec<MacroDef>,
        body: Box<Core>,
    },
}

/// Binders, the last of which takes the arguments that are left where `dotted` holds, and a body.
#[cycle(core)]
#[derive(Drop)]
pub struct Clause {
    pub binders: Vec<Binder>,
    pub dotted: bool,
    pub body: Box<Core>,
}

/// A part of a body or of a unit: an expression or a definition.
#[cycle(core)]
#[derive(Drop)]
pub enum CorePart {
    Expression(Core),
    Define {
        binder: Binder,
        value: Core,
    },
    /// The last binder takes the values that are left where `dotted` holds.
    Values {
        binders: Vec<Binder>,
        dotted: bool,
        value: Core,
    },
    /// A record's definition: its type, constructor, predicate, accessors and modifiers, in this order; its fields; which fields
    /// have a modifier, and which its constructor uses, by their places.
    Fields {
        binders: Vec<Binder>,
        fields: Vec<Binder>,
        modified: Vec<u32>,
        used: Vec<FieldUse>,
    },
    Syntax(MacroDef),
}
