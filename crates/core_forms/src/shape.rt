//! What core forms are read as. Names and trees stand in written order.
use scheme_model::Occ;
use syntax_tree::symbols::{IdNo, SymNo};
use syntax_tree::trees::Tree;

/// The keywords of core forms, and the marks of a quasiquoted datum.
#[derive(Clone, Copy, PartialEq, Eq)]
pub enum CoreKeyword {
    Quote,
    Quasiquote,
    Unquote,
    UnquoteSplicing,
    Lambda,
    CaseLambda,
    If,
    Set,
    Begin,
    Define,
    DefineValues,
    DefineRecordType,
    DefineSyntax,
    LetSyntax,
    LetrecSyntax,
    CondExpand,
    SyntaxError,
    Include,
    IncludeCi,
}

/// An identifier of a quasiquoted datum that means one of the three marks.
#[derive(Clone, Copy)]
pub struct QuasiMark {
    pub ident: IdNo,
    pub keyword: CoreKeyword,
}

/// An identifier with its place.
#[derive(Clone, Copy)]
pub struct NamePart {
    pub ident: IdNo,
    pub occ: Option<Occ>,
}

/// Names of binders, the last of which takes the rest where `dotted` holds.
#[derive(Drop)]
pub struct Formals {
    pub names: Vec<NamePart>,
    pub dotted: bool,
}

/// Formals and the forms of a body.
#[derive(Drop)]
pub struct ClauseShape {
    pub formals: Formals,
    pub body: Vec<Tree>,
}

/// The name of a local macro and its rules.
#[derive(Clone, Copy)]
pub struct LocalMacro {
    pub name: NamePart,
    pub rules: Tree,
}

/// A clause of `cond-expand`.
#[derive(Drop)]
pub struct Choice {
    pub requirement: Tree,
    pub forms: Vec<Tree>,
}

/// A field of a record with its accessor, and its modifier, where it has one.
#[derive(Clone, Copy)]
pub struct FieldShape {
    pub name: NamePart,
    pub accessor: NamePart,
    pub modifier: Option<NamePart>,
}

/// What a core form is read as. The parts of a quasiquotation are its unquoted expressions, and the places tell for each how many
/// nodes of the datum stand before its hole outside of holes, from left to right and a list before its parts.
#[derive(Drop)]
pub enum CoreShape {
    Quote(Tree),
    Quasi {
        datum: Tree,
        parts: Vec<Tree>,
        places: Vec<u32>,
    },
    Lambda(ClauseShape),
    CaseLambda(Vec<ClauseShape>),
    If(Vec<Tree>),
    Set {
        name: NamePart,
        value: Tree,
    },
    Begin(Vec<Tree>),
    Define {
        name: NamePart,
        value: Tree,
    },
    Procedure {
        name: NamePart,
        clause: ClauseShape,
    },
    Values {
        formals: Formals,
        value: Tree,
    },
    RecordType {
        name: NamePart,
        constructor: NamePart,
        used: Vec<NamePart>,
        predicate: NamePart,
        fields: Vec<FieldShape>,
    },
    DefineSyntax {
        name: NamePart,
        rules: Tree,
    },
    LetSyntax {
        macros: Vec<LocalMacro>,
        body: Vec<Tree>,
    },
    CondExpand(Vec<Choice>),
    SyntaxError(SymNo),
    Include,
}
