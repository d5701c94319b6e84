//! The kinds of nodes that two programs are compared by.
ghost use Rattle.std.specs.Prelude.{◌≡◌};
ghost use Rattle.rename_model.specs.Walks.{node_number};

/// A kind of node: of cores, of parts of bodies and units, of binders, of data, of rules, and of what names mean.
#[derive(Clone, Copy)]
pub enum Node {
    Reference,
    Constant,
    Quotation,
    Quasiquotation,
    Procedure,
    CaseLambda,
    Conditional,
    Assignment,
    Call,
    Body,
    LocalMacros,
    Form,
    Expression,
    Definition,
    Values,
    Record,
    Syntax,
    BindsLocal,
    BindsDefinition,
    Symbol,
    Hole,
    Numeral,
    String,
    Character,
    True,
    False,
    Bytes,
    List,
    Vector,
    Rules,
    RuleLiteral,
    Dots,
    Underscore,
    PatternVariable,
    Inserted,
    Escape,
    OfPrelude,
    Standard,
    Unbound,
}

impl Node {
    ghost use Rattle.alpha_equal.specs.Points.{node_as};

    /// Its number, by which it is told from other kinds.
    pub fn number(self) -> u32
        ensures { result ≡ node_number (node_as self) }
    {
        match self {
            Node::Reference => 0,
            Node::Constant => 1,
            Node::Quotation => 2,
            Node::Quasiquotation => 3,
            Node::Procedure => 4,
            Node::CaseLambda => 5,
            Node::Conditional => 6,
            Node::Assignment => 7,
            Node::Call => 8,
            Node::Body => 9,
            Node::LocalMacros => 10,
            Node::Form => 11,
            Node::Expression => 12,
            Node::Definition => 13,
            Node::Values => 14,
            Node::Record => 15,
            Node::Syntax => 16,
            Node::BindsLocal => 17,
            Node::BindsDefinition => 18,
            Node::Symbol => 19,
            Node::Hole => 20,
            Node::Numeral => 21,
            Node::String => 22,
            Node::Character => 23,
            Node::True => 24,
            Node::False => 25,
            Node::Bytes => 26,
            Node::List => 27,
            Node::Vector => 28,
            Node::Rules => 29,
            Node::RuleLiteral => 30,
            Node::Dots => 31,
            Node::Underscore => 32,
            Node::PatternVariable => 33,
            Node::Inserted => 34,
            Node::Escape => 35,
            Node::OfPrelude => 36,
            Node::Standard => 37,
            Node::Unbound => 38,
        }
    }
}
