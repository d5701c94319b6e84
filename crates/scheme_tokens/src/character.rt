//! Classes of characters (R7RS 7.1.1).
ghost use Rattle.std.specs.Prelude.{◌≡◌};
ghost use Rattle.scheme_tokens.specs.Lexical.{is_delimiter, is_line_end, is_blank, is_sign, is_hex_digit, standing_of, is_anywhere, is_somewhere, is_initial, is_subsequent, is_sign_subsequent, is_dot_subsequent};
ghost use Rattle.scheme_tokens.specs.Mirror.Told.{test_of};

use unicode::properties::GeneralCategory;

/// A class of characters that a front of a text may consist of.
#[derive(Clone, Copy)]
pub enum Class {
    /// No delimiter.
    Inside,
    HexDigit,
    Blank,
}

impl Class {
    #[inline(always)]
    pub fn contains(self, c: char) -> bool
        ensures { result ≡ test_of self c }
    {
        match self {
            Class::Inside => !is_delimiter(c),
            Class::HexDigit => is_hex_digit(c),
            Class::Blank => is_blank(c),
        }
    }
}

/// What ends a word: white space, a quotation mark, a bar, a parenthesis, a semicolon.
#[tactic(auto, unfolding(crate::specs::Lexical::is_delimiter))]
#[inline(always)]
pub fn is_delimiter(c: char) -> bool
    ensures { result ≡ is_delimiter c }
{
    c.is_whitespace() || c == '"' || c == '|' || c == '(' || c == ')' || c == ';'
}

pub fn is_line_end(c: char) -> bool
    ensures { result ≡ is_line_end c }
{
    c == '\n' || c == '\r'
}

/// A space or a tab.
pub fn is_blank(c: char) -> bool
    ensures { result ≡ is_blank c }
{
    c == ' ' || c == '\t'
}

pub fn is_sign(c: char) -> bool
    ensures { result ≡ is_sign c }
{
    c == '+' || c == '-'
}

pub fn is_hex_digit(c: char) -> bool
    ensures { result ≡ is_hex_digit c }
{
    c.is_digit(16)
}

/// Whether characters beyond ASCII of this category may begin an identifier.
fn may_begin(category: GeneralCategory) -> bool
    ensures { result ≡ is_anywhere (standing_of category) }
{
    match category {
        GeneralCategory::UppercaseLetter
        | GeneralCategory::LowercaseLetter
        | GeneralCategory::TitlecaseLetter
        | GeneralCategory::ModifierLetter
        | GeneralCategory::OtherLetter
        | GeneralCategory::NonspacingMark
        | GeneralCategory::LetterNumber
        | GeneralCategory::OtherNumber
        | GeneralCategory::ConnectorPunctuation
        | GeneralCategory::DashPunctuation
        | GeneralCategory::OtherPunctuation
        | GeneralCategory::MathSymbol
        | GeneralCategory::CurrencySymbol
        | GeneralCategory::ModifierSymbol
        | GeneralCategory::OtherSymbol
        | GeneralCategory::PrivateUse => true,
        GeneralCategory::SpacingMark
        | GeneralCategory::EnclosingMark
        | GeneralCategory::DecimalNumber
        | GeneralCategory::OpenPunctuation
        | GeneralCategory::ClosePunctuation
        | GeneralCategory::InitialPunctuation
        | GeneralCategory::FinalPunctuation
        | GeneralCategory::SpaceSeparator
        | GeneralCategory::LineSeparator
        | GeneralCategory::ParagraphSeparator
        | GeneralCategory::Control
        | GeneralCategory::Format
        | GeneralCategory::Surrogate
        | GeneralCategory::Unassigned => false,
    }
}

/// Whether characters beyond ASCII of this category may stand behind the first of an identifier.
fn may_follow(category: GeneralCategory) -> bool
    ensures { result ≡ is_somewhere (standing_of category) }
{
    match category {
        GeneralCategory::UppercaseLetter
        | GeneralCategory::LowercaseLetter
        | GeneralCategory::TitlecaseLetter
        | GeneralCategory::ModifierLetter
        | GeneralCategory::OtherLetter
        | GeneralCategory::NonspacingMark
        | GeneralCategory::SpacingMark
        | GeneralCategory::EnclosingMark
        | GeneralCategory::DecimalNumber
        | GeneralCategory::LetterNumber
        | GeneralCategory::OtherNumber
        | GeneralCategory::ConnectorPunctuation
        | GeneralCategory::DashPunctuation
        | GeneralCategory::OtherPunctuation
        | GeneralCategory::MathSymbol
        | GeneralCategory::CurrencySymbol
        | GeneralCategory::ModifierSymbol
        | GeneralCategory::OtherSymbol
        | GeneralCategory::PrivateUse => true,
        GeneralCategory::OpenPunctuation
        | GeneralCategory::ClosePunctuation
        | GeneralCategory::InitialPunctuation
        | GeneralCategory::FinalPunctuation
        | GeneralCategory::SpaceSeparator
        | GeneralCategory::LineSeparator
        | GeneralCategory::ParagraphSeparator
        | GeneralCategory::Control
        | GeneralCategory::Format
        | GeneralCategory::Surrogate
        | GeneralCategory::Unassigned => false,
    }
}

/// What an identifier may begin with.
#[tactic(auto, unfolding(crate::specs::Lexical::is_initial))]
#[inline(always)]
pub fn is_initial(c: char) -> bool
    ensures { result ≡ is_initial c }
{
    if c.is_ascii() {
        c.is_ascii_alphabetic()
            || c == '!'
            || c == '$'
            || c == '%'
            || c == '&'
            || c == '*'
            || c == '/'
            || c == ':'
            || c == '<'
            || c == '='
            || c == '>'
            || c == '?'
            || c == '^'
            || c == '_'
            || c == '~'
    } else {
        c == '\u{200C}' || c == '\u{200D}' || may_begin(GeneralCategory::for_char(c))
    }
}

/// What an identifier may go on with.
#[tactic(auto, unfolding(crate::specs::Lexical::is_subsequent))]
#[inline(always)]
pub fn is_subsequent(c: char) -> bool
    ensures { result ≡ is_subsequent c }
{
    if c.is_ascii() {
        is_initial(c) || c.is_ascii_digit() || c == '+' || c == '-' || c == '.' || c == '@'
    } else {
        is_initial(c) || may_follow(GeneralCategory::for_char(c))
    }
}

pub fn is_sign_subsequent(c: char) -> bool
    ensures { result ≡ is_sign_subsequent c }
{
    is_initial(c) || is_sign(c) || c == '@'
}

pub fn is_dot_subsequent(c: char) -> bool
    ensures { result ≡ is_dot_subsequent c }
{
    is_sign_subsequent(c) || c == '.'
}
