//! Rows of scheme_tokens.
use ls_base::Span;
use row_values::argument::{flag, item, made, made_bytes, text};
use row_values::fault::{Row, RowFault};
use row_values::shown::Shown;
use scheme_tokens::{ReadFault, Token, TokenKind, front_tokens, ident_of, spell, tokens};
use serde_json::Value;

pub fn answer(out: &mut Shown, call: &str, argument: &Value) -> Row<()> {
    match call {
        "of" => all(out, argument)?,
        "front" => front(out, argument)?,
        "symbol" => {
            let bytes = made_bytes(out.alloc(), argument)?;
            symbol(out, made(&bytes)?)?;
        }
        "spell" => spelled(out, argument)?,
        _ => return Err(RowFault::NoCall),
    }
    Ok(())
}

/// The tokens of a text, or the fault.
fn all(out: &mut Shown, argument: &Value) -> Row<()> {
    let bytes = made_bytes(out.alloc(), argument)?;
    match tokens(out.alloc(), made(&bytes)?) {
        Ok(tokens) => show_all(out, tokens.as_slice()),
        Err(fault) => show_fault(out, fault),
    }
    Ok(())
}

/// The tokens up to the end or to a fault, and the fault.
fn front(out: &mut Shown, argument: &Value) -> Row<()> {
    let bytes = made_bytes(out.alloc(), argument)?;
    let front = front_tokens(out.alloc(), made(&bytes)?)?;
    out.open();
    show_all(out, front.tokens.as_slice());
    match front.fault {
        Some(fault) => show_fault(out, fault),
        None => out.null(),
    }
    out.close();
    Ok(())
}

fn symbol(out: &mut Shown, text: &str) -> Row<()> {
    match ident_of(out.alloc(), text)? {
        Some(name) => out.string(name.as_str()),
        None => out.null(),
    }
    Ok(())
}

/// How a symbol is spelled, and the symbol that this spelling has.
fn spelled(out: &mut Shown, argument: &Value) -> Row<()> {
    let name = text(item(argument, 0)?)?;
    let spelled = spell(out.alloc(), name, flag(item(argument, 1)?)?)?;
    out.open();
    out.string(spelled.as_str());
    symbol(out, spelled.as_str())?;
    out.close();
    Ok(())
}

/// A fault and its bytes.
pub fn show_fault(out: &mut Shown, fault: ReadFault) {
    match fault {
        ReadFault::Memory => out.fail(RowFault::Memory),
        ReadFault::At { number, span } => {
            out.open_object();
            out.key("at");
            out.numbers(&[span.start, span.end]);
            out.key("fault");
            out.number(number as u64);
            out.close_object();
        }
    }
}

fn show_all(out: &mut Shown, tokens: &[Token]) {
    out.open();
    for token in tokens {
        show(out, token);
    }
    out.close();
}

/// The kind of a token, and its bytes.
fn begin(out: &mut Shown, kind: &str, span: Span) {
    out.open();
    out.string(kind);
    out.number(span.start as u64);
    out.number(span.end as u64);
}

/// A token: its kind, its bytes, and what it means where it means something.
fn show(out: &mut Shown, token: &Token) {
    let span = token.span;
    match &token.kind {
        TokenKind::Name { name, bars } => {
            begin(out, "name", span);
            out.string(name.as_str());
            out.flag(*bars);
        }
        TokenKind::Numeral(text) => {
            begin(out, "numeral", span);
            out.string(text.as_str());
        }
        TokenKind::Quoted(text) => {
            begin(out, "string", span);
            out.string(text.as_str());
        }
        TokenKind::Char(c) => {
            begin(out, "char", span);
            out.letter(*c);
        }
        TokenKind::Bool(value) => {
            begin(out, "bool", span);
            out.flag(*value);
        }
        TokenKind::Paren => begin(out, "(", span),
        TokenKind::VectorParen => begin(out, "#(", span),
        TokenKind::BytesParen => begin(out, "#u8(", span),
        TokenKind::Close => begin(out, ")", span),
        TokenKind::Dot => begin(out, ".", span),
        TokenKind::Quote => begin(out, "'", span),
        TokenKind::Quasi => begin(out, "`", span),
        TokenKind::Unquote => begin(out, ",", span),
        TokenKind::Splice => begin(out, ",@", span),
        TokenKind::Skip => begin(out, "#;", span),
    }
    out.close();
}
