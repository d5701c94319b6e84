//! URLs of texts (URL Standard, section 4.4). A text that is none is no mistake here, only want of room is.
ghost use Rattle.std.specs.Prelude.{◌≡◌, IfOk, None, Some};
ghost use Rattle.url.specs.Parts.{Parts};
ghost use Rattle.url.specs.Parser.{Gives, Parsed, parse_url};
ghost use Rattle.included_documents.specs.Kept.{url_of};

use ls_base::{Mem, Memory};
use std::alloc::Global;
use url::{ParseError, ParseResult, Url};

/// The URL that was read, or none, unless there was no room.
fn unless_full(read: ParseResult<Url>) -> Mem<Option<Url>>
    ensures { (expected : Parsed Parts) → Gives read expected → IfOk result (λ url. url ≡ url_of expected) }
{
    match read {
        Ok(url) => Ok(Some(url)),
        Err(e) => match e {
            ParseError::OutOfMemory => Err(Memory),
            ParseError::Overflow => Err(Memory),
            ParseError::EmptyHost => Ok(None),
            ParseError::IdnaError => Ok(None),
            ParseError::InvalidPort => Ok(None),
            ParseError::InvalidIpv4Address => Ok(None),
            ParseError::InvalidIpv6Address => Ok(None),
            ParseError::InvalidDomainCharacter => Ok(None),
            ParseError::RelativeUrlWithoutBase => Ok(None),
            ParseError::RelativeUrlWithCannotBeABaseBase => Ok(None),
            ParseError::SetHostOnCannotBeABaseUrl => Ok(None),
            ParseError::CannotSet => Ok(None),
        },
    }
}

/// The URL that a text is.
pub fn url_of(alloc: Global, text: &str) -> Mem<Option<Url>>
    ensures { IfOk result (λ url. url ≡ url_of (parse_url None text.now)) }
{
    Ok(unless_full(Url::parse(alloc, text))?)
}

/// The URL that a text is against another.
pub fn joined(base: &Url, text: &str) -> Mem<Option<Url>>
    ensures { IfOk result (λ url. url ≡ url_of (parse_url (Some base.now) text.now)) }
{
    Ok(unless_full(base.join(text))?)
}
