//! The machine that reads what stands before a body, a byte at a time.
ghost use Rattle.std.specs.Prelude.{◌≡◌, true};
ghost use Rattle.std.specs.Char.{is_ascii_digit};
ghost use Rattle.ls_base.specs.Frames.{is_name_byte, is_blank, fault_number};
ghost use Rattle.lsp_framing.specs.Machine.{kind_of, letter, is_length, at_empty_line, at_length, at_colon, at_digit, at_line, in_name, in_value, before_digits, in_digits, after_digits, at_line_feed, at_last_line_feed, step, next};

use ls_base::limits::{MAX_BODY, MAX_HEADER};

/// The name of the field that tells the length of a body, in small letters.
const LENGTH_NAME: [u8; 14] = *b"content-length";

/// What is wrong with a byte.
#[derive(Clone, Copy)]
pub enum Wrong {
    /// It would be one too many before the body.
    LongHeader,
    /// The empty line begins, and no field told a length.
    NoLength,
    /// It can't stand in the value of a length.
    BadLength,
    /// It is the digit with which the length passes the limit.
    LongBody,
    /// It can't stand there for another reason.
    BadHeader,
}

/// Where the next byte before a body stands. `told` is the length that the fields so far told, in bytes.
#[derive(Clone, Copy)]
pub enum HeaderState {
    /// At the first byte of a line.
    Line {
        told: Option<u32>,
    },
    /// In a name. `spelled` bytes of it spell the length's name, or one differed.
    Name {
        told: Option<u32>,
        spelled: Option<usize>,
    },
    /// In the value of a field that is passed over.
    Value {
        told: Option<u32>,
    },
    /// Before the first digit of a length.
    BeforeDigits,
    /// After a digit of a length, which is this so far.
    Digits {
        length: u32,
    },
    /// After a blank behind a length.
    AfterDigits {
        length: u32,
    },
    /// At the line feed of a field.
    LineFeed {
        told: Option<u32>,
    },
    /// At the line feed of the empty line.
    LastLineFeed {
        length: u32,
    },
}

/// What the next byte of a frame belongs to.
#[derive(Clone, Copy)]
pub enum State {
    Header(HeaderState),
    /// The body, of this length in bytes.
    Body { length: u32 },
}

impl Wrong {
    /// The number of the fault.
    pub fn number(self) -> u8
        ensures { result ≡ fault_number (kind_of self) }
    {
        match self {
            Wrong::BadHeader => 1,
            Wrong::NoLength => 2,
            Wrong::BadLength => 3,
            Wrong::LongHeader => 4,
            Wrong::LongBody => 5,
        }
    }
}

/// A visible character other than the colon.
fn is_name_byte(byte: u8) -> bool
    ensures { result ≡ is_name_byte byte }
{
    byte.is_ascii_graphic() && byte != b':'
}

/// A space or a tab.
fn is_blank(byte: u8) -> bool
    ensures { result ≡ is_blank byte }
{
    byte == b' ' || byte == b'\t'
}

/// How much of the length's name is spelled after one more byte.
fn letter(spelled: Option<usize>, byte: u8) -> Option<usize>
    ensures { result ≡ letter spelled byte }
{
    let Some(count) = spelled else {
        return None;
    };
    if count < LENGTH_NAME.len() && byte.to_ascii_lowercase() == LENGTH_NAME[count] {
        Some(count + 1)
    } else {
        None
    }
}

/// Whether all of the length's name is spelled.
fn is_length(spelled: Option<usize>) -> bool
    ensures { result ≡ is_length spelled }
{
    match spelled {
        Some(count) => count == LENGTH_NAME.len(),
        None => false,
    }
}

/// At the carriage return of the empty line.
fn at_empty_line(told: Option<u32>) -> Result<HeaderState, Wrong>
    ensures { result ≡ at_empty_line told }
{
    match told {
        Some(length) => Ok(HeaderState::LastLineFeed { length }),
        None => Err(Wrong::NoLength),
    }
}

/// At the colon behind the length's name.
fn at_length(told: Option<u32>) -> Result<HeaderState, Wrong>
    ensures { result ≡ at_length told }
{
    match told {
        Some(_) => Err(Wrong::BadHeader),
        None => Ok(HeaderState::BeforeDigits),
    }
}

/// At the colon behind a name.
fn at_colon(told: Option<u32>, spelled: Option<usize>) -> Result<HeaderState, Wrong>
    ensures { result ≡ at_colon told spelled }
{
    if is_length(spelled) {
        at_length(told)
    } else {
        Ok(HeaderState::Value { told })
    }
}

/// At a digit behind those of a length.
fn at_digit(length: u32, byte: u8) -> Result<HeaderState, Wrong>
    requires { is_ascii_digit byte ≡ true }
    ensures { result ≡ at_digit length byte }
{
    let longer = length as usize * 10 + usize::from(byte - b'0');
    if longer <= MAX_BODY {
        Ok(HeaderState::Digits {
            length: longer as u32,
        })
    } else {
        Err(Wrong::LongBody)
    }
}

/// At the first byte of a line.
fn at_line(told: Option<u32>, byte: u8) -> Result<HeaderState, Wrong>
    ensures { result ≡ at_line told byte }
{
    if byte == b'\r' {
        at_empty_line(told)
    } else if is_name_byte(byte) {
        Ok(HeaderState::Name {
            told,
            spelled: letter(Some(0), byte),
        })
    } else {
        Err(Wrong::BadHeader)
    }
}

/// Behind the first byte of a name.
fn in_name(told: Option<u32>, spelled: Option<usize>, byte: u8) -> Result<HeaderState, Wrong>
    ensures { result ≡ in_name told spelled byte }
{
    if byte == b':' {
        at_colon(told, spelled)
    } else if is_name_byte(byte) {
        Ok(HeaderState::Name {
            told,
            spelled: letter(spelled, byte),
        })
    } else {
        Err(Wrong::BadHeader)
    }
}

/// In the value of a field that is passed over.
fn in_value(told: Option<u32>, byte: u8) -> Result<HeaderState, Wrong>
    ensures { result ≡ in_value told byte }
{
    if byte == b'\r' {
        Ok(HeaderState::LineFeed { told })
    } else if byte == b'\n' {
        Err(Wrong::BadHeader)
    } else {
        Ok(HeaderState::Value { told })
    }
}

/// Before the first digit of a length.
fn before_digits(byte: u8) -> Result<HeaderState, Wrong>
    ensures { result ≡ before_digits byte }
{
    if byte.is_ascii_digit() {
        at_digit(0, byte)
    } else if is_blank(byte) {
        Ok(HeaderState::BeforeDigits)
    } else {
        Err(Wrong::BadLength)
    }
}

/// After a digit of a length.
fn in_digits(length: u32, byte: u8) -> Result<HeaderState, Wrong>
    ensures { result ≡ in_digits length byte }
{
    if byte.is_ascii_digit() {
        at_digit(length, byte)
    } else {
        after_digits(length, byte)
    }
}

/// After a blank behind a length.
fn after_digits(length: u32, byte: u8) -> Result<HeaderState, Wrong>
    ensures { result ≡ after_digits length byte }
{
    if is_blank(byte) {
        Ok(HeaderState::AfterDigits { length })
    } else if byte == b'\r' {
        Ok(HeaderState::LineFeed { told: Some(length) })
    } else {
        Err(Wrong::BadLength)
    }
}

/// At the line feed of a field.
fn at_line_feed(told: Option<u32>, byte: u8) -> Result<HeaderState, Wrong>
    ensures { result ≡ at_line_feed told byte }
{
    if byte == b'\n' {
        Ok(HeaderState::Line { told })
    } else {
        Err(Wrong::BadHeader)
    }
}

/// At the line feed of the empty line.
fn at_last_line_feed(length: u32, byte: u8) -> Result<State, Wrong>
    ensures { result ≡ at_last_line_feed length byte }
{
    if byte == b'\n' {
        Ok(State::Body { length })
    } else {
        Err(Wrong::BadHeader)
    }
}

/// Takes a byte before a body.
fn step(place: HeaderState, byte: u8) -> Result<State, Wrong>
    ensures { result ≡ step place byte }
{
    match place {
        HeaderState::Line { told } => Ok(State::Header(at_line(told, byte)?)),
        HeaderState::Name { told, spelled } => Ok(State::Header(in_name(told, spelled, byte)?)),
        HeaderState::Value { told } => Ok(State::Header(in_value(told, byte)?)),
        HeaderState::BeforeDigits => Ok(State::Header(before_digits(byte)?)),
        HeaderState::Digits { length } => Ok(State::Header(in_digits(length, byte)?)),
        HeaderState::AfterDigits { length } => Ok(State::Header(after_digits(length, byte)?)),
        HeaderState::LineFeed { told } => Ok(State::Header(at_line_feed(told, byte)?)),
        HeaderState::LastLineFeed { length } => at_last_line_feed(length, byte),
    }
}

/// Takes a byte before a body, of which this many came.
pub fn next(place: HeaderState, count: usize, byte: u8) -> Result<State, Wrong>
    ensures { result ≡ next place count byte }
{
    if count < MAX_HEADER {
        step(place, byte)
    } else {
        Err(Wrong::LongHeader)
    }
}
