//! Texts as they are read.
use datum_reader::Datum;

/// The data of a text, and whether it reads.
#[derive(Clone, Copy)]
pub struct TextRead<'a> {
    pub data: &'a [Datum],
    pub reads: bool,
}
