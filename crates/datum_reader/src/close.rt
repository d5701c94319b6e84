//! What a parenthesis closes (R7RS 7.1.2).
ghost use Rattle.std.specs.Prelude.{◌≡◌, IfOk};
ghost use Rattle.datum_reader.specs.Open as model;
ghost use Rattle.datum_reader.specs.Views.{datum_of, data_of, shape_of};
ghost use Rattle.datum_reader.specs.OpenViews.{tail_datum, spot_of, opener_of, Gives};

use crate::datum::{Datum, Shape};
use crate::open::{BAD_DOT, MISSING_DATUM, Opener, Spot, fault};
use crate::tail::{Tail, with_tail};
use ls_base::{Mem, Span};
use scheme_tokens::ReadFault;
use std::alloc::Global;
use std::rc::Rc;

/// A datum from one token up to another.
#[inline(always)]
pub fn make_datum(shape: Shape, first: Spot, last: Spot) -> Datum
    ensures { datum_of result ≡ shape_of shape (model.between (spot_of first) (spot_of last)) }
{
    Datum {
        shape,
        first: first.number,
        last: last.number,
        span: Span {
            start: first.span.start,
            end: last.span.end,
        },
    }
}

/// Parts that can be shared, and take no more memory than they need.
fn fitted(alloc: Global, parts: Vec<Datum>) -> Mem<Rc<Vec<Datum>>>
    ensures { IfOk result (λ shared. shared.value.items ≡ parts.items) }
{
    let mut parts = parts;
    parts.shrink_to_fit();
    Ok(Rc::new(alloc, parts)?)
}

/// The datum that a parenthesis closes.
#[inline(always)]
pub fn closed(
    alloc: Global,
    opener: Opener,
    first: Spot,
    last: Spot,
    parts: Vec<Datum>,
) -> Result<Tail, ReadFault>
    ensures { Gives tail_datum result (model.closed_by (opener_of opener) (spot_of first) (spot_of last) (data_of parts.items)) }
{
    match opener {
        Opener::List => {
            let shape = Shape::List(fitted(alloc, parts)?, None);
            Ok(Tail::Datum(make_datum(shape, first, last)))
        }
        Opener::Ended(_, tail) => Ok(with_tail(alloc, parts, Box::into_inner(tail), first, last)?),
        Opener::Vector => {
            let shape = Shape::Vector(fitted(alloc, parts)?);
            Ok(Tail::Datum(make_datum(shape, first, last)))
        }
        Opener::Bytes(texts) => Ok(Tail::Datum(make_datum(Shape::Bytes(texts), first, last))),
        Opener::Dotted(dot) => Err(fault(BAD_DOT, dot)),
        Opener::Mark | Opener::Skip => Err(fault(MISSING_DATUM, first)),
    }
}
