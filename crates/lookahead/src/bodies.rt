//! The bodies that a piece completes, given out one after another.
ghost use Rattle.std.specs.Prelude.{◌≡◌, ◌≤◌, [], Some, length, IfOk, OnOk};
ghost use Rattle.std.specs.Vec.Iter.{into_iter_items};
ghost use Rattle.lsp_framing.specs.Taken.{contents};
ghost use Rattle.lookahead.specs.Cancelled.{max_group};
ghost use Rattle.lookahead.specs.Looked.{Gives, left_in, looked};
ghost use Rattle.lookahead.specs.declared.looking.Looking.TheVariants.{OneByOne};

use crate::looking::Looking;
use crate::window::{CAPACITY, Next, Window};
use ls_base::{Mem, Memory};
use std::alloc::Global;
use std::marker::Model;
use std::vec::IntoIter;

/// The bodies that a piece completes, which are given out one after another. Contracts see it as the list of those that are left, each beside the
/// id by which it is cancelled.
#[derive(Drop)]
pub struct Bodies {
    /// Those that are looked at together, where bodies are looked at ahead.
    window: Option<Window>,
    /// Those behind them.
    rest: IntoIter<Vec<u8>>,
}

impl Model for Bodies {
    ghost use Rattle.std.specs.Prelude.{List};
    ghost use Rattle.std.specs.Vec.Iter.{into_iter_items};
    ghost use Rattle.lsp_framing.specs.Taken.{contents};
    ghost use Rattle.lookahead.specs.Looked.{Looked, left_in};

    ghost Value = { List Looked };

    ghost view = { λ b. left_in b.window (contents (into_iter_items b.rest)) };
}

impl Bodies {
    /// All bodies of a piece, which are looked at so. It takes no memory.
    pub fn new(alloc: Global, bodies: Vec<Vec<u8>>, looking: Looking) -> Bodies
        ensures { result ≡ looked looking (contents bodies.items) }
    {
        let window = match looking {
            Looking::Ahead => Some(Window::new(alloc)),
            Looking::OneByOne => None,
        };
        Bodies {
            window,
            rest: bodies.into_iter(),
        }
    }

    /// Gives the first of the bodies out, with its id where it is cancelled; none exactly where none is left. Where memory runs out nothing is
    /// said of what is left.
    pub fn next(&mut self) -> Mem<Option<Next>>
        ensures { IfOk result (λ next. Gives self.old next self.new) }
    {
        match &mut self.window {
            None => Ok(first_of(&mut self.rest)),
            Some(window) => {
                refill(window, &mut self.rest)?;
                Ok(window.next()?)
            }
        }
    }
}

/// The first of bodies that are looked at one by one.
fn first_of(bodies: &mut IntoIter<Vec<u8>>) -> Option<Next>
    ensures { Gives (looked OneByOne (contents (into_iter_items bodies.old))) result (looked OneByOne (contents (into_iter_items bodies.new))) }
{
    let body = bodies.next()?;
    Some(Next {
        body,
        cancelled: None,
    })
}

/// Fills a window that holds nothing with the next of the bodies, as many as it can hold.
fn refill(window: &mut Window, rest: &mut IntoIter<Vec<u8>>) -> Mem<()>
    ensures all { OnOk result (left_in (Some window.new) (contents (into_iter_items rest.new)) ≡ left_in (Some window.old) (contents (into_iter_items rest.old))) }
    ensures none { OnOk result (window.new ≡ [] → contents (into_iter_items rest.new) ≡ []) }
    ensures few { OnOk result (length window.new ≤ max_group) }
{
    if window.len() > 0 {
        return Ok(());
    }
    while (window.len() as usize) < CAPACITY {
        let Some(body) = rest.next() else {
            return Ok(());
        };
        let Ok(()) = window.put(body) else {
            return Err(Memory);
        };
    }
    Ok(())
}
