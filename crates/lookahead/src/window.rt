//! A window: bodies that are looked at together.
ghost use Rattle.std.specs.Prelude.{◌≡◌, ◌↔◌, ◌≤◌, ◌++◌, ◌∷◌, [], List, ℕ, length, IfOk, IfErr, OnOk, OnErr};
ghost use Rattle.lookahead.specs.Cancelled.{max_group};
ghost use Rattle.lookahead.specs.Windows.{Leaves, IsFull, handed_back};

use crate::cancellations::Cancellations;
use crate::held::Held;
use crate::role::role_of;
use ls_base::Mem;
use lsp_messages::Id;
use std::alloc::Global;
use std::collections::VecDeque;
use std::marker::Model;

/// How many bodies a window holds, at most.
pub(crate) const CAPACITY: usize = 64;

/// Why a window doesn't take a body, which it hands back.
#[derive(Drop)]
pub enum WindowFault {
    /// It holds as many bodies as it may.
    Full(Vec<u8>),
    /// Memory ran out.
    Memory(Vec<u8>),
}

/// The oldest body of a window.
#[derive(Drop)]
pub struct Next {
    /// The body.
    pub body: Vec<u8>,
    /// The id of the request that it is, where a body behind it cancels it.
    pub cancelled: Option<Id>,
}

/// Bodies that are looked at together, the oldest first. Contracts see it as the list of them.
#[derive(Drop)]
pub struct Window {
    held: VecDeque<Held>,
    cancellations: Cancellations,
    alloc: Global,
}

impl Model for Window {
    ghost use Rattle.std.specs.Prelude.{List, ℕ};

    ghost Value = { List (List ℕ) };

    ghost use Rattle.lookahead.specs.Counts.{bodies_in};
    ghost use Rattle.lookahead.specs.Stands.{Stands};

    ghost view = { λ w. bodies_in w.held.items };

    ghost invariant = { Stands };
}

impl Window {
    /// A window that holds nothing. It takes no memory.
    pub fn new(alloc: Global) -> Window
        ensures { result ≡ [] }
    {
        Window {
            held: VecDeque::new(alloc),
            cancellations: Cancellations::new(alloc),
            alloc,
        }
    }

    /// How many bodies it holds. It takes no memory.
    pub fn len(&self) -> u32
        ensures count { result ≡ length self.now }
        ensures few { result ≤ max_group }
    {
        self.held.len() as u32
    }

    /// Takes a body in behind the others, and reads it. It is full exactly where it holds 64; a body that isn't taken comes back, and
    /// nothing has changed.
    pub fn put(&mut self, body: Vec<u8>) -> Result<(), WindowFault>
        ensures taken { OnOk result (self.new ≡ self.old ++ body.items ∷ []) }
        ensures full { IsFull result ↔ (length self.old ≡ max_group) }
        ensures back { IfErr result (λ fault. handed_back fault ≡ body) }
        ensures kept { OnErr result (self.new ≡ self.old) }
    {
        if self.held.len() == CAPACITY {
            return Err(WindowFault::Full(body));
        }
        let Ok(role) = role_of(self.alloc, body.as_slice()) else {
            return Err(WindowFault::Memory(body));
        };
        let Ok(()) = self.held.reserve(1) else {
            return Err(WindowFault::Memory(body));
        };
        let Ok(()) = self.cancellations.add(&role) else {
            return Err(WindowFault::Memory(body));
        };
        self.held.push_back_reserved(Held { body, role });
        Ok(())
    }

    /// Gives the oldest body out, with its id where it is a request that can be cancelled, and a cancellation of it stands behind it and
    /// before any `exit`; none exactly where nothing is held. Where memory runs out nothing has changed.
    pub fn next(&mut self) -> Mem<Option<Next>>
        ensures oldest { IfOk result (λ next. Leaves self.old next self.new) }
        ensures kept { OnErr result (self.new ≡ self.old) }
    {
        self.cancellations.pass(self.alloc, &self.held)?;
        let Some(Held { body, role }) = self.held.pop_front() else {
            return Ok(None);
        };
        let cancelled = self.cancellations.cancelled(role);
        Ok(Some(Next { body, cancelled }))
    }
}
