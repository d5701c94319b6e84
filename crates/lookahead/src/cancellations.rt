//! The cancellations among bodies, by the ids that they name.
ghost use Rattle.std.specs.Prelude.{◌≡◌, ◌+◌, ◌-◌, ◌<◌, ◌≤◌, ◌^◌, ◌++◌, ◌∷◌, [], List, length, drop, map, nat_lt, if◌then◌else◌, IfOk, OnOk, OnErr};
ghost use Rattle.lsp_messages.specs.declared.message.Id.{Id as AnyId};
ghost use Rattle.lookahead.specs.declared.role.Role.{Role as AnyRole};
ghost use Rattle.lookahead.specs.Cancelled.{cancelled_by, same_id};
ghost use Rattle.lookahead.specs.Counts.{count_of, roles_in, IsOf};

use crate::counts::{lower, raise};
use crate::held::Held;
use crate::role::Role;
use ls_base::{Mem, Text};
use lsp_messages::Id;
use std::alloc::Global;
use std::collections::{BTreeMap, VecDeque};

/// How many cancellations name each id, of bodies up to the first `exit`.
#[derive(Drop)]
pub(crate) struct Cancellations {
    numbers: BTreeMap<i64, u32>,
    names: BTreeMap<Text, u32>,
    /// Whether an `exit` is among the bodies.
    closed: bool,
}

impl Cancellations {
    /// Of no bodies. It takes no memory.
    pub(crate) fn new(alloc: Global) -> Cancellations
        ensures { IsOf [] result }
    {
        Cancellations {
            numbers: BTreeMap::new(alloc),
            names: BTreeMap::new(alloc),
            closed: false,
        }
    }

    /// Counts a cancellation.
    fn count(&mut self, id: &Id) -> Mem<()>
        requires { (q : AnyId) → count_of self.old q + 1 < 2 ^ 32 }
        ensures ok { OnOk result ((q : AnyId) → count_of self.new q ≡ count_of self.old q + (if same_id q id.now then 1 else 0)) }
        ensures err { OnErr result ((q : AnyId) → count_of self.new q ≡ count_of self.old q) }
        ensures closed { self.new.closed ≡ self.old.closed }
    {
        match id {
            Id::Number(number) => Ok(raise(&mut self.numbers, *number)?),
            Id::Name(name) => Ok(raise(&mut self.names, name.clone()?)?),
        }
    }

    /// Lets a cancellation go.
    fn forget(&mut self, id: &Id)
        ensures counted { (q : AnyId) → count_of self.new q ≡ count_of self.old q - (if same_id q id.now then 1 else 0) }
        ensures closed { self.new.closed ≡ self.old.closed }
    {
        match id {
            Id::Number(number) => lower(&mut self.numbers, number),
            Id::Name(name) => lower(&mut self.names, name),
        }
    }

    /// Whether a cancellation names an id.
    fn has(&self, id: &Id) -> bool
        ensures { result ≡ nat_lt 0 (count_of self.now id.now) }
    {
        match id {
            Id::Number(number) => self.numbers.get(number).copied().unwrap_or(0) > 0,
            Id::Name(name) => self.names.get(name).copied().unwrap_or(0) > 0,
        }
    }

    /// Takes a body in behind the others.
    pub(crate) fn add(&mut self, role: &Role) -> Mem<()>
        requires { (q : AnyId) → count_of self.old q + 1 < 2 ^ 32 }
        ensures ok { OnOk result ((roles : List AnyRole) → IsOf roles self.old → IsOf (roles ++ role.now ∷ []) self.new) }
        ensures err { OnErr result ((roles : List AnyRole) → IsOf roles self.old → IsOf roles self.new) }
    {
        if self.closed {
            return Ok(());
        }
        match role {
            Role::Cancellation(id) => Ok(self.count(id)?),
            Role::Exit => {
                self.closed = true;
                Ok(())
            }
            Role::Request(_) | Role::Other => Ok(()),
        }
    }

    /// Those among the bodies behind the first.
    fn behind_first(alloc: Global, held: &VecDeque<Held>) -> Mem<Cancellations>
        requires { length held.now.items ≤ 64 }
        ensures { IfOk result (λ all. IsOf (drop 1 (roles_in held.now.items)) all) }
    {
        let mut all = Cancellations::new(alloc);
        for place in 1..held.len() {
            all.add(&held[place].role)?;
        }
        Ok(all)
    }

    /// Lets the first of the bodies go. What stands behind an `exit` counts from here on.
    pub(crate) fn pass(&mut self, alloc: Global, held: &VecDeque<Held>) -> Mem<()>
        requires few { length held.now.items ≤ 64 }
        requires of { IsOf (roles_in held.now.items) self.old }
        ensures ok { OnOk result (IsOf (drop 1 (roles_in held.now.items)) self.new) }
        ensures err { OnErr result (IsOf (roles_in held.now.items) self.new) }
    {
        let Some(first) = held.front() else {
            return Ok(());
        };
        match &first.role {
            Role::Cancellation(id) => self.forget(id),
            Role::Exit => *self = Cancellations::behind_first(alloc, held)?,
            Role::Request(_) | Role::Other => {}
        }
        Ok(())
    }

    /// The id of a request that one of the bodies cancels.
    pub(crate) fn cancelled(&self, role: Role) -> Option<Id>
        ensures { (roles : List AnyRole) → IsOf roles self.now → result ≡ cancelled_by role roles }
    {
        match role {
            Role::Request(id) => { if self.has(&id) { Some(id) } else { None } }
            Role::Cancellation(_) | Role::Exit | Role::Other => None,
        }
    }
}
