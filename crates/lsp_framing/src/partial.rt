//! The frame that is being read.
ghost use Rattle.std.specs.Prelude.{◌≡◌, ◌++◌, ◌∷◌, [], ◌+◌, ◌≤◌, ◌<◌, length, take, OnOk, IfOk, List};
ghost use Rattle.ls_base.specs.Frames.{Frame, bodies_of, max_header, max_body};
ghost use Rattle.lsp_framing.specs.Standing.{InHeader, Open, Stands, kept_bytes};
ghost use Rattle.lsp_framing.specs.Taken.{contents, Goes, IfWrong, Advances, Finishes, Takes};
ghost use Rattle.lsp_framing.specs.Machine.{next};

use crate::header::{HeaderState, State, Wrong, next};
use ls_base::{Items, Mem, Memory};
use std::alloc::{AllocError, AllocFailed, Global};
use std::mem;

/// The bytes of a frame that isn't whole.
#[derive(Drop)]
pub struct Partial {
    pub alloc: Global,
    /// What came before the body, with the empty line.
    header: Vec<u8>,
    state: State,
    body: Vec<u8>,
}

/// Why a piece was not taken whole.
#[derive(Drop)]
pub enum Stop {
    Memory,
    /// The byte at this place of the piece is wrong.
    Wrong { wrong: Wrong, at: usize },
}

impl From<Memory> for Stop {
    ghost use Rattle.std.specs.Prelude.{◌≡◌};
    ghost use Rattle.lsp_framing.specs.declared.partial.Stop.TheVariants as stop;

    ghost from_gives = { λ _ e. e ≡ stop.Memory };

    fn from(_: Memory) -> Self {
        Stop::Memory
    }
}

impl<T: Drop> From<AllocFailed<T>> for Stop {
    ghost use Rattle.std.specs.Prelude.{◌≡◌};
    ghost use Rattle.lsp_framing.specs.declared.partial.Stop.TheVariants as stop;

    ghost from_gives = { λ _ e. e ≡ stop.Memory };

    fn from(_: AllocFailed<T>) -> Self {
        Stop::Memory
    }
}

impl Partial {
    /// Nothing of a frame, which takes no memory.
    pub fn new(alloc: Global) -> Partial
        ensures stands { Stands result }
        ensures empty { kept_bytes result ≡ [] }
    {
        Partial {
            alloc,
            header: Vec::new(alloc),
            state: State::Header(HeaderState::Line { told: None }),
            body: Vec::new(alloc),
        }
    }

    /// How many bytes are kept. They are fewer than 8,392,704.
    #[tactic(auto, using(crate::proofs::Stands::kept_most))]
    pub fn kept(&self) -> u32
        requires { Stands self.now }
        ensures size { result ≡ length (kept_bytes self.now) }
        ensures most { result < max_header + max_body }
    {
        self.header.len() as u32 + self.body.len() as u32
    }

    /// Takes a byte before the body, which stands here in the piece.
    fn head(&mut self, place: HeaderState, byte: u8, at: usize) -> Result<(), Stop>
        requires { InHeader place self.old.header.items self.old.body.items }
        ensures open { OnOk result (Open self.new) }
        ensures bytes { OnOk result (kept_bytes self.new ≡ kept_bytes self.old ++ (byte ∷ [])) }
        ensures wrong { IfWrong result (λ wrong here. (here ≡ at) × (next place (length self.old.header.items) byte ≡ Err wrong)) }
    {
        match next(place, self.header.len(), byte) {
            Ok(state) => {
                self.header.push(byte)?;
                self.state = state;
                Ok(())
            }
            Err(wrong) => Err(Stop::Wrong { wrong, at }),
        }
    }

    /// Takes bytes of a body of this size, as many as are there and wanted, and says how many.
    fn fill(&mut self, size: u32, bytes: &[u8]) -> Mem<usize>
        requires some { 0 < length bytes.now }
        requires room { length self.old.body.items < size }
        ensures taken { IfOk result (λ count. (0 < count) × (count ≤ length bytes.now)) }
        ensures body { IfOk result (λ count. self.new.body.items ≡ self.old.body.items ++ take count bytes.now) }
        ensures most { OnOk result (length self.new.body.items ≤ size) }
        ensures header { self.new.header.items ≡ self.old.header.items }
        ensures same { self.new.state ≡ self.old.state }
    {
        let size = size as usize;
        if self.body.is_empty() {
            self.body.reserve_exact(size)?;
        }
        let count = bytes.len().min(size - self.body.len());
        self.body.extend_from_slice(&bytes[..count])?;
        Ok(count)
    }

    /// Takes a byte before the body, or bytes of the body, from a place of the piece on, and says how many.
    fn advance(&mut self, piece: &[u8], at: usize) -> Result<usize, Stop>
        requires inside { at < length piece.now }
        requires stands { Stands self.old }
        ensures { Advances result piece.now at self.old self.new }
    {
        match self.state {
            State::Header(place) => {
                self.head(place, piece[at], at)?;
                Ok(1)
            }
            State::Body { length } => Ok(self.fill(length, &piece[at..])?),
        }
    }

    /// The body, where it is whole; then the next frame begins.
    fn finish(&mut self) -> Option<Vec<u8>>
        requires { Open self.old }
        ensures { Finishes result self.old self.new }
    {
        let State::Body { length } = self.state else {
            return None;
        };
        if self.body.len() < length as usize {
            return None;
        }
        self.header.clear();
        self.state = State::Header(HeaderState::Line { told: None });
        Some(mem::replace(&mut self.body, Vec::new(self.alloc)))
    }

    /// Gives the body, where it is whole; then the next frame begins.
    fn give(&mut self, done: &mut Items<Vec<u8>>) -> Mem<()>
        requires { Open self.old }
        ensures { OnOk result ((gs : List Frame) × Goes self.old [] gs self.new × (contents done.new ≡ contents done.old ++ bodies_of gs)) }
    {
        if let Some(body) = self.finish() {
            done.push(body)?;
        }
        Ok(())
    }

    /// Takes a piece, and adds the bodies that it completes.
    pub fn take_in(&mut self, piece: &[u8], done: &mut Items<Vec<u8>>) -> Result<(), Stop>
        requires { Stands self.old }
        ensures { Takes result piece.now self.old self.new done.old done.new }
    {
        let mut at = 0;
        while at < piece.len() {
            at += self.advance(piece, at)?;
            self.give(done)?;
        }
        Ok(())
    }
}
