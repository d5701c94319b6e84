//! Pieces of bytes in memory, which are read one after another.
ghost use Rattle.std.specs.Prelude.{◌≡◌, ◌≢◌, ◌≤◌, ◌<◌, ◌++◌, ◌∷◌, [], OnOk, OnErr, IfOk, IsTrue, length, min, take};
ghost use Rattle.ls_outside.specs.Sources.{GotWithin, TakesPiece};
ghost use Rattle.ls_outside.specs.Places.{are_pieces, is_at};

use crate::Got;
use ls_base::{Mem, Memory};
use std::alloc::Global;
use std::collections::VecDeque;

/// Pieces of 1 to 65,536 bytes, and how far the first of them was read.
#[derive(Drop)]
pub struct Pieces {
    pieces: VecDeque<Vec<u8>>,
    at: usize,
    ghost sized: { IsTrue (are_pieces pieces.items) },
    ghost within: { IsTrue (is_at pieces.items at) },
}

impl Pieces {
    ghost use Rattle.ls_outside.specs.Left.{pieces_left};
    ghost use Rattle.ls_outside.specs.Sources.{AreCuts};

    /// No pieces, which takes no memory.
    pub fn new(alloc: Global) -> Pieces
        ensures { pieces_left result ≡ [] }
    {
        Pieces {
            pieces: VecDeque::new(alloc),
            at: 0,
        }
    }

    /// Bytes in pieces of `size`, of which the last may be shorter.
    pub fn cut(alloc: Global, bytes: &[u8], size: usize) -> Mem<Pieces>
        requires some { 0 < size }
        requires small { size ≤ 65536 }
        ensures { IfOk result (λ pieces. AreCuts size bytes.now (pieces_left pieces)) }
    {
        let mut pieces = Pieces::new(alloc);
        let mut rest = bytes;
        while !rest.is_empty() {
            let count = rest.len().min(size);
            pieces.add(&rest[..count])?;
            rest = &rest[count..];
        }
        Ok(pieces)
    }

    /// Adds a piece at the end. Where memory runs out the pieces stay.
    pub fn add(&mut self, piece: &[u8]) -> Mem<()>
        requires some { 0 < length piece.now }
        requires small { length piece.now ≤ 65536 }
        ensures ok { OnOk result (pieces_left self.new ≡ pieces_left self.old ++ piece.now ∷ []) }
        ensures err { OnErr result (pieces_left self.new ≡ pieces_left self.old) }
    {
        let piece = Vec::from_slice(*self.pieces.allocator(), piece)?;
        self.pieces.push_back(piece)?;
        Ok(())
    }

    /// Reads from the front of the first piece, and ends where there is none.
    pub fn read(&mut self, buf: &mut [u8]) -> Got
        requires { 0 < length buf.old }
        ensures within { GotWithin result buf.new }
        ensures takes { TakesPiece (pieces_left self.old) (pieces_left self.new) result buf.new }
        ensures sure { result ≢ Got.Failed }
    {
        let Some(piece) = self.pieces.front() else {
            return Got::End;
        };
        let rest = &piece[self.at..];
        let count = copy_front(rest, buf);
        if count == rest.len() {
            let _ = self.pieces.pop_front();
            self.at = 0;
        } else {
            self.at += count;
        }
        Got::Some(count)
    }
}

/// Copies the front of a piece into a buffer, as much as fits, and says how much.
fn copy_front(piece: &[u8], buf: &mut [u8]) -> usize
    requires some { 0 < length piece.now }
    requires room { 0 < length buf.old }
    ensures count { result ≡ min (length buf.new) (length piece.now) }
    ensures bytes { take result buf.new ≡ take result piece.now }
{
    let count = piece.len().min(buf.len());
    buf[..count].copy_from_slice(&piece[..count]);
    count
}
