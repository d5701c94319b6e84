//! What follows from the definitions alone.
ghost use Rattle.std.specs.Prelude.{◌≡◌, ◌≤◌, List, ℕ, false};
ghost use Rattle.ls_base.specs.declared.encoding.Encoding.{Encoding};
ghost use Rattle.ls_base.specs.declared.places.Pos.{Pos};
ghost use Rattle.ls_base.specs.Positions.{offset_of};
ghost use Rattle.document_store.specs.Texts.{is_before};

/// The offsets of a range that isn't refused stand in order, so that a change replaces the bytes between them.
pub fn offsets_rise()
    ensures { (encoding : Encoding) (text : List ℕ) (p q : Pos) →
        is_before q p ≡ false → offset_of encoding text p ≤ offset_of encoding text q }
{}
