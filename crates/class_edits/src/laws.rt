//! Laws of the edits of a class.
ghost use Rattle.std.specs.Prelude.{◌≡◌, [], ℕ, List};
ghost use Rattle.scheme_model.specs.declared.Occ.{Occ};
ghost use Rattle.scheme_model.specs.Spelling.{Link, prefixes_of};
ghost use Rattle.program_answers.specs.Classed.{IsLongest};
ghost use Rattle.text_edits.specs.Members.{prefix_of};

/// The longest prefix of an identifier, of those of one length the last in byte order, is the one that its new name has to keep.
pub fn longest_is_kept()
    ensures { (ls : List Link) (at : Occ) (prefix : List ℕ) → IsLongest (prefixes_of ls at []) prefix → prefix ≡ prefix_of ls at }
{}
