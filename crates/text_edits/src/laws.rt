//! Laws of edited texts (R7RS 7.1.1, 7.1.2).
ghost use Rattle.std.specs.Prelude.{◌≡◌, ℕ, Bool, List, length, map, drop, slice_get, Option, Some, None};
ghost use Rattle.std.specs.List.{slice_range};
ghost use Rattle.std.specs.Str.{chars, IsUtf8};
ghost use Rattle.scheme_model.specs.Data.{Datum};
ghost use Rattle.scheme_model.specs.Kinds.{Atomic, Name, Token};
ghost use Rattle.datum_reader.specs.Texts.{IsReading, TextReads};
ghost use Rattle.text_edits.specs.Edits.{edited, AreInOrder};
ghost use Rattle.text_edits.specs.GivenBack.{GetBack};
ghost use Rattle.text_edits.specs.NewNames.{begins_with_bar, edits_of, span_of, written, NamesIdentifiers};
ghost use Rattle.text_edits.specs.Renamed.{IsRenamed};

/// An edited text reads, whatever stands beside the identifiers that get new names: its tokens are the old ones by their numbers, and
/// its data are the old ones but for the new names.
pub fn edited_texts_read()
    ensures { (text now : List ℕ) (ts : List Token) (ds : List Datum) (new : ℕ → Option (List ℕ)) → IsUtf8 text →
        TextReads (chars text) ts None → IsReading (chars text) ds → NamesIdentifiers new ds →
        IsUtf8 now → now ≡ edited (edits_of new text (map span_of ts)) text → IsRenamed new ds (chars now) }
{}

/// The edits of a text stand in its order. None is for bytes of another, and each is for some.
pub fn edits_in_order()
    ensures { (text : List ℕ) (ts : List Token) (new : ℕ → Option (List ℕ)) → IsUtf8 text → TextReads (chars text) ts None →
        AreInOrder 0 (edits_of new text (map span_of ts)) (length text) }
{}

/// An edit that writes what stands there gives an identifier the name that it has. So each edit changes its text, or no name.
pub fn only_own_names_stay()
    ensures { (text : List ℕ) (ts : List Token) (n : ℕ) (t : Token) (old name : List ℕ) (bars : Bool) → IsUtf8 text → TextReads (chars text) ts None →
        slice_get ts n ≡ Some t → t.kind ≡ Atomic (Name old bars) →
        written name (begins_with_bar (drop t.start text)) ≡ slice_range text t.start t.end → chars name ≡ old }
{}

/// Where the identifiers that got new names get their old ones back, the old text comes back; each has to have been written as its old
/// name is between bars where its new name stands between bars.
pub fn old_names_restore()
    ensures { (text now : List ℕ) (ts us : List Token) (ds : List Datum) (new back : ℕ → Option (List ℕ)) → IsUtf8 text →
        TextReads (chars text) ts None → IsReading (chars text) ds → NamesIdentifiers new ds →
        IsUtf8 now → now ≡ edited (edits_of new text (map span_of ts)) text → TextReads (chars now) us None →
        GetBack text ts new back → edited (edits_of back now (map span_of us)) now ≡ text }
{}
