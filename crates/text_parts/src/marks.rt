//! Marks of documents.
ghost use Rattle.std.specs.Prelude.{◌≡◌, ◌<◌, ◌==◌, ◌||◌, ℕ, length, count_by, Bool};
ghost use Rattle.text_parts.specs.Marks.{marked};

/// Whether the document at a place is marked, where there is one.
pub fn is_marked(marks: &[bool], place: usize) -> bool
    ensures { result ≡ marked marks.now place }
{
    if place >= marks.len() {
        return false;
    }
    marks[place]
}

/// Marks the document at a place, where there is one.
pub fn mark(marks: &mut Vec<bool>, place: usize)
    ensures size { length marks.new.items ≡ length marks.old.items }
    ensures told { (k : ℕ) → k < length marks.old.items → marked marks.new.items k ≡ (marked marks.old.items k || (place == k)) }
{
    if place < marks.len() {
        marks[place] = true;
    }
}

/// How many are marked.
pub fn mark_count(marks: &[bool]) -> usize
    ensures { result ≡ count_by (λ (b : Bool). b) marks.now }
{
    marks.iter().filter(|mark| **mark).count()
}
