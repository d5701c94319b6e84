//! What is seen of meanings, by the numbers of definitions.
ghost use Rattle.std.specs.Prelude.{◌≡◌, ℕ};
ghost use Rattle.scheme_model.specs.Meaning.{Meaning as ModelMeaning};
ghost use Rattle.scheme_model.specs.Substitution.{Table};
ghost use Rattle.rename_model.specs.Walks.{meaning_seen, meaning_at as model_point};
ghost use Rattle.syntax_tree.specs.Meant.{IsMeaning};
ghost use Rattle.alpha_equal.specs.Points.{spot_as, IsSeen, IsPoint};
ghost use Rattle.alpha_equal.specs.Filled.{KnowsNumbers};

use crate::nodes::Node;
use crate::numbers::Numbers;
use crate::points::{Point, Seen, Shown, Spot, Told};
use scheme_model::Occ;
use syntax_tree::meaning::Meaning;
use syntax_tree::trees::Work;

/// The number of the prelude's unit.
const PRELUDE: u32 = 128;

/// What is seen of a meaning.
pub fn seen_of<'a>(work: &Work, numbers: &Numbers, meaning: Meaning) -> Seen<'a>
    requires { (unit form : ℕ) × (m : ModelMeaning) × IsMeaning work.now.symbols unit form meaning m }
    ensures { (table : Table) (unit form : ℕ) (m : ModelMeaning) → KnowsNumbers work.now.symbols numbers.now table →
        IsMeaning work.now.symbols unit form meaning m → IsSeen work.now.symbols unit form result (meaning_seen table m) }
{
    match meaning {
        Meaning::Local(number) => Seen::Local(number),
        Meaning::Global { unit, ident } => {
            if unit == PRELUDE {
                return Seen::Name(Node::OfPrelude, work.symbols.strip(ident));
            }
            let number = numbers.number(unit, ident);
            Seen::Defined { unit, number }
        }
        Meaning::Standard(name) => Seen::Name(Node::Standard, name),
        Meaning::Free(name) => Seen::Name(Node::Unbound, name),
    }
}

/// A point of a meaning.
pub fn meaning_at<'a>(
    work: &Work,
    numbers: &Numbers,
    spot: Spot,
    meaning: Meaning,
    occ: Option<Occ>,
) -> Point<'a>
    requires { (unit form : ℕ) × (m : ModelMeaning) × IsMeaning work.now.symbols unit form meaning m }
    ensures { (table : Table) (unit form : ℕ) (m : ModelMeaning) → KnowsNumbers work.now.symbols numbers.now table →
        IsMeaning work.now.symbols unit form meaning m → IsPoint work.now.symbols unit form result (model_point table (spot_as spot) m occ) }
{
    let seen = seen_of(work, numbers, meaning);
    Point {
        told: Told {
            spot,
            occ,
            shown: Shown::Meaning(meaning),
        },
        seen,
    }
}
