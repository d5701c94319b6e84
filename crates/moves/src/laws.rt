//! Laws of works under other numbers. Each is the contract of a function that does nothing.
ghost use Rattle.std.specs.Prelude.{◌≡◌, ℕ, List, map};
ghost use Rattle.node_pool.specs.declared.pool.Mark.{Mark};
ghost use Rattle.scheme_model.specs.Trees.{Tree as ModelTree};
ghost use Rattle.scheme_model.specs.Ident.{Ident as Identifier};
ghost use Rattle.scheme_model.specs.Meaning.{Meaning as ModelMeaning};
ghost use Rattle.syntax_tree.specs.Names.{Names, AreToldApart};
ghost use Rattle.syntax_tree.specs.Meant.{IsMeaning};
ghost use Rattle.syntax_tree.specs.declared.meaning.Meaning.{Meaning};
ghost use Rattle.syntax_tree.specs.Macros.{IsIdent};
ghost use Rattle.syntax_tree.specs.Regions.{Forest};
ghost use Rattle.syntax_tree.specs.Works.{StandsFor, IsOpened, LiesIn, OutlivesIn, CanName, Reaches};
ghost use Rattle.syntax_tree.specs.declared.trees.Work.{Work};
ghost use Rattle.syntax_tree.specs.declared.trees.nodes.Tree.{Tree};
ghost use Rattle.syntax_tree.specs.declared.trees.table.Region.{Region};
ghost use Rattle.renumbering_laws.specs.Moving.{move_tree};
ghost use Rattle.renumbering_laws.specs.Renumbering.{Renumbering, IsOneToOne, ident, meaning, change};
ghost use Rattle.renumbering_laws.specs.NewSurroundings.{HasOldNumbers};
ghost use Rattle.moves.specs.Numbers.{meaning_as, IsBack};
ghost use Rattle.moves.specs.Works.{NamesMove, TreesMove, WorkMoves};

/// What stood for a tree stands for the tree under the new numbers, and what stood for an identifier for that one.
pub fn works_take_new_numbers()
    ensures trees { (r : Renumbering) (old new : Work) → WorkMoves r old new → (tree : Tree) (t : ModelTree Identifier) →
        StandsFor old tree t → StandsFor new tree (move_tree (change r) t) }
    ensures idents { (r : Renumbering) (old new : Work) → WorkMoves r old new → (n : ℕ) (i : Identifier) →
        IsIdent old.symbols n i → IsIdent new.symbols n (ident r i) }
{}

/// What a meaning stood for in a form it stands for in that form under the new numbers.
pub fn meanings_take_new_numbers()
    ensures { (r : Renumbering) (old new : Names) → NamesMove r old new → (unit form : ℕ) (m : Meaning) (d : ModelMeaning) →
        IsMeaning old unit form m d → IsMeaning new (r.unit unit) (r.form unit form) (meaning_as r m) (meaning r d) }
{}

/// Regions and marks are as they were, and trees lie where they lay.
pub fn regions_keep_their_nodes()
    ensures opened { (r : Renumbering) (old new : Work) → WorkMoves r old new → (region : Region) → IsOpened old region → IsOpened new region }
    ensures lies { (r : Renumbering) (old new : Work) → WorkMoves r old new → (region : Region) (tree : Tree) → LiesIn old region tree → LiesIn new region tree }
    ensures outlives { (r : Renumbering) (old new : Work) → WorkMoves r old new → (outer inner : Region) → OutlivesIn old outer inner → OutlivesIn new outer inner }
    ensures named { (r : Renumbering) (old new : Work) → WorkMoves r old new → (region : Region) (tree : Tree) → CanName old region tree → CanName new region tree }
    ensures reached { (r : Renumbering) (old new : Work) → WorkMoves r old new → (region : Region) (mark : Mark) → Reaches old region mark → Reaches new region mark }
{}

/// Numbers that differ leave identifiers apart.
pub fn identifiers_stay_apart()
    ensures { (r : Renumbering) (is : List Identifier) → IsOneToOne r → AreToldApart is → AreToldApart (map (ident r) is) }
{}

/// Where there is a way back, numbers that differ stay so, and the old number of each is told.
pub fn ways_back_tell_old_numbers()
    ensures one_to_one { (r s : Renumbering) → IsBack r s → IsOneToOne r }
    ensures old_numbers { (r s : Renumbering) → IsBack r s → ((u n : ℕ) → r.definition u n ≡ n) → HasOldNumbers r }
{}

/// By the way back trees come to be what they were, and a work does with its table.
pub fn old_numbers_come_back()
    ensures trees { (r s : Renumbering) → IsBack r s → (old between new : Forest) → TreesMove r old between → TreesMove s between new → new ≡ old }
    ensures work { (r s : Renumbering) → IsBack r s → (old between new : Work) → WorkMoves r old between → WorkMoves s between new → new ≡ old }
{}
