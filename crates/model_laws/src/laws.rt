//! Laws of the definitions. Each is the contract of a function that does nothing.
ghost use Rattle.std.specs.Prelude.{◌≡◌, ℕ, Bool, true, List, [], ◌∷◌, map, Option, None};
ghost use Rattle.scheme_model.specs.Identifiers.{Number, Name, strip, same_name};
ghost use Rattle.scheme_model.specs.Ident.{Ident, Written, erase, symbol_of, same_ident};
ghost use Rattle.scheme_model.specs.Trees.{Tree, Trees, Tail, map_tree, map_trees, map_tail};
ghost use Rattle.scheme_model.specs.ExpansionFaults.{Named, named_map};
ghost use Rattle.scheme_model.specs.Meaning.{Meaning};
ghost use Rattle.scheme_model.specs.Shapes.{Formals, one_of, some_of, if_of, lambda_of, case_lambda_of, named_tree_of, syntax_of, definition_of, values_of, record_of, local_macros_of, error_text_of};
ghost use Rattle.scheme_model.specs.Requirements.{Known, chosen_of};
ghost use Rattle.scheme_model.specs.Quasiquote.{Mark, quasi_of};
ghost use Rattle.scheme_model.specs.RulesShape.{Names, Rules, rule_map, rules_map, rules_of, option_map, role_of, dots_of};
ghost use Rattle.scheme_model.specs.Matching.{Binding, matcher, first_match, compared};
ghost use Rattle.scheme_model.specs.Building.{build};
ghost use Rattle.scheme_model.specs.Leaves.{leaves_of};
ghost use Rattle.scheme_model.specs.Renaming.{Renames, IsRenamed, result_map, formals_map, definition_map, record_map, local_macros_map, pieces_map, leaf_map, binding_map, chosen_map, pair_map, built_map};
ghost use Rattle.scheme_model.specs.Substitution.{Table, Entries, Clock, meaning, deep, clause_map};
ghost use Rattle.scheme_model.specs.ScopedExpansion.{Frames, Enter, BodyDefinitions, find, UsePlace, means_inside, means_outside};
ghost use Rattle.scheme_model.specs.FrameImages.{frame_image};
ghost use Rattle.scheme_model.specs.Includes.{Document};
ghost use Rattle.scheme_model.specs.IncludedUnits.{Placed};
ghost use Rattle.scheme_model.specs.Program.{Prepared, is_ready, work, progress_before, program_of};
ghost use Rattle.scheme_model.specs.ScopedProgram.{scoped_work, scoped_before, scoped_program_of, scoped_unit_over, numbered_unit_over, scoped_start_after, imaged};
ghost use Rattle.scheme_model.specs.Scopes.{Chain, Uses, image, substituted, own_of, means, AreOutside};

/// Whatever binders are around an identifier, what it has become came from it alone, and keeps its symbol (R7RS 4.3).
pub fn images_are_names()
    ensures erased { (uses : Uses) (c : Chain) (i : Ident) → erase (image uses c i) ≡ i }
    ensures symbol { (uses : Uses) (c : Chain) (i : Ident) → strip (image uses c i) ≡ symbol_of i }
    ensures apart { (uses : Uses) (c : Chain) (i j : Ident) → same_name (image uses c i) (image uses c j) ≡ same_ident i j }
{}

/// Substituting binder by binder, from the outermost on, makes of each identifier what it has become under all of them.
pub fn images_are_substituted()
    ensures { (uses : Uses) (c : Chain) (t : Tree Ident) → substituted uses c t ≡ map_tree (image uses c) t }
{}

/// What an identifier has become means what scopes answer for the identifier, as long as no binder is around the macros whose
/// uses inserted what units define.
pub fn scopes_mean()
    ensures { (table : Table) (entry : Entries) (uses : Uses) (c : Chain) (i : Ident) → AreOutside table uses →
        meaning table entry (image uses c i) ≡ means (own_of table entry) uses c i }
{}

/// Reading a core form commutes with a renaming that tells identifiers apart and keeps their symbols (R7RS 4.1, 4.2.1, 4.3.1, 5.3,
/// 5.5): the same is read, with each identifier renamed, or the same fault is told.
pub fn forms_are_renamed()
    ensures quoted { (f : Ident → Name) → IsRenamed f (map_tree f) one_of one_of }
    ensures sequence { (f : Ident → Name) → IsRenamed f (map_trees f) some_of some_of }
    ensures conditional { (f : Ident → Name) → IsRenamed f (map_trees f) if_of if_of }
    ensures text { (f : Ident → Name) → IsRenamed f (λ (s : List ℕ). s) error_text_of error_text_of }
    ensures assignment { (f : Ident → Name) → IsRenamed f (λ (p : Named Ident × Tree Ident). (named_map f p.0, map_tree f p.1)) named_tree_of named_tree_of }
    ensures macro_rules { (f : Ident → Name) → IsRenamed f (λ (p : Named Ident × Tree Ident). (named_map f p.0, map_tree f p.1)) syntax_of syntax_of }
    ensures procedure { (f : Ident → Name) (n : Names Ident) (m : Names Name) → Renames f n m → IsRenamed f (clause_map f) (lambda_of m.same) (lambda_of n.same) }
    ensures procedures { (f : Ident → Name) (n : Names Ident) (m : Names Name) → Renames f n m → IsRenamed f (map (clause_map f)) (case_lambda_of m.same) (case_lambda_of n.same) }
    ensures definition { (f : Ident → Name) (n : Names Ident) (m : Names Name) → Renames f n m → IsRenamed f (definition_map f) (definition_of m.same) (definition_of n.same) }
    ensures several { (f : Ident → Name) (n : Names Ident) (m : Names Name) → Renames f n m → IsRenamed f (λ (p : Formals Ident × Tree Ident). (formals_map f p.0, map_tree f p.1)) (values_of m.same) (values_of n.same) }
    ensures record_type { (f : Ident → Name) (n : Names Ident) (m : Names Name) → Renames f n m → IsRenamed f (record_map f) (record_of m.same) (record_of n.same) }
    ensures local_macros { (f : Ident → Name) (n : Names Ident) (m : Names Name) → Renames f n m → IsRenamed f (local_macros_map f) (local_macros_of m.same) (local_macros_of n.same) }
    ensures conditions { (f : Ident → Name) (n : Names Ident) (m : Names Name) (known : Known) → Renames f n m → IsRenamed f (option_map (map_trees f)) (chosen_of m.strip known) (chosen_of n.strip known) }
{}

/// So does reading a quasiquotation, where each identifier marks the same (R7RS 4.2.8).
pub fn quasiquotations_are_renamed()
    ensures { (f : Ident → Name) (mark : Ident → Option Mark) (mark_of : Name → Option Mark) → ((i : Ident) → mark_of (f i) ≡ mark i) → (t : Tree Ident) →
        quasi_of mark_of (map_tree f t) ≡ result_map f (pieces_map f) (quasi_of mark t) }
{}

/// So does reading and checking the rules of a macro, and telling which of their leaves mean something (R7RS 4.3.2).
pub fn rules_are_renamed()
    ensures checked { (f : Ident → Name) (n : Names Ident) (m : Names Name) → Renames f n m → IsRenamed f (rules_map f) (rules_of m) (rules_of n) }
    ensures leaves { (f : Ident → Name) (n : Names Ident) (m : Names Name) → Renames f n m → (r : Rules Ident) → leaves_of m (rules_map f r) ≡ map (leaf_map f) (leaves_of n r) }
{}

/// A macro use commutes with renamings f of the rules and g of the form (R7RS 4.3.2): with which rule it matches and how, which
/// instance of the template is built, and which literals are compared.
pub fn uses_are_renamed()
    ensures matched { (f g : Ident → Name) (n : Names Ident) (m : Names Name) → Renames f n m → (means : Ident → Ident → Bool) (means_so : Name → Name → Bool) → ((i j : Ident) → means_so (f i) (g j) ≡ means i j) →
        (r : Rules Ident) (ts : Trees Ident) (tail : Tail Ident) →
        first_match (matcher m (rules_map f r) means_so) (map (rule_map f) r.rules) (map_trees g ts) (map_tail g tail) ≡ option_map (chosen_map f g) (first_match (matcher n r means) r.rules ts tail) }
    ensures built { (f g : Ident → Name) (n : Names Ident) (m : Names Name) → Renames f n m → (insert : Ident → Ident) (insert_so : Name → Name) → ((i : Ident) → insert_so (f i) ≡ g (insert i)) →
        (r : Rules Ident) (t : Tree Ident) (bindings : List (Binding Ident Ident)) (left : ℕ) →
        build m (rules_map f r) insert_so (map_tree f t) (map (binding_map f g) bindings) left ≡ result_map f (built_map (map_tree g)) (build n r insert t bindings left) }
    ensures compared { (f g : Ident → Name) (n : Names Ident) (m : Names Name) → Renames f n m → (r : Rules Ident) (ts : Trees Ident) (tail : Tail Ident) →
        compared (role_of m (rules_map f r)) (dots_of m (rules_map f r)) (map (rule_map f) r.rules) (map_trees g ts) (map_tail g tail) ≡ map (pair_map f g) (compared (role_of n r) (dots_of n r) r.rules ts tail) }
{}

/// Whatever frames are around an identifier, and whatever bodies define later, its image came from it alone, is told apart as it
/// is, and keeps its symbol.
pub fn frame_images_are_names()
    ensures erased { (ps : List UsePlace) (ds : BodyDefinitions) (fs : Frames) (i : Ident) → erase (frame_image ps ds fs i) ≡ i }
    ensures symbol { (ps : List UsePlace) (ds : BodyDefinitions) (fs : Frames) (i : Ident) → strip (frame_image ps ds fs i) ≡ symbol_of i }
    ensures apart { (ps : List UsePlace) (ds : BodyDefinitions) (fs : Frames) (i j : Ident) → same_name (frame_image ps ds fs i) (frame_image ps ds fs j) ≡ same_ident i j }
{}

/// The program of the open documents, worked on by scopes that tell a form's local by its count alone, is the program by
/// substitution (R7RS 4.3, 5), whatever the documents are: of each unit the imports, the forms with their parts or faults, counts,
/// keywords and macro uses, and the exports; and what all units define. After each unit the two have the same results, and in the
/// rules of each macro an identifier is what it has become, which means what the frames give.
pub fn programs_are_substituted()
    ensures program { (ds : List Document) → scoped_program_of ds ≡ program_of ds }
    ensures progress { (all : List Placed) (units : List Prepared) (known : Known) (n : ℕ) → imaged (scoped_work all units known n scoped_before) ≡ work all units known n progress_before }
    ensures means { (all : List Placed) (units : List Prepared) (known : Known) (n : ℕ) (fs : Frames) (i : Ident) →
        let g = scoped_work all units known n scoped_before in meaning g.table g.entry (frame_image g.places g.definitions fs i) ≡ means_inside g.definitions fs i (means_outside g.table g.entry g.places g.definitions i) }
{}

/// Each unit that is ready, whatever was worked on before it, comes by scopes to the same forms and the same state, whether a local is
/// told by its count alone, as one of the form at work, or by its whole number (R7RS 4.3).
pub fn locals_are_counted()
    ensures { (all : List Placed) (units : List Prepared) (known : Known) (n : ℕ) (p : Prepared) →
        let g = scoped_work all units known n scoped_before in is_ready all units g.results p ≡ true → scoped_unit_over known p (scoped_start_after all p g) ≡ numbered_unit_over known p (scoped_start_after all p g) }
{}
