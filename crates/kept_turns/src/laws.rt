//! Laws of the definitions. Each is the contract of a function that does nothing.
ghost use Rattle.std.specs.Prelude.{◌≡◌, ℕ, true, false, nat_lt, List, [], ◌∷◌, ◌++◌, length, map, Option, Some, None, Result, Ok};
ghost use Rattle.scheme_model.specs.Ident.{Ident as Identifier, Written};
ghost use Rattle.scheme_model.specs.Trees.{Tree};
ghost use Rattle.scheme_model.specs.Steps.{Broken};
ghost use Rattle.scheme_model.specs.Order.{Left};
ghost use Rattle.scheme_model.specs.Requirements.{Known};
ghost use Rattle.scheme_model.specs.Expression.{expand};
ghost use Rattle.scheme_model.specs.UnitExpansion.{max_total, nodes_in, form_parts};
ghost use Rattle.scheme_model.specs.ScopedExpansion.{ScopedState};
ghost use Rattle.scheme_model.specs.CountedExpansion.{counted};
ghost use Rattle.scheme_model.specs.Questions.{Around};
ghost use Rattle.scheme_model.specs.FormsAlike.{again, set_aside};
ghost use Rattle.scheme_model.specs.IncludedUnits.{Placed};
ghost use Rattle.scheme_model.specs.Program.{Prepared, is_ready, enough_turns, forms_at_work};
ghost use Rattle.scheme_model.specs.ScopedProgram.{ScopedProgress, scoped_work, scoped_before, forms_over, scoped_start_after};
ghost use Rattle.form_laws.specs.Begins.{Begins, FormBegins, RestBegins};
ghost use Rattle.question_laws.specs.Noted.{IsClosed};
ghost use Rattle.kept_forms.specs.KeptForms.{KeptAside, KeptParts, FormOrKept, LeftOrKept, form_of, around_form, rest_kept, numbers_of, put_parts};
ghost use Rattle.kept_forms.specs.Carried.{Onwards, PassKept, RestKept, FormFits, kept_form};
ghost use Rattle.forgotten_locals.specs.Outside.{outside, IsOutside};
ghost use Rattle.forgotten_locals.specs.Ways.{Way, forgetting, firsts_by, seconds_by, AtTurns, AllKept};
ghost use Rattle.forgotten_locals.specs.Programs.{IsProgressOutside};
ghost use Rattle.kept_turns.specs.Ready.{IsReady, RestIsReady, AllReady};
ghost use Rattle.kept_turns.specs.Stays.{SameAtRoot, MacrosAtRoot};
ghost use Rattle.kept_turns.specs.Turns.{AtFirst, AtSecond, form_with, NotKept, NoRests, GoesByAside, PartsKept, put_rest, given_as, last_of, result_in};

/// Each definition that is imported, or that a macro is kept for, stands in its unit where a turn of one of a unit's forms comes (R7RS 5.2, 5.3),
/// whichever of its forms are kept, where what is local is forgotten behind each turn.
pub fn imports_stand_outside()
    ensures outside { (s : ScopedState) → IsClosed s → IsClosed (outside s) }
    ensures turns { (all : List Placed) (units : List Prepared) (known : Known) (n : ℕ) (h : ScopedProgress) (p : Prepared) (xs : List FormOrKept) →
        let g = scoped_work all units known n scoped_before in let s = scoped_start_after all p h in
        IsProgressOutside g h → is_ready all units g.results p ≡ true → map form_of xs ≡ forms_over (Written p.number) p.number 0 (forms_at_work p) → AllKept (forgetting enough_turns) enough_turns known xs s →
        AtTurns (λ v x. IsClosed v.state) (λ v r. IsClosed v.state) (forgetting enough_turns) known xs s }
    ensures ready { (all : List Placed) (units : List Prepared) (known : Known) (n : ℕ) (h : ScopedProgress) (p : Prepared) (xs : List FormOrKept) →
        let g = scoped_work all units known n scoped_before in let s = scoped_start_after all p h in
        IsProgressOutside g h → is_ready all units g.results p ≡ true → map form_of xs ≡ forms_over (Written p.number) p.number 0 (forms_at_work p) → AllKept (forgetting enough_turns) enough_turns known xs s →
        AllReady (forgetting enough_turns) known xs s }
{}

/// Macros that aren't local are defined at the root of their units (R7RS 5.3): so it is where a form may begin, and behind its first part. Its second
/// part defines in bodies alone: it leaves the root as it was, expanded or put into its place.
pub fn macros_stay_at_the_root()
    ensures begins { (s : ScopedState) → Begins s → MacrosAtRoot s }
    ensures first { (v : Around) (turns : ℕ) (t : Tree Identifier) → IsOutside v.state → FormBegins v t → MacrosAtRoot (set_aside v turns t).1 }
    ensures second { (v : Around) (turns : ℕ) (fs : List ℕ) (r : Result (Left Identifier) Broken) → RestBegins v r → SameAtRoot v.state (form_parts (counted v.known) (expand (counted v.known) turns) [] fs r v.state).1 }
    ensures put { (v : Around) (turns : ℕ) (fs : List ℕ) (r : Result (Left Identifier) Broken) (c : KeptParts) → RestKept v turns (Some c) → SameAtRoot v.state (put_parts v fs r c).1 }
    ensures same { (s t : ScopedState) → SameAtRoot s t → MacrosAtRoot s → MacrosAtRoot t }
{}

/// The nodes that a form has counted don't fall from item to item of its second part (R7RS 5.3). So what is kept of it is put into its place as if
/// it were one: work ends where the nodes behind the last item come to too many, and else all of it is given.
pub fn rests_are_put_at_once()
    ensures whole { (v : Around) (turns : ℕ) (fs : List ℕ) (l : Left Identifier) (c : KeptParts) → RestKept v turns (Some c) → nat_lt max_total (nodes_in (counted v.known) fs (again v (last_of c.met c.items))) ≡ false →
        put_parts v fs (Ok l) c ≡ (Some (result_in c.items), again v (last_of c.met c.items)) }
    ensures over { (v : Around) (turns : ℕ) (fs : List ℕ) (l : Left Identifier) (c : KeptParts) → RestKept v turns (Some c) → (c.items ≡ [] → ⊥) → nat_lt max_total (nodes_in (counted v.known) fs (again v (last_of c.met c.items))) ≡ true →
        (put_parts v fs (Ok l) c).0 ≡ None }
{}

/// What may be kept of a unit's forms is told turn by turn (R7RS 5.1, 5.3). One form more may be kept in its first part, once it may be kept where its
/// first turn comes, and nothing is kept of those behind it; and then in its rest, once it may be where its second turn comes, and no rest is kept
/// of those behind it. Each form is ready where
/// its turn is next, as all are where theirs come.
pub fn keeps_grow()
    ensures first { (way : Way) (known : Known) (ys zs : List FormOrKept) (x : FormOrKept) (s : ScopedState) → AllReady way known (ys ++ x ∷ zs) s → AtFirst (λ v. IsReady v x) way known ys x zs s }
    ensures second { (way : Way) (known : Known) (xs : List FormOrKept) (s : ScopedState) → AllReady way known xs s → let fs = numbers_of xs in
        Onwards (λ ls t. (rs : List LeftOrKept) (r : LeftOrKept) (qs : List LeftOrKept) → ls ≡ rs ++ r ∷ qs → Onwards (λ ps u. RestIsReady (around_form known r.form [] u) r) (seconds_by way known fs rs t)) (firsts_by way known fs xs [] s) }
    ensures aside { (way : Way) (turns : ℕ) (known : Known) (ys zs : List FormOrKept) (n : ℕ × Tree Identifier) (k : KeptAside) (s : ScopedState) → NoRests ys → NotKept zs → AllKept way turns known (ys ++ form_with n None ∷ zs) s →
        let x = form_with n (Some (kept_form k None)) in AtFirst (λ v. PassKept v turns n.1 x.kept) way known ys x zs s → AllKept way turns known (ys ++ x ∷ zs) s }
    ensures rest { (way : Way) (turns : ℕ) (known : Known) (ys zs : List FormOrKept) (n : ℕ × Tree Identifier) (k : KeptAside) (c : KeptParts) (s : ScopedState) →
        let x = form_with n (Some (kept_form k None)) in let y = form_with n (Some (kept_form k (Some c))) in
        GoesByAside way → NoRests zs → AllKept way turns known (ys ++ x ∷ zs) s → FormFits y.kept → AtSecond (λ v. PartsKept v turns c) way known ys x zs s → AllKept way turns known (ys ++ y ∷ zs) s }
    ensures lefts { (way : Way) (turns : ℕ) (known : Known) (ys zs : List FormOrKept) (n : ℕ × Tree Identifier) (k : KeptAside) (c : KeptParts) (s : ScopedState) →
        let x = form_with n (Some (kept_form k None)) in let y = form_with n (Some (kept_form k (Some c))) in let fs = numbers_of (ys ++ y ∷ zs) in
        GoesByAside way → AtFirst (λ v. firsts_by way known fs (ys ++ y ∷ zs) [] s ≡ given_as (put_rest (length ys) (rest_kept v y.kept)) (firsts_by way known fs (ys ++ x ∷ zs) [] s)) way known ys y zs s }
    ensures forgetting { (turns : ℕ) → GoesByAside (forgetting turns) }
{}
