//! Laws of the definitions. Each is the contract of a function that does nothing.
ghost use Rattle.std.specs.Prelude.{◌≡◌};
ghost use Rattle.scheme_model.specs.Includes.{naming, usable};
ghost use Rattle.scheme_model.specs.Included.{Sources, all_texts};
ghost use Rattle.included_forms.specs.Tables.{Serve};

/// Strings give what the data of the texts give that they mean, with all that these include.
pub fn texts_serve()
    ensures { (o : Sources) → o.usable ≡ usable (naming o.documents) o.documents → Serve o (all_texts o) }
{}
