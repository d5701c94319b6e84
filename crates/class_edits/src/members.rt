//! The members of a class with their new names.
ghost use Rattle.std.specs.Prelude.{◌≡◌, [], ℕ, List, map, IfOk};
ghost use Rattle.std.specs.BTreeMap.{get};
ghost use Rattle.scheme_model.specs.declared.Occ.{Occ as AnyOcc};
ghost use Rattle.scheme_model.specs.Spelling.{Link};
ghost use Rattle.arrow_index.specs.Classes.{AreParts};
ghost use Rattle.program_answers.specs.Classed.{bare_part};
ghost use Rattle.text_edits.specs.Members.{name_of};
ghost use Rattle.text_edits.specs.Views.{occ_cmp};
ghost use Rattle.class_edits.specs.Clashes.{clashing};
ghost use Rattle.class_edits.specs.Named.{AreNamed, named_parts};

use ls_base::Mem;
use program_answers::classes::ClassPart;
use std::alloc::Global;
use std::collections::BTreeMap;
use text_edits::{Members, add_member};

/// The members of a class, each with its prefix and the new stem behind it as its new name. Where one has two prefixes its first part
/// counts.
pub fn members(alloc: Global, parts: &[ClassPart], stem: &str) -> Mem<Members>
    ensures parts { IfOk result (λ members. (o : AnyOcc) → get occ_cmp members o ≡ name_of (named_parts stem.now parts.now) o) }
    // Of the parts of a class of which no member has two prefixes.
    ensures exact { (ls : List Link) (at : AnyOcc) → AreParts (map bare_part parts.now) ls at → clashing ls at ≡ [] →
        IfOk result (λ members. AreNamed ls stem.now at (λ o. get occ_cmp members o)) }
{
    let mut members = BTreeMap::new(alloc);
    for part in parts {
        add_member(alloc, &mut members, part.occ, part.prefix.as_str(), stem)?;
    }
    Ok(members)
}
