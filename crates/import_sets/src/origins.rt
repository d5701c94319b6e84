//! What spells a name that came from two places.
ghost use Rattle.std.specs.Prelude.{◌≡◌, ◌++◌, ◌∷◌, [], if◌then◌else◌, IfOk};
ghost use Rattle.std.specs.BTreeSet.{contains};
ghost use Rattle.syntax_tree.specs.declared.units.Origin.{Origin as Source};
ghost use Rattle.import_sets.specs.Given.{key_cmp, key_of, has_origin};

use ls_base::{Items, Mem, Text};
use scheme_model::Occ;
use std::alloc::Global;
use std::collections::BTreeSet;
use syntax_tree::units::Origin;

/// An origin as a key, which is ordered.
type Key = (Option<Occ>, Text);

/// Origins, to which others are added each once.
#[derive(Drop)]
pub struct Origins {
    pub all: Items<Origin>,
    pub keys: BTreeSet<Key>,
    pub ghost told: { (o : Source) → contains key_cmp keys (key_of o) ≡ has_origin all o },
}

impl Origins {
    /// Some origins, as they are.
    pub fn of(alloc: Global, origins: Items<Origin>) -> Mem<Origins>
        ensures { IfOk result (λ new. new.all ≡ origins) }
    {
        Ok(Origins {
            keys: keys_of(alloc, origins.as_slice())?,
            all: origins,
        })
    }

    /// With an origin more, unless it is there.
    pub fn with(self, origin: Origin) -> Mem<Origins>
        ensures { IfOk result (λ new. new.all
            ≡ (if has_origin self.all origin then self.all else self.all ++ origin ∷ [])) }
    {
        let Origins { mut all, mut keys } = self;
        if keys.insert(key_of(&origin)?)? {
            all.push(origin)?;
            return Ok(Origins { all, keys });
        }
        Ok(Origins { all, keys })
    }
}

/// The key of an origin.
fn key_of(origin: &Origin) -> Mem<Key>
    ensures { IfOk result (λ key. key ≡ key_of origin.now) }
{
    Ok((origin.occ, origin.prefix.clone()?))
}

/// The keys of origins.
fn keys_of(alloc: Global, origins: &[Origin]) -> Mem<BTreeSet<Key>>
    ensures { IfOk result (λ keys. (o : Source) → contains key_cmp keys (key_of o) ≡ has_origin origins.now o) }
{
    let mut keys = BTreeSet::new(alloc);
    for origin in origins {
        keys.insert(key_of(origin)?)?;
    }
    Ok(keys)
}
