//! The numbers of what units define: how many definitions the unit had before.
ghost use Rattle.std.specs.Prelude.{◌≡◌, IfOk, OnOk};
ghost use Rattle.std.specs.BTreeMap.{get};
ghost use Rattle.program_leaves.specs.declared.sight.GlobalNo.{GlobalNo as AnyGlobal};
ghost use Rattle.program_leaves.specs.Placed.{global_cmp, given_by, forms_given};
ghost use Rattle.alpha_equal.specs.Numbered.{number_after, number_at};

use core_tree::cores::Binder;
use core_tree::units::{Program, UnitForm};
use ls_base::Mem;
use program_leaves::sight::GlobalNo;
use std::alloc::Global;
use std::collections::BTreeMap;
use syntax_tree::symbols::IdNo;

/// The number of each definition, by its unit and its identifier.
#[derive(Drop)]
pub struct Numbers {
    pub by_ident: BTreeMap<GlobalNo, u64>,
}

/// Adds what a form defines. Of definitions of one identifier the last counts.
fn add_definitions(
    unit: usize,
    binders: &[Binder],
    numbers: &mut BTreeMap<GlobalNo, u64>,
) -> Mem<()>
    ensures { OnOk result ((k : AnyGlobal) →
        get global_cmp numbers.new k ≡ number_after (given_by unit binders.now) k (get global_cmp numbers.old k)) }
{
    for binder in binders {
        let key = GlobalNo {
            unit,
            ident: binder.ident,
        };
        numbers.insert(key, binder.number)?;
    }
    Ok(())
}

/// Adds what a unit defines, also in broken forms.
fn add_unit(unit: usize, forms: &[UnitForm], numbers: &mut BTreeMap<GlobalNo, u64>) -> Mem<()>
    ensures { OnOk result ((k : AnyGlobal) →
        get global_cmp numbers.new k ≡ number_after (forms_given unit forms.now) k (get global_cmp numbers.old k)) }
{
    for form in forms {
        add_definitions(unit, form.trace.definitions.as_slice(), numbers)?;
    }
    Ok(())
}

/// The numbers of the definitions of a program.
fn numbers_of(alloc: Global, program: &Program) -> Mem<BTreeMap<GlobalNo, u64>>
    ensures { IfOk result (λ numbers. (k : AnyGlobal) → get global_cmp numbers k ≡ number_at program.now.units k) }
{
    let units = program.units.as_slice();
    let mut numbers = BTreeMap::new(alloc);
    for place in 0..units.len() {
        add_unit(place, units[place].forms.as_slice(), &mut numbers)?;
    }
    Ok(numbers)
}

impl Numbers {
    /// The numbers of the definitions of a program.
    pub fn of(alloc: Global, program: &Program) -> Mem<Numbers>
        ensures { IfOk result (λ numbers. (k : AnyGlobal) → get global_cmp numbers.by_ident k ≡ number_at program.now.units k) }
    {
        let by_ident = numbers_of(alloc, program)?;
        Ok(Numbers { by_ident })
    }

    /// The number of what a unit defines under an identifier, if it defines it.
    pub fn number(&self, unit: u32, ident: IdNo) -> Option<u64>
        ensures { result ≡ get global_cmp self.now.by_ident (record { unit = unit; ident = ident }) }
    {
        let unit = unit as usize;
        self.by_ident.get(&GlobalNo { unit, ident }).copied()
    }
}
