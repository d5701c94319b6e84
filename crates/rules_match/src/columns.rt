//! What the variables under an ellipsis stand for, place by place.
ghost use Rattle.std.specs.Prelude.{◌≡◌, ◌≤◌, ◌++◌, map, length, OnOk};
ghost use Rattle.rules_match.specs.Found.{Spreads, many_of};

use ls_base::{Mem, Memory};
use syntax_tree::rules::Binding;
use syntax_tree::symbols::IdNo;

/// A variable, and what it stands for at each place so far.
#[derive(Drop)]
pub struct Column {
    pub variable: IdNo,
    pub values: Vec<Binding>,
}

/// Adds what variables stand for at one more place.
pub fn spread(place: Vec<Binding>, columns: &mut Vec<Column>) -> Mem<()>
    requires { length place.items ≤ length columns.old.items }
    ensures { OnOk result (Spreads place.items columns.old.items columns.new.items) }
{
    let mut k = 0;
    for binding in place {
        columns[k].values.push(binding)?;
        k += 1;
    }
    Ok(())
}

/// Adds the bindings of variables with their places.
pub fn collect(columns: Vec<Column>, bindings: &mut Vec<Binding>) -> Mem<()>
    ensures { OnOk result (bindings.new.items ≡ bindings.old.items ++ map many_of columns.items) }
{
    for column in columns {
        let Column { variable, values } = column;
        bindings.push(Binding::Many {
            variable,
            list: values,
        })?;
    }
    Ok(())
}
