//! A list gets what there is. Used where rows are collected.
ghost use Rattle.std.specs.Prelude.{◌≡◌, ◌++◌, ◌∷◌, [], OnOk};
ghost use Rattle.std.specs.Option.{option_to_list};

use radio_base::NoMemory;

/// Puts it behind the others, if there is one.
pub(crate) fn push_some<T: Drop>(one: Option<T>, all: &mut Vec<T>) -> Result<(), NoMemory>
    ensures { OnOk result (all.new.items ≡ all.old.items ++ option_to_list one) }
{
    match one {
        Some(one) => {
            all.push(one)?;
            Ok(())
        }
        None => Ok(()),
    }
}

/// Puts a row behind the others.
pub(crate) fn push_row<T: Copy + Drop>(row: &T, all: &mut Vec<T>) -> Result<(), NoMemory>
    ensures { OnOk result (all.new.items ≡ all.old.items ++ row.now ∷ []) }
{
    all.push(*row)?;
    Ok(())
}
