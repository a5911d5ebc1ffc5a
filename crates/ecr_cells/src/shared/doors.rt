// The doors of another caller.
ghost use Rattle.std.specs.Prelude.{◌≡◌, IfOk, OnOk, IsSome, All};
ghost use Rattle.std.specs.Map.{keys_of};
ghost use Rattle.ecr_cells.specs.Doors.{door_at};
ghost use Rattle.ecr_cells.specs.Splits.{AreSplit, DoorsStay, SplitsDoor};

use crate::repository::copy_of_name;
use crate::shared::directory::hang;
use crate::shared::door::Door;
use ecr_model::{Mem, Name};
use std::alloc::Global;
use std::collections::BTreeMap;
use std::sync::Wait;

/// Doors for another caller to the same repositories, who begins with what this one has seen.
pub(crate) fn split_doors<W: Wait>(
    doors: &mut BTreeMap<Name, Door>,
    rt: &W,
    alloc: Global,
) -> Result<BTreeMap<Name, Door>, Mem>
    ensures kept { DoorsStay doors.old.entries doors.new.entries }
    ensures split { IfOk result (λ splits. AreSplit doors.old.entries splits.entries) }
{
    let names = names_of(alloc, doors)?;
    let mut splits = BTreeMap::new(alloc);
    for name in names.as_slice() {
        split_door(doors, &mut splits, rt, name)?;
    }
    Ok(splits)
}

// The names of the repositories.
fn names_of(alloc: Global, doors: &BTreeMap<Name, Door>) -> Result<Vec<Name>, Mem>
    ensures names { IfOk result (λ names. names.items ≡ keys_of doors.now.entries) }
    ensures found { IfOk result (λ names. All (λ name. IsSome (door_at doors.now.entries name)) names.items) }
{
    let mut names = Vec::new(alloc);
    for name in doors.keys() {
        names.push(copy_of_name(name)?)?;
    }
    Ok(names)
}

// A door of that name for the other caller.
fn split_door<W: Wait>(
    doors: &mut BTreeMap<Name, Door>,
    splits: &mut BTreeMap<Name, Door>,
    rt: &W,
    name: &Name,
) -> Result<(), Mem>
    requires there { IsSome (door_at doors.old.entries name.now) }
    ensures kept { DoorsStay doors.old.entries doors.new.entries }
    ensures split { OnOk result (SplitsDoor doors.old.entries splits.old.entries splits.new.entries name.now) }
{
    let copy = copy_of_name(name)?;
    match doors.get_mut(name) {
        Some(door) => {
            let other = door.another(rt)?;
            hang(splits, copy, other)
        }
        None => unreachable!(),
    }
}
