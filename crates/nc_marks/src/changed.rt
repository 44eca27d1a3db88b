//! Which elements have another mark than before.
ghost use Rattle.std.specs.Prelude.{◌≡◌, ◌<◌, ◌++◌, ◌∷◌, [], ◌⊎◌, Some, IfOk, OnOk};
ghost use Rattle.nc_marks.specs.Kept.{TouchesOnly};
ghost use Rattle.nc_marks.specs.Marks.{mark_of, marked_elements};

use crate::mark::Marks;
use nc_types::ElementId;
use std::alloc::{AllocError, Global};

// Lists an element, if its mark is another than before.
fn list_changed(
    before: &Marks,
    after: &Marks,
    element: u32,
    list: &mut Vec<u32>,
) -> Result<(), AllocError>
    requires before { element < marked_elements before.now }
    requires after { element < marked_elements after.now }
    ensures { OnOk result ((list.new.items ≡ list.old.items ++ element ∷ [])
        ⊎ ((list.new.items ≡ list.old.items)
        × (mark_of after.now (Some element) ≡ mark_of before.now (Some element)))) }
{
    let id = ElementId(element);
    if after.of_element(id) != before.of_element(id) {
        list.push(element)?;
    }
    Ok(())
}

// The elements whose marks are others than before, ascending.
pub(crate) fn changed(
    alloc: Global,
    elements: u32,
    before: &Marks,
    after: &Marks,
) -> Result<Vec<u32>, AllocError>
    requires before { marked_elements before.now ≡ elements }
    requires after { marked_elements after.now ≡ elements }
    ensures { IfOk result (λ touched. TouchesOnly touched.items before.now after.now) }
{
    let mut list = Vec::new(alloc);
    'elements: for element in 0..elements {
        list_changed(before, after, element, &mut list)?;
    }
    Ok(list)
}
