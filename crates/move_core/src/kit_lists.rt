//! The boxes of a kit put in the order of their kinds. Each list takes its boxes from the caller, who makes
//! them.
ghost use Rattle.std.specs.Prelude.{◌≡◌, IfOk};
ghost use Rattle.move_core.specs.Kinds.{AreOfKinds, extender_kinds, generator_kinds, rule_kinds};

use crate::{MoveExt, MoveGen, MoveRule};
use host_core::Memory;
use std::alloc::Global;

/// The generators of a kit.
pub fn kit_generators(
    alloc: Global,
    tables: Box<dyn MoveGen>,
    keys: Box<dyn MoveGen>,
    fields: Box<dyn MoveGen>,
    seeds: Box<dyn MoveGen>,
    items: Box<dyn MoveGen>,
) -> Result<Vec<Box<dyn MoveGen>>, Memory>
    requires tables { gen_kind tables ≡ 1 }
    requires keys { gen_kind keys ≡ 2 }
    requires fields { gen_kind fields ≡ 3 }
    requires seeds { gen_kind seeds ≡ 4 }
    requires items { gen_kind items ≡ 5 }
    ensures { IfOk result (λ boxes.
        AreOfKinds (λ b. (MoveGen-box b).gen_kind b.value) generator_kinds boxes.items) }
{
    let mut boxes = Vec::new(alloc);
    boxes.push(tables)?;
    boxes.push(keys)?;
    boxes.push(fields)?;
    boxes.push(seeds)?;
    boxes.push(items)?;
    Ok(boxes)
}

/// The extenders of a kit.
pub fn kit_extenders(
    alloc: Global,
    upper: Box<dyn MoveExt>,
    delete: Box<dyn MoveExt>,
    referrers: Box<dyn MoveExt>,
    required: Box<dyn MoveExt>,
) -> Result<Vec<Box<dyn MoveExt>>, Memory>
    requires upper { ext_kind upper ≡ 1 }
    requires delete { ext_kind delete ≡ 2 }
    requires referrers { ext_kind referrers ≡ 3 }
    requires required { ext_kind required ≡ 4 }
    ensures { IfOk result (λ boxes.
        AreOfKinds (λ b. (MoveExt-box b).ext_kind b.value) extender_kinds boxes.items) }
{
    let mut boxes = Vec::new(alloc);
    boxes.push(upper)?;
    boxes.push(delete)?;
    boxes.push(referrers)?;
    boxes.push(required)?;
    Ok(boxes)
}

/// The rules of a kit.
pub fn kit_rules(
    alloc: Global,
    full: Box<dyn MoveRule>,
    no_dependency: Box<dyn MoveRule>,
    no_empty: Box<dyn MoveRule>,
    create_only: Box<dyn MoveRule>,
    required: Box<dyn MoveRule>,
) -> Result<Vec<Box<dyn MoveRule>>, Memory>
    requires full { rule_kind full ≡ 1 }
    requires no_dependency { rule_kind no_dependency ≡ 2 }
    requires no_empty { rule_kind no_empty ≡ 3 }
    requires create_only { rule_kind create_only ≡ 4 }
    requires required { rule_kind required ≡ 5 }
    ensures { IfOk result (λ boxes.
        AreOfKinds (λ b. (MoveRule-box b).rule_kind b.value) rule_kinds boxes.items) }
{
    let mut boxes = Vec::new(alloc);
    boxes.push(full)?;
    boxes.push(no_dependency)?;
    boxes.push(no_empty)?;
    boxes.push(create_only)?;
    boxes.push(required)?;
    Ok(boxes)
}
