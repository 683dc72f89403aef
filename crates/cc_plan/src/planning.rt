//! What is planned for each item of a function.
ghost use Rattle.std.specs.Prelude.{◌≡◌, IfOk, OnOk, length};
ghost use Rattle.cc_plan.specs.Placed.{ArePlaced};

use crate::fusing::fuse;
use crate::liveness::note_live;
use crate::places::find_places;
use crate::plan::Plan;
use cc_program::{Function, Item, Program};
use std::alloc::{AllocError, Global};

/// Plans each item of a function.
fn plan_items(
    alloc: Global,
    program: &Program,
    function: &Function,
    items: &[Item],
    plans: &mut [Plan],
) -> Result<(), AllocError>
    ensures { OnOk result (ArePlaced program.now function.now items.now plans.new) }
{
    note_live(alloc, &program.symbols, function.first, items, plans)?;
    fuse(items, &program.symbols, plans);
    find_places(program, function, items, plans);
    Ok(())
}

/// A plan for each item of a function.
pub fn plans_of(
    alloc: Global,
    program: &Program,
    function: &Function,
    items: &[Item],
) -> Result<Vec<Plan>, AllocError>
    ensures length { IfOk result (λ plans. length plans.items ≡ length items.now) }
    ensures places { IfOk result (λ plans. ArePlaced program.now function.now items.now plans.items) }
{
    let mut plans = vec![in alloc; Plan::new(); items.len()]?;
    plan_items(alloc, program, function, items, plans.as_mut_slice())?;
    Ok(plans)
}
