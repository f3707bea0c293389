//! A DELETE bound to the one cube that it needs.

ghost use Rattle.std.specs.Prelude.{[], ◌∷◌, IfOk};
ghost use Rattle.cube_language.specs.Misfits.{HasMisfit};
ghost use Rattle.cube_values.specs.Faults.{IfFault};
ghost use Rattle.query_plan.specs.Bindings.{DeletesRows, IsBindFault, IsDropPlan, IsDropSpan, IsSomeDropPlan};

use cube_language::{Misfit, Statement};
use cube_schema::Schema;
use cube_values::{CallError, Span};
use query_plan::{BindFault, DropPlan, bind_delete, span_of};
use std::alloc::{AllocError, Global};
use std::slice::from_ref;

// Why a DELETE is not bound to its cube, which is the only one. The session was told of the cube by its name, so that it
// is never unknown.
#[tactic(auto, using(crate::proofs::OneCube::fails_on_it))]
fn unbound(
    cube: &Schema,
    statement: &Statement,
    fault: BindFault,
) -> Result<DropPlan, CallError<Misfit>>
    requires fault { IsBindFault (cube.now ∷ []) statement.now fault }
    ensures plan { IfOk result (IsDropPlan (cube.now ∷ []) statement.now) }
    ensures fault { IfFault result (HasMisfit cube.now statement.now) }
{
    match fault {
        BindFault::Unfit { misfit } => Err(CallError::Fault(misfit)),
        BindFault::UnknownCube { .. } => Err(CallError::NoMemory),
    }
}

/// The plan of a DELETE on the cube that it needs. It is refused for the first test that it fails there.
pub(crate) fn plan_on(
    alloc: Global,
    cube: &Schema,
    statement: &Statement,
) -> Result<DropPlan, CallError<Misfit>>
    requires deletes { DeletesRows statement.now }
    ensures plan { IfOk result (IsDropPlan (cube.now ∷ []) statement.now) }
    ensures fault { IfFault result (HasMisfit cube.now statement.now) }
{
    match bind_delete(alloc, statement, from_ref(cube)) {
        Ok(plan) => Ok(plan),
        Err(CallError::Fault(fault)) => unbound(cube, statement, fault),
        Err(CallError::NoMemory) => Err(CallError::NoMemory),
    }
}

/// The span of a plan on its cube, with each text read as its code. The error is out of memory.
pub(crate) fn span_on(
    alloc: Global,
    cube: &Schema,
    plan: &DropPlan,
    codes: &[Option<u32>],
) -> Result<Span, AllocError>
    requires plan { IsSomeDropPlan (cube.now ∷ []) plan.now }
    ensures { IfOk result (IsDropSpan (cube.now ∷ []) plan.now codes.now) }
{
    span_of(alloc, plan, from_ref(cube), codes)
}
