// A second allowed order of a listing's operations. An order is allowed where of two operations that name a common cell the one with the earlier start comes first; so neighbours in the list that name no common cell may be exchanged.
use circuit::operation::Operation;

// Moves the last operation of a list to the front, past all that name no common cell with it, until one does.
fn move_forward(operations: &mut [Operation]) {
    for place in (1..operations.len()).rev() {
        if operations[place - 1]
            .action
            .shares_wire(operations[place].action)
        {
            return;
        }
        operations.swap(place - 1, place);
    }
}

// The operations in another order: from the second on, each is moved forward as far as is allowed.
pub(crate) fn reordered(rt: &HostRuntime, listing: &[Operation]) -> anyhow::Result<Vec<Operation>> {
    let mut operations = Vec::new(rt.alloc());
    for operation in listing {
        operations.push(*operation)?;
        move_forward(&mut operations);
    }
    Ok(operations)
}
