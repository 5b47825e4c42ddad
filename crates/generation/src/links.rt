//! Objects by group, those of a group in the objects' order.
ghost use Rattle.std.specs.Prelude.{◌≡◌, IfOk};
ghost use Rattle.generation.specs.Inner.Linking.{AreMembers, group_by};

use crate::objects::Placed;
use crate::ordered::Keys;
use oc_bytes::NoMemory;
use std::alloc::Global;

/// What puts objects into groups.
#[derive(Clone, Copy, Debug, PartialEq, Eq)]
pub(crate) enum By {
    /// The folder that an object stands in, by one more than its number; 0 is that of the gateway.
    Folder,
    /// The id of the module that it lies in.
    Module,
}

impl Keys<Placed> for By {
    ghost key = { group_by };

    fn key(&self, object: &Placed) -> u128 {
        match (self, object.spot.parent) {
            (By::Module, _) => u128::from(object.module),
            (By::Folder, Some(folder)) => folder as u128 + 1,
            (By::Folder, None) => 0,
        }
    }
}

/// The objects by their groups. The only refusal is out of memory.
pub(crate) fn gather(alloc: Global, by: By, objects: &[Placed]) -> Result<Vec<Placed>, NoMemory>
    ensures { IfOk result (λ v. AreMembers by objects.now v.items) }
{
    let mut members = Vec::from_slice(alloc, objects)?;
    members.sort_by_key(
        |object: &Placed| -> u128
            ensures { result ≡ group_by by object.now }
        { by.key(object) },
    )?;
    Ok(members)
}
