ghost use Rattle.std.specs.Prelude.{◌<◌, IfOk, length};
ghost use Rattle.st_model.specs.Network.{Network};
ghost use Rattle.lift_back.specs.Detours.{IsDetour};
ghost use Rattle.special_dist.specs.declared.quest.Quest.{Quest};
ghost use Rattle.special_dist.specs.Visits.{IsQuest};
ghost use Rattle.special_dist.specs.Answers.{IsReachedFrom};

use crate::quest::Visit;
use std::alloc::{AllocError, Global};

// The vertices between the ends of the walk that came to the visit at a place.
pub fn inner_to(alloc: Global, visits: &[Visit], place: usize) -> Result<Vec<u32>, AllocError>
    requires { place < length visits.now }
    ensures { IfOk result (λ inner. (I : Network) (q : Quest) → IsQuest I q → IsReachedFrom I q visits.now place →
        IsDetour I q.a q.b inner.items) }
{
    let mut inner = Vec::new(alloc);
    let mut here = place;
    while visits[here].before < here {
        inner.push(visits[here].vertex)?;
        here = visits[here].before;
    }
    inner.reverse();
    Ok(inner)
}
