ghost use Rattle.std.specs.Prelude.{◌≡◌, []};
ghost use Rattle.lift_back.specs.State.{whole};
ghost use Rattle.certificate_log.specs.Assembled.{IsAssembled};
ghost use Rattle.checks_logs.specs.Halved.{halved, two};

use crate::certificate_log_tests::links::{log_of_link, two};
use branching::Node;
use lift_back::Reduced;
use log_format::{Claim, Log};
use log_resume::{Closes, open_closes};
use st_model::Instance;
use std::alloc::{AllocError, Global};
use std::test::Fail;

// The closes of that log which weigh less than a number. None where it claims that there is no tree.
fn light_closes(
    alloc: Global,
    instance: &Instance,
    log: &Log,
    least: u64,
) -> Result<Option<Vec<Node>>, AllocError>
    requires instance { instance.now ≡ two }
    requires log { IsAssembled [] two (whole two) halved log.now }
{
    let Claim::Found { proof, .. } = &log.claim else {
        return Ok(None);
    };
    let reduced = Reduced::of(alloc, instance)?;
    let closes = Closes::of(alloc, &reduced, instance, proof)?;
    Ok(Some(open_closes(alloc, closes, least)?))
}

// Their numbers, and how many links have to be used in each.
fn light(alloc: Global, least: u64) -> Result<Vec<(u64, usize)>, AllocError> {
    let mut light = Vec::new(alloc);
    let instance = two(alloc)?;
    let Some(log) = log_of_link(alloc, &instance)? else {
        return Ok(light);
    };
    for node in light_closes(alloc, &instance, &log, least)?.unwrap_or(Vec::new(alloc)) {
        light.push((node.id, node.branch.must.as_slice().len()))?;
    }
    Ok(light)
}

// The close with the link weighs what it costs, and so does the one with vertex 1; without 1 it is what that pays.
#[test]
fn finds_light_closes(rt: HostRuntime) -> Result<(), Fail> {
    for (least, want) in [
        (5, &[] as &[(u64, usize)]),
        (6, &[(0, 1), (1, 0)]),
        (9, &[(0, 1), (1, 0)]),
        (10, &[(0, 1), (1, 0), (2, 0)]),
    ] {
        assert!(rt;
            light(rt.alloc(), least)?.as_slice() == want,
            "below {least}"
        );
    }
    Ok(())
}
