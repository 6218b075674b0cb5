ghost use Rattle.std.specs.Prelude.{◌≡◌, ◌+◌, ◌-◌, ◌≤◌, None, codes};
ghost use Rattle.log_format.specs.Reading.{Gives, number_of, split_of};
ghost use Rattle.log_format.specs.declared.log.Version.{Version as VersionSpec};
ghost use Rattle.log_format.specs.Places.{IsPlace, said_if, after_cuts, half_said, said};

use crate::fault::LineError;
use crate::line::{MAX_VERTEX, cut_of, number_of, pair_of, wall_of};
use crate::place::Place;
use crate::proving::root_of;
use crate::split_line::split_of;
use crate::stage::arc_of;
use crate::step_line::step_of;
use crate::{Item, Version};
use std::alloc::Global;

// This item and this place, if the line is this one.
fn said_if(wanted: &[u8], line: &[u8], item: Item, next: Place) -> Result<(Item, Place), LineError>
    ensures { Gives (λ x. x) result (said_if wanted.now line.now item next) }
{
    if line != wanted {
        return Err(LineError::BadLine);
    }
    Ok((item, next))
}

// What the line of a claim says.
#[tactic(auto, unfolding(crate::specs::Places::said))]
fn claim_said(line: &[u8]) -> Result<(Item, Place), LineError>
    ensures { (version : VersionSpec) → Gives (λ x. x) result (said version Place.BeforeClaim line.now) }
{
    if line == b"CLAIM NONE".as_slice() {
        return Ok((Item::ClaimNone, Place::BeforeWall));
    }
    let (primal, dual) = pair_of(line, b"CLAIM TREE", 0, u64::MAX, 0, u64::MAX).ok_or(
        LineError::BadLine,
    )?;
    Ok((Item::ClaimTree { primal, dual }, Place::BeforeTree))
}

// What the line of a tree says.
#[tactic(auto, unfolding(crate::specs::Places::said))]
fn tree_said(line: &[u8]) -> Result<(Item, Place), LineError>
    ensures { (version : VersionSpec) → Gives (λ x. x) result (said version Place.BeforeTree line.now) }
{
    let (start, count) = pair_of(line, b"TREE", 1, MAX_VERTEX, 0, u64::MAX).ok_or(
        LineError::BadLine,
    )?;
    let item = Item::TreeHead {
        start: start as u32,
        count,
    };
    Ok((item, Place::AmongArcs { left: count }))
}

// What a line says where arcs may stand.
#[tactic(auto, unfolding(crate::specs::Places::said))]
fn arc_said(left: u64, line: &[u8]) -> Result<(Item, Place), LineError>
    ensures { (version : VersionSpec) → Gives (λ x. x) result (said version (Place.AmongArcs left) line.now) }
{
    if left == 0 {
        let count = number_of(line, b"STEPS", 0, u64::MAX).ok_or(LineError::BadLine)?;
        return Ok((Item::StepsHead(count), Place::AmongSteps { left: count }));
    }
    let (tail, head) = arc_of(line)?;
    Ok((Item::Arc(tail, head), Place::AmongArcs { left: left - 1 }))
}

// What a line says where steps may stand.
#[tactic(auto, unfolding(crate::specs::Places::said))]
fn step_said(alloc: Global, left: u64, line: &[u8]) -> Result<(Item, Place), LineError>
    ensures { (version : VersionSpec) → Gives (λ x. x) result (said version (Place.AmongSteps left) line.now) }
{
    if left == 0 {
        return said_if(
            b"PROOF",
            line,
            Item::ProofHead,
            Place::BeforeHalf { waiting: 0 },
        );
    }
    let step = step_of(alloc, line)?;
    Ok((Item::OneStep(step), Place::AmongSteps { left: left - 1 }))
}

// What follows where so many cuts of a close are left, and so many halves wait.
fn after_cuts(left: u64, waiting: u64) -> Place
    ensures { result ≡ after_cuts left waiting }
{
    if left > 0 {
        return Place::AmongCuts { left, waiting };
    }
    if waiting == 0 {
        return Place::BeforeEnd;
    }
    Place::BeforeHalf {
        waiting: waiting - 1,
    }
}

// What the head of a close says.
fn close_said(waiting: u64, line: &[u8]) -> Result<(Item, Place), LineError>
    ensures { Gives (λ x. x) result (half_said None line.now waiting) }
{
    let (root, count) = pair_of(line, b"C", 0, MAX_VERTEX, 0, u64::MAX).ok_or(LineError::BadLine)?;
    let item = Item::CloseHead {
        root: root_of(root as u32),
        count,
    };
    Ok((item, after_cuts(count, waiting)))
}

// What a line says where a half of a proof begins.
#[tactic(auto, unfolding(crate::specs::Places::said))]
fn half_said(version: Version, waiting: u64, line: &[u8]) -> Result<(Item, Place), LineError>
    ensures { Gives (λ x. x) result (said version (Place.BeforeHalf waiting) line.now) }
{
    match split_of(version, line) {
        None => close_said(waiting, line),
        Some(at) => {
            let waiting = waiting.checked_add(1).ok_or(LineError::NoMemory)?;
            Ok((Item::Split(at), Place::BeforeHalf { waiting }))
        }
    }
}

// What a line says where cuts of a close stand.
#[tactic(auto, unfolding(crate::specs::Places::said))]
fn cut_said(alloc: Global, left: u64, waiting: u64, line: &[u8]) -> Result<(Item, Place), LineError>
    requires { 1 ≤ left }
    ensures { (version : VersionSpec) → Gives (λ x. x) result (said version (Place.AmongCuts left waiting) line.now) }
{
    let cut = cut_of(alloc, line)?;
    Ok((Item::OneCut(cut), after_cuts(left - 1, waiting)))
}

// What a line says where a wall stands.
#[tactic(auto, unfolding(crate::specs::Places::said))]
fn wall_said(alloc: Global, line: &[u8]) -> Result<(Item, Place), LineError>
    ensures { (version : VersionSpec) → Gives (λ x. x) result (said version Place.BeforeWall line.now) }
{
    let wall = wall_of(alloc, line)?;
    Ok((Item::Wall(wall), Place::BeforeEnd))
}

/// What a line of a log of this version says where it stands, and what may follow, if it may stand there.
pub fn said(
    alloc: Global,
    version: Version,
    place: Place,
    line: &[u8],
) -> Result<(Item, Place), LineError>
    requires { IsPlace place }
    ensures { Gives (λ x. x) result (said version place line.now) }
{
    match place {
        Place::BeforeHeader => said_if(
            version.header(),
            line,
            Item::Header(version),
            Place::BeforeClaim,
        ),
        Place::BeforeClaim => claim_said(line),
        Place::BeforeTree => tree_said(line),
        Place::AmongArcs { left } => arc_said(left, line),
        Place::AmongSteps { left } => step_said(alloc, left, line),
        Place::BeforeHalf { waiting } => half_said(version, waiting, line),
        Place::AmongCuts { left, waiting } => cut_said(alloc, left, waiting, line),
        Place::BeforeWall => wall_said(alloc, line),
        Place::BeforeEnd => said_if(b"END", line, Item::Last, Place::AfterEnd),
        Place::AfterEnd => Err(LineError::BadLine),
    }
}
