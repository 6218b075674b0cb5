ghost use Rattle.std.specs.Prelude.{ℕ, IfOk};
ghost use Rattle.arborescence.specs.Problem.{Problem};
ghost use Rattle.log_format.specs.declared.log.Version.{Version};
ghost use Rattle.log_format.specs.declared.item.Item.TheVariants.{ClaimTree, ClaimNone, Wall, TreeHead, Arc, StepsHead, OneStep, ProofHead};
ghost use Rattle.cert_checker.specs.Following.{Follows, IsAfterStep, IsAfterTree, IsReady};
ghost use Rattle.cert_checker.specs.Posed.{problem_of};

use crate::judges::rest_of;
use crate::judging::{judge_tree, judge_wall, steps_line};
use crate::posed::Posed;
use crate::proving::{after_cut, after_head, after_split, begun};
use crate::stage::{Stage, Stepping};
use crate::steps::take;
use crate::{JudgeError, Verdict};
use lift_back::Step;
use log_format::Item;
use st_model::{Listed, Tree};
use std::alloc::{AllocError, Global};

// After the header.
fn after_header(stage: Stage) -> Stage
    ensures { (p : Problem) (version : Version) → Follows p (Item.Header version) stage result }
{
    match stage {
        Stage::BeforeHeader => Stage::BeforeClaim,
        other => other,
    }
}

// After the claim of a tree.
fn after_claim(stage: Stage, primal: u64, dual: u64) -> Stage
    ensures { (p : Problem) → Follows p (ClaimTree primal dual) stage result }
{
    match stage {
        Stage::BeforeClaim => Stage::BeforeTree { primal, dual },
        other => other,
    }
}

// After the claim that there is no tree.
fn after_none(stage: Stage) -> Stage
    ensures { (p : Problem) → Follows p ClaimNone stage result }
{
    match stage {
        Stage::BeforeClaim => Stage::BeforeWall,
        other => other,
    }
}

// After a wall, which is judged.
fn after_wall(
    alloc: Global,
    posed: &Posed,
    stage: Stage,
    wall: &Listed<u32>,
) -> Result<Stage, AllocError>
    ensures { IfOk result (Follows (problem_of posed.now) (Wall wall.now) stage) }
{
    match stage {
        Stage::BeforeWall => match judge_wall(alloc, posed, wall) {
            Ok(()) => Ok(Stage::Right(Verdict::NoTree)),
            Err(JudgeError::Fault(fault)) => Ok(Stage::Wrong(fault)),
            Err(JudgeError::NoMemory) => Err(AllocError),
        },
        other => Ok(other),
    }
}

// After the head of a tree.
fn after_start(alloc: Global, stage: Stage, start: u32) -> Stage
    ensures { (p : Problem) (count : ℕ) → Follows p (TreeHead start count) stage result }
{
    match stage {
        Stage::BeforeTree { primal, dual } => Stage::AmongArcs {
            primal,
            dual,
            start,
            arcs: Listed::of(Vec::new(alloc)),
        },
        other => other,
    }
}

// After an arc.
fn after_arc(stage: Stage, tail: u32, head: u32) -> Result<Stage, AllocError>
    ensures { IfOk result (λ next. (p : Problem) → Follows p (Arc tail head) stage next) }
{
    match stage {
        Stage::AmongArcs {
            primal,
            dual,
            start,
            arcs,
        } => {
            let mut arcs = arcs.into_vec();
            arcs.push((tail, head))?;
            Ok(Stage::AmongArcs {
                primal,
                dual,
                start,
                arcs: Listed::of(arcs),
            })
        }
        other => Ok(other),
    }
}

// After a tree, which is judged.
fn after_tree(
    alloc: Global,
    posed: &Posed,
    primal: u64,
    dual: u64,
    tree: &Tree,
) -> Result<Stage, AllocError>
    ensures { IfOk result (IsAfterTree (problem_of posed.now) primal dual tree.now) }
{
    match judge_tree(alloc, posed, primal, dual, tree) {
        Ok(()) => Ok(Stage::AmongSteps(Stepping {
            primal,
            dual,
            rest: rest_of(alloc, posed)?,
            number: steps_line(tree),
        })),
        Err(JudgeError::Fault(fault)) => Ok(Stage::Wrong(fault)),
        Err(JudgeError::NoMemory) => Err(AllocError),
    }
}

// After the number of steps: the tree has come to its end.
fn after_arcs(alloc: Global, posed: &Posed, stage: Stage) -> Result<Stage, AllocError>
    ensures { IfOk result (λ next. (count : ℕ) → Follows (problem_of posed.now) (StepsHead count) stage next) }
{
    match stage {
        Stage::AmongArcs {
            primal,
            dual,
            start,
            arcs,
        } => {
            let tree = Tree { start, arcs };
            let next = after_tree(alloc, posed, primal, dual, &tree)?;
            Ok(next)
        }
        other => Ok(other),
    }
}

// After a step of a right tree, which is taken.
fn stepped(before: Stepping, step: &Step) -> Result<Stage, AllocError>
    ensures { IfOk result (IsAfterStep before step.now) }
{
    let Stepping {
        primal,
        dual,
        rest,
        number,
    } = before;
    match take(rest, number, step) {
        Ok(rest) => Ok(Stage::AmongSteps(Stepping {
            primal,
            dual,
            rest,
            number: number.saturating_add(1),
        })),
        Err(JudgeError::Fault(fault)) => Ok(Stage::Wrong(fault)),
        Err(JudgeError::NoMemory) => Err(AllocError),
    }
}

// After a step.
fn after_step(stage: Stage, step: &Step) -> Result<Stage, AllocError>
    ensures { IfOk result (λ next. (p : Problem) → Follows p (OneStep step.now) stage next) }
{
    match stage {
        Stage::AmongSteps(stepping) => {
            let next = stepped(stepping, step)?;
            Ok(next)
        }
        other => Ok(other),
    }
}

// After the word that begins the proof.
fn after_steps(alloc: Global, stage: Stage) -> Result<Stage, AllocError>
    ensures { IfOk result (λ next. (p : Problem) → Follows p ProofHead stage next) }
{
    match stage {
        Stage::AmongSteps(stepping) => {
            let proving = begun(alloc, &stepping)?;
            Ok(Stage::BeforeHalf(proving))
        }
        other => Ok(other),
    }
}

// What is judged after one more item.
pub fn after_item(
    alloc: Global,
    posed: &Posed,
    stage: Stage,
    item: Item,
) -> Result<Stage, AllocError>
    requires { IsReady (problem_of posed.now) stage }
    ensures { IfOk result (Follows (problem_of posed.now) item stage) }
{
    match item {
        Item::Header(_) => Ok(after_header(stage)),
        Item::ClaimTree { primal, dual } => Ok(after_claim(stage, primal, dual)),
        Item::ClaimNone => Ok(after_none(stage)),
        Item::Wall(wall) => after_wall(alloc, posed, stage, &wall),
        Item::TreeHead { start, .. } => Ok(after_start(alloc, stage, start)),
        Item::Arc(tail, head) => after_arc(stage, tail, head),
        Item::StepsHead(_) => after_arcs(alloc, posed, stage),
        Item::OneStep(step) => after_step(stage, &step),
        Item::ProofHead => after_steps(alloc, stage),
        Item::Split(at) => after_split(alloc, posed, stage, at),
        Item::CloseHead { root, count } => after_head(alloc, posed, stage, root, count),
        Item::OneCut(cut) => after_cut(alloc, posed, stage, cut),
        Item::Last => Ok(stage),
    }
}
