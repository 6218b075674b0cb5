ghost use Rattle.std.specs.Prelude.{◌≡◌, ◌∷◌};
ghost use Rattle.stp_reader.specs.Lines.{words};
ghost use Rattle.solution_reader.specs.Judging.{whole, judge_opening, judge_outside, judge_no_header, judge_passed, judge_run, final_end, judge_final, judge_line, judge, at_end};
ghost use Rattle.solution_reader.specs.Place.{nothing};
ghost use Rattle.solution_reader.specs.Forms.{primal_line};
ghost use Rattle.solution_reader.specs.Seen.{Says, Gives, form_seen, final_of, ended_of, got_of, whole_from, place_of};

use crate::SolReason;
use crate::fault::LineError;
use crate::form::{Form, form_of};
use crate::keyword::{SectionName, section_of};
use crate::numbers::primal_said;
use crate::tree_part::TreePart;
use std::alloc::Global;
use stp_reader::{has_magic, is_remark, next_word};

/// What the lines before have stated.
#[derive(Drop)]
pub struct GotPart {
    /// Whether a section Run has begun.
    pub run: bool,
    /// What it said as the primal, in millionths.
    pub primal: Option<u128>,
    /// A section Finalsolution that has ended.
    pub ended: Option<TreePart>,
}

/// What a whole text states.
#[derive(Drop)]
pub struct WholePart {
    pub primal: Option<u128>,
    pub tree: TreePart,
}

/// What has been read, and so what may stand on the next line.
#[derive(Drop)]
pub enum Stage {
    AtHeader,
    Outside(GotPart),
    PassedOver(GotPart),
    InRun(GotPart),
    InFinal(GotPart, TreePart),
    AfterEnd(WholePart),
}

// Before anything was stated.
fn nothing() -> GotPart
    ensures { got_of result ≡ nothing }
{
    GotPart {
        run: false,
        primal: None,
        ended: None,
    }
}

// After the line that opens a section.
fn opened(alloc: Global, mut got: GotPart, name: SectionName) -> Result<Stage, SolReason>
    ensures { Says place_of result (judge_opening (got_of got) name) }
{
    match name {
        SectionName::Passed => Ok(Stage::PassedOver(got)),
        SectionName::Run => {
            if got.run {
                return Err(SolReason::RepeatedSection);
            }
            got.run = true;
            Ok(Stage::InRun(got))
        }
        SectionName::Finalsolution => {
            if got.ended.is_some() {
                return Err(SolReason::RepeatedSection);
            }
            Ok(Stage::InFinal(got, TreePart::new(alloc)))
        }
    }
}

// All that is stated, where a section Finalsolution has ended.
fn whole(got: GotPart) -> Result<WholePart, SolReason>
    ensures { Says whole_from result (whole (got_of got) (ended_of got.ended)) }
{
    let primal = got.primal;
    match got.ended {
        Some(tree) => Ok(WholePart { primal, tree }),
        None => Err(SolReason::NoFinal),
    }
}

// After a line between sections.
fn outside_line(alloc: Global, got: GotPart, form: Form) -> Result<Stage, SolReason>
    ensures { Says place_of result (judge_outside (got_of got) (form_seen form.entry)) }
{
    match form {
        Form::Section(name) => opened(alloc, got, section_of(name)),
        Form::Eof => Ok(Stage::AfterEnd(whole(got)?)),
        _ => Err(SolReason::BadLine),
    }
}

// After the first line that says something, where it is no header.
fn no_header(alloc: Global, form: Form) -> Result<Stage, SolReason>
    ensures { Says place_of result (judge_no_header (form_seen form.entry)) }
{
    match form {
        Form::Section(name) => opened(alloc, nothing(), section_of(name)),
        Form::Nameless => Err(SolReason::BadLine),
        _ => Err(SolReason::NoHeader),
    }
}

// After a line of a section that is passed over.
fn passed_line(got: GotPart, form: Form) -> Stage
    ensures { place_of result ≡ judge_passed (got_of got) (form_seen form.entry) }
{
    match form {
        Form::End => Stage::Outside(got),
        _ => Stage::PassedOver(got),
    }
}

// With the primal that a word says, if it says one.
fn with_primal(mut got: GotPart, word: &[u8]) -> Stage
    ensures { place_of result ≡ judge_run (got_of got) (primal_line word.now) }
{
    if let Some(primal) = primal_said(word) {
        got.primal = Some(primal);
    }
    Stage::InRun(got)
}

// After a line of Run.
fn run_line(got: GotPart, form: Form) -> Stage
    ensures { place_of result ≡ judge_run (got_of got) (form_seen form.entry) }
{
    match form {
        Form::End => Stage::Outside(got),
        Form::Primal(word) => with_primal(got, word),
        _ => Stage::InRun(got),
    }
}

// After the END of Finalsolution.
fn final_end(got: GotPart, part: TreePart) -> Result<Stage, SolReason>
    ensures { Says place_of result (final_end (got_of got) (final_of part)) }
{
    if part.differs() {
        return Err(SolReason::CountMismatch);
    }
    Ok(Stage::Outside(GotPart {
        run: got.run,
        primal: got.primal,
        ended: Some(part),
    }))
}

// After a line of Finalsolution.
fn final_line(got: GotPart, part: TreePart, form: Form) -> Result<Stage, LineError>
    ensures { Gives place_of result (judge_final (got_of got) (final_of part) (form_seen form.entry)) }
{
    match form {
        Form::End => Ok(final_end(got, part)?),
        _ => Ok(Stage::InFinal(got, part.with_line(form)?)),
    }
}

// After a line that isn't skipped.
#[tactic(auto, unfolding(crate::specs::Judging::judge_line))]
fn after_said(
    alloc: Global,
    stage: Stage,
    line: &[u8],
    word: &[u8],
    args: &[u8],
) -> Result<Stage, LineError>
    requires { words line.now ≡ word.now ∷ words args.now }
    ensures { Gives place_of result (judge_line (place_of stage) (words line.now)) }
{
    let form = form_of(word, args);
    match stage {
        Stage::AtHeader if has_magic(line) => Ok(Stage::Outside(nothing())),
        Stage::AtHeader => Ok(no_header(alloc, form)?),
        Stage::Outside(got) => Ok(outside_line(alloc, got, form)?),
        Stage::PassedOver(got) => Ok(passed_line(got, form)),
        Stage::InRun(got) => Ok(run_line(got, form)),
        Stage::InFinal(got, part) => final_line(got, part, form),
        Stage::AfterEnd(whole) => Ok(Stage::AfterEnd(whole)),
    }
}

/// What has been read with one more line.
#[tactic(auto, unfolding(crate::specs::Judging::judge))]
pub fn after(alloc: Global, stage: Stage, line: &[u8]) -> Result<Stage, LineError>
    ensures { Gives place_of result (judge (place_of stage) (words line.now)) }
{
    let Some((word, args)) = next_word(line) else {
        return Ok(stage);
    };
    if is_remark(word) {
        return Ok(stage);
    }
    after_said(alloc, stage, line, word, args)
}

/// All that is stated, after the last line.
pub fn at_end(stage: Stage) -> Result<WholePart, SolReason>
    ensures { Says whole_from result (at_end (place_of stage)) }
{
    match stage {
        Stage::AtHeader => Err(SolReason::NoHeader),
        Stage::Outside(got) => whole(got),
        Stage::AfterEnd(whole) => Ok(whole),
        _ => Err(SolReason::Unclosed),
    }
}
