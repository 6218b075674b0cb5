ghost use Rattle.std.specs.Prelude.{◌≡◌, List, Some, IfOk, OnOk};
ghost use Rattle.std.specs.Option.{option_and_then, option_copied, option_map};
ghost use Rattle.st_model.specs.declared.split_at.SplitAt.{SplitAt as Site};
ghost use Rattle.cut_packing.specs.ProofTree.{IsSplitAt};
ghost use Rattle.lift_back.specs.State.{IsState};
ghost use Rattle.log_format.specs.declared.proof_line.ProofLine.TheVariants.{Split};
ghost use Rattle.cert_checker.specs.declared.turn.Turn.{Turn};
ghost use Rattle.cert_checker.specs.Path.{branch_of, leaving_out, path_after};
ghost use Rattle.log_resume.specs.Open.{IsOpened};

use cert_checker::Path;
use lift_back::Reduced;
use log_format::ProofLine;
use st_model::{Branch, Instance};
use std::alloc::{AllocError, Global};
use std::marker::Model;

// A walk over the lines of a proof of what steps left: it holds the first branch that is open, and no other one.
#[derive(Drop)]
pub struct OpenBranches<'a> {
    instance: &'a Instance,
    path: Option<Path>,
}

impl<'a> Model for OpenBranches<'a> {
    ghost use Rattle.log_resume.specs.Open.{IsOpened, Opened};

    ghost Value = { Opened };

    ghost view = { λ o. record { instance = o.instance.now; path = o.path } };

    ghost invariant = { λ o. IsOpened (record { instance = o.instance.now; path = o.path }) };
}

impl<'a> OpenBranches<'a> {
    // The walk before the first line of a proof of what is left, which is this instance.
    pub fn of(
        alloc: Global,
        reduced: &Reduced,
        instance: &'a Instance,
    ) -> Result<OpenBranches<'a>, AllocError>
        requires { instance.now ≡ reduced.now.state.instance }
        ensures start { IfOk result (λ start. start
            ≡ record { instance = instance.now; path = Some (leaving_out reduced.now.state.gone) }) }
        ensures state { IsState reduced.now.state }
    {
        prove!(reduced.offset() <= u64::MAX);
        let gone = reduced.gone(alloc)?;
        let path = Path::leaving_out(alloc, &gone)?;
        Ok(OpenBranches {
            instance,
            path: Some(path),
        })
    }

    // The instance.
    pub fn instance(&self) -> &'a Instance
        ensures { result.now ≡ self.now.instance }
    {
        self.instance
    }

    // The first branch that is open.
    pub fn first(&self) -> Option<&Branch>
        ensures branch { option_copied result ≡ option_map branch_of self.now.path }
        ensures is_opened { IsOpened self.now }
    {
        Some(self.path.as_ref()?.branch())
    }

    // The walk after a line, which splits the first branch that is open where it can be split, or
    // closes it.
    pub fn after(self, line: &ProofLine) -> Result<OpenBranches<'a>, AllocError>
        requires { (p : List Turn) (at : Site) → self.path ≡ Some p → line.now ≡ Split at
            → IsSplitAt self.instance (branch_of p) at }
        ensures { IfOk result (λ next. next ≡ record {
          instance = self.entry.instance;
          path = option_and_then (λ p. path_after p line.now) self.entry.path;
        }) }
    {
        let OpenBranches { instance, path } = self;
        let Some(path) = path else {
            return Ok(OpenBranches {
                instance,
                path: None,
            });
        };
        match line {
            ProofLine::Split(at) => Ok(OpenBranches {
                instance,
                path: Some(path.split(*at)?),
            }),
            ProofLine::Close(_) => Ok(OpenBranches {
                instance,
                path: path.close()?,
            }),
        }
    }
}
