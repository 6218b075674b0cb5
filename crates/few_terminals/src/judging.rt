ghost use Rattle.std.specs.Prelude.{◌≡◌, ◌≢◌, ◌+◌, ◌<◌, OnOk, IfErr, IfSome, IfNone};
ghost use Rattle.st_model.specs.Network.{IsVertex, is_required, pays};
ghost use Rattle.st_model.specs.Terminals.{terminal_count, NobodyPays};
ghost use Rattle.few_terminals.specs.Fault.{IsFew, IsFewFault};

use crate::FewFault;
use st_model::{Instance, Need};

// The most terminals that are few.
const MOST_TERMINALS: u32 = 12;

// The most cells of a table: one for each vertex and each set of terminals.
const MOST_CELLS: u64 = 67_108_864;

// The first fault that the instance has.
pub fn judge(instance: &Instance) -> Result<(), FewFault>
    ensures few { OnOk result (IsFew instance.now) }
    ensures fault { IfErr result (IsFewFault instance.now) }
    ensures judged { IfErr result (λ fault. fault ≢ FewFault.NoMemory) }
{
    let count = count_terminals(instance);
    if count > MOST_TERMINALS {
        return Err(FewFault::TooMany);
    }
    if payer(instance).is_some() {
        return Err(FewFault::Prizes);
    }
    let sets = 2u64.pow(count);
    if u64::from(instance.vertices()) * sets > MOST_CELLS {
        return Err(FewFault::TooLarge);
    }
    Ok(())
}

// How many vertices have to be reached.
fn count_terminals(instance: &Instance) -> u32
    ensures { result ≡ terminal_count instance.now }
{
    let mut count = 0;
    for vertex in 0..instance.vertices() {
        if is_terminal(instance, vertex + 1) {
            count += 1;
        }
    }
    count
}

// Whether a vertex has to be reached.
pub fn is_terminal(instance: &Instance, vertex: u32) -> bool
    requires { IsVertex instance.now.n vertex }
    ensures { result ≡ is_required instance.now vertex }
{
    matches!(instance.need(vertex), Need::Required)
}

// A vertex that pays where it is left out.
fn payer(instance: &Instance) -> Option<u32>
    ensures some { IfSome result (λ v. IsVertex instance.now.n v × (0 < pays instance.now v)) }
    ensures none { IfNone result (NobodyPays instance.now) }
{
    for vertex in 1..instance.vertices() + 1 {
        if instance.prize(vertex) > 0 {
            return Some(vertex);
        }
    }
    None
}
