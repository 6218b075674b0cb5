ghost use Rattle.std.specs.Prelude.{◌≡◌, ◌++◌, ◌∷◌, [], ◌<◌, ◌≤◌, IfOk, OnOk, if◌then◌else◌};
ghost use Rattle.st_model.specs.Network;
ghost use Rattle.instance_gen.specs.Text;
ghost use Rattle.instance_gen.specs.Text.{those_of, written_needs as written_needs_of};

use st_model::{Instance, Need};
use std::alloc::{AllocError, Global};

// All required vertices, and then all that pay, ascending; at least one.
pub fn written_needs(alloc: Global, instance: &Instance) -> Result<Vec<(u32, Need)>, AllocError>
    ensures { IfOk result (λ needs. needs.items ≡ written_needs_of instance.now) }
{
    let mut needs = Vec::new(alloc);
    put_required(&mut needs, instance)?;
    put_paying(&mut needs, instance)?;
    if needs.is_empty() {
        needs.push((1, Need::Pays(0)))?;
    }
    Ok(needs)
}

fn put_required(needs: &mut Vec<(u32, Need)>, instance: &Instance) -> Result<(), AllocError>
    ensures { OnOk result (needs.new.items ≡ needs.old.items
        ++ those_of instance.now Network.is_needed instance.now.n) }
{
    for before in 0..instance.vertices() {
        let need = instance.need(before + 1);
        put_if(needs, before + 1, need, is_needed(need))?;
    }
    Ok(())
}

fn put_paying(needs: &mut Vec<(u32, Need)>, instance: &Instance) -> Result<(), AllocError>
    ensures { OnOk result (needs.new.items ≡ needs.old.items ++ those_of instance.now Text.is_paying instance.now.n) }
{
    for before in 0..instance.vertices() {
        let need = instance.need(before + 1);
        put_if(needs, before + 1, need, is_paying(need))?;
    }
    Ok(())
}

// Adds the vertex with its need, if this is asked for.
fn put_if(
    needs: &mut Vec<(u32, Need)>,
    vertex: u32,
    need: Need,
    is_asked: bool,
) -> Result<(), AllocError>
    ensures { OnOk result (needs.new.items ≡ needs.old.items ++ (if is_asked then (vertex, need) ∷ [] else [])) }
{
    if is_asked {
        needs.push((vertex, need))?;
    }
    Ok(())
}

fn is_needed(need: Need) -> bool
    ensures { result ≡ Network.is_needed need }
{
    match need {
        Need::Required => true,
        Need::Pays(_) => false,
    }
}

fn is_paying(need: Need) -> bool
    ensures { result ≡ Text.is_paying need }
{
    need.prize() > 0
}
