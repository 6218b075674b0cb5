//! Instances that look random, and the text of an instance as an STP file.
//!
//! `generated` is the instance that five numbers say, link by link, and `stp_text` the text of an instance at a scale,
//! line by line. A caller may rely on both to the byte. `Draws` gives the numbers behind the links and needs, each by
//! the one before it (`next`).
#![tactic(auto)]

ghost use Rattle.std.specs.Prelude.{◌≡◌, IfOk};
ghost use Rattle.instance_gen.specs.Generated.{generated, AreInRange};
ghost use Rattle.instance_gen.specs.Text.{stp_text};

mod chosen;
mod draws;
mod law;
mod links;
mod needs;
mod text;

use amounts::Scale;
use chosen::{draw_needs, shuffle};
pub use draws::Draws;
pub use law::{generated_are_connected, generated_fit_file, written_are_read};
use links::draw_links;
use needs::written_needs;
use st_model::Instance;
use std::alloc::{AllocError, Global};
use text::{put_graph, put_terminals};

/// The instance of n vertices that five numbers say: links of a tree, drawn one by one, further links up to m, and t
/// chosen vertices, which are required, or with `prizes` pay from 1 to 100 each. The seed is from 1 to 2147483646, n
/// from 1 to 1000000, m from n - 1 to 4000000, and t from 1 to n.
/// Takes time linear in n, m and t.
pub fn generate(
    alloc: Global,
    seed: u32,
    n: u32,
    m: u32,
    t: u32,
    prizes: bool,
) -> Result<Instance, AllocError>
    requires { AreInRange seed n m t }
    ensures { IfOk result (λ i. i ≡ generated seed n m t prizes) }
{
    let mut draws = Draws::of(seed);
    let links = draw_links(alloc, &mut draws, n, m)?;
    let list = shuffle(alloc, &mut draws, n, t)?;
    let needs = draw_needs(alloc, &mut draws, &list[..t as usize], prizes)?;
    Instance::build(alloc, n, &links, &needs)
}

/// The text of an instance as an STP file: a line for each link, and one for each vertex that is required or pays.
/// Costs and prizes count units of the scale, and are written in wholes.
/// Takes time linear in the instance. What fits into a file at the scale is read as the same instance at the same
/// scale (`written_are_read`).
pub fn write_stp(alloc: Global, instance: &Instance, scale: Scale) -> Result<Vec<u8>, AllocError>
    ensures { IfOk result (λ bytes. bytes.items ≡ stp_text instance.now scale) }
{
    let needs = written_needs(alloc, instance)?;
    let mut text = String::new(alloc);
    put_graph(&mut text, instance, scale)?;
    put_terminals(&mut text, &needs, scale)?;
    Ok(text.into_bytes())
}
