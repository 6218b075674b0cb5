ghost use Rattle.std.specs.Prelude.{◌≡◌, IfOk, map};
ghost use Rattle.stp_reader.specs.Reads.{network_from, scale_from, di_network_from, di_scale_from};
ghost use Rattle.stp_reader.specs.Reached.{file_from, di_file_from, IsFile, IsDiFile};
ghost use Rattle.stp_reader.specs.Unit.{link_in, need_in, stated_in};
ghost use Rattle.amounts.specs.declared.scale.Scale.TheVariants.{Whole};

use crate::seen::MILLION;
use crate::stage::{DiFilePart, FilePart};
use amounts::Scale;
use arborescence::DiInstance;
use st_model::{Instance, Link, Need};
use std::alloc::{AllocError, Global};

/// What an STP file of links stands for.
#[derive(Drop)]
pub struct Reading {
    pub instance: Instance,
    /// What the costs and prizes of the instance count.
    pub scale: Scale,
}

/// What an STP file of either kind stands for.
#[derive(Drop)]
pub enum File {
    Plain(Reading),
    Directed {
        instance: DiInstance,
        /// What the costs of the instance count.
        scale: Scale,
    },
}

// Turns costs in millionths into wholes.
fn to_wholes(links: &mut Vec<Link>)
    ensures { links.new.items ≡ map (link_in Whole) links.old.items }
{
    for link in links.iter_mut() {
        link.cost /= MILLION;
    }
}

// What is stated of a vertex, its prize in wholes.
fn whole_need(need: Need) -> Need
    ensures { result ≡ need_in Whole need }
{
    match need {
        Need::Required => Need::Required,
        Need::Pays(prize) => Need::Pays(prize / MILLION),
    }
}

// Turns prizes in millionths into wholes.
fn prizes_to_wholes(needs: &mut Vec<(u32, Need)>)
    ensures { needs.new.items ≡ map (stated_in Whole) needs.old.items }
{
    for stated in needs.iter_mut() {
        stated.1 = whole_need(stated.1);
    }
}

// Turns the costs and prizes of a file into its unit, and answers which it is.
fn in_its_unit(file: &mut FilePart) -> Scale
    requires { IsFile file.old }
    ensures scale { result ≡ scale_from (file_from file.old) }
    ensures vertices { file.new.vertices ≡ file.old.vertices }
    ensures links { file.new.links.items ≡ map (link_in result) file.old.links.items }
    ensures needs { file.new.needs.items ≡ map (stated_in result) file.old.needs.items }
{
    let scale = file.seen.scale();
    match scale {
        Scale::Whole => {
            to_wholes(&mut file.links);
            prizes_to_wholes(&mut file.needs);
        }
        Scale::Millionths => {}
    }
    scale
}

/// What a file of links stands for.
pub fn reading_of(alloc: Global, mut file: FilePart) -> Result<Reading, AllocError>
    requires { IsFile file }
    ensures instance { IfOk result (λ read. read.instance ≡ network_from (file_from file)) }
    ensures scale { IfOk result (λ read. read.scale ≡ scale_from (file_from file)) }
{
    let scale = in_its_unit(&mut file);
    let instance = Instance::build(alloc, file.vertices, &file.links, &file.needs)?;
    Ok(Reading { instance, scale })
}

// Turns the costs of a directed file into its unit, and answers which it is.
fn arcs_in_their_unit(file: &mut DiFilePart) -> Scale
    requires { IsDiFile file.old }
    ensures scale { result ≡ di_scale_from (di_file_from file.old) }
    ensures others { file.new ≡ record file.old { arcs = file.new.arcs } }
    ensures arcs { file.new.arcs.items ≡ map (link_in result) file.old.arcs.items }
{
    let scale = file.seen.scale();
    match scale {
        Scale::Whole => to_wholes(&mut file.arcs),
        Scale::Millionths => {}
    }
    scale
}

/// What a directed file stands for.
pub fn di_reading_of(alloc: Global, mut file: DiFilePart) -> Result<(DiInstance, Scale), AllocError>
    requires { IsDiFile file }
    ensures instance { IfOk result (λ read. read.0 ≡ di_network_from (di_file_from file)) }
    ensures scale { IfOk result (λ read. read.1 ≡ di_scale_from (di_file_from file)) }
{
    let scale = arcs_in_their_unit(&mut file);
    let instance = DiInstance::build(alloc, file.vertices, file.root, &file.arcs, &file.terminals)?;
    Ok((instance, scale))
}
