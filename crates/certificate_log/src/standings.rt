ghost use Rattle.std.specs.Prelude.{◌≡◌, ◌++◌, ◌∷◌, [], IfOk, OnOk, IsSome, Some, nat_eq, List};
ghost use Rattle.indexmap.specs.IndexMap.{get, Updates};
ghost use Rattle.branching.specs.declared.node.Node.{Node as NodeSpec};
ghost use Rattle.search_core.specs.declared.done.Done.{Done as DoneSpec};
ghost use Rattle.search_core.specs.Complete.{records, waiting};
ghost use Rattle.certificate_log.specs.Standing.{FindsIn, standing_id};

use branching::Node;
use indexmap::IndexMap;
use search_core::{Done, Gathered};
use std::alloc::{AllocError, Global};

/// What stands under an id: what was done with the node, or the node itself, which waits.
#[derive(Clone, Copy, Debug)]
pub enum Standing<'a> {
    Record(&'a Done),
    Waiting(&'a Node),
}

impl Standing<'_> {
    /// The id under which it stands.
    fn id(&self) -> u64
        ensures { result ≡ standing_id self.now }
    {
        match self {
            Standing::Record(Done::Split { id, .. } | Done::Close { id, .. }) => *id,
            Standing::Waiting(node) => node.id,
        }
    }
}

/// What stands under each id, found in constant expected time.
#[derive(Drop)]
pub struct Standings<'a> {
    by_id: IndexMap<u64, Standing<'a>>,
}

impl<'a> Standings<'a> {
    /// What stands under each id in what was gathered.
    pub fn of(alloc: Global, gathered: &'a Gathered) -> Result<Standings<'a>, AllocError>
        ensures { IfOk result (FindsIn (records gathered.now) (waiting gathered.now)) }
    {
        let mut standings = Standings {
            by_id: IndexMap::new(alloc),
        };
        for segment in gathered.segments.as_slice() {
            standings.add_records(segment.done.as_slice())?;
            standings.add_waiting(segment.left.as_slice())?;
        }
        standings.add_waiting(gathered.queued.as_slice())?;
        Ok(standings)
    }

    /// What stands under an id.
    pub fn find(&self, id: u64) -> Standing<'a>
        requires { IsSome (get nat_eq self.now.by_id id) }
        ensures { get nat_eq self.now.by_id id ≡ Some result }
    {
        self.by_id.get(&id).copied().unwrap()
    }

    // Adds some records.
    fn add_records(&mut self, records: &'a [Done]) -> Result<(), AllocError>
        ensures { OnOk result ((ds : List DoneSpec) (ns : List NodeSpec)
            → FindsIn ds ns self.old → FindsIn (ds ++ records.now) ns self.new) }
    {
        for done in records {
            self.add(Standing::Record(done))?;
        }
        Ok(())
    }

    // Adds some nodes that wait.
    fn add_waiting(&mut self, nodes: &'a [Node]) -> Result<(), AllocError>
        ensures { OnOk result ((ds : List DoneSpec) (ns : List NodeSpec)
            → FindsIn ds ns self.old → FindsIn ds (ns ++ nodes.now) self.new) }
    {
        for node in nodes {
            self.add(Standing::Waiting(node))?;
        }
        Ok(())
    }

    // Adds what stands under its id.
    fn add(&mut self, standing: Standing<'a>) -> Result<(), AllocError>
        ensures { OnOk result (Updates nat_eq self.old.by_id self.new.by_id (standing_id standing.entry)
            (Some standing.entry)) }
    {
        self.by_id.insert(standing.id(), standing)?;
        Ok(())
    }
}
