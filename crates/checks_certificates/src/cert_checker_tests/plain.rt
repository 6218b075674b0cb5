//! Logs over six vertices as a plain program judges them, apart from the calls that are tested.
use cert_checker::{CheckFault, Verdict};
use log_format::{Kind, LogFault};
use st_model::{Link, Need, SplitAt};
use std::alloc::{AllocError, Global};

/// The vertices are 1 to 6.
pub const VERTICES: [u32; 6] = [1, 2, 3, 4, 5, 6];

/// A step; a detour goes over one vertex.
#[derive(Clone, Copy)]
pub enum Move {
    Pendant(u32),
    Through(u32),
    Forced(u32),
    Detour { a: u32, b: u32, inner: u32 },
}

/// What is left of an instance. A link may be listed more than once; its cost is the least.
#[derive(Drop)]
pub struct Left {
    pub links: Vec<Link>,
    pub needs: [Need; 6],
    pub gone: [bool; 6],
    pub offset: u64,
}

fn joins(link: &Link, a: u32, b: u32) -> bool {
    (link.a, link.b) == (a, b) || (link.a, link.b) == (b, a)
}

impl Left {
    /// The cost of the link between two vertices, if there is one.
    pub fn cost(&self, a: u32, b: u32) -> Option<u64> {
        if a == b {
            return None;
        }
        let mut least: Option<u64> = None;
        for link in &self.links {
            if joins(link, a, b) {
                least = Some(least.unwrap_or(link.cost).min(link.cost));
            }
        }
        least
    }

    fn need(&self, vertex: u32) -> Option<Need> {
        let place = vertex.checked_sub(1)?;
        self.needs.get(place as usize).copied()
    }

    fn is_required(&self, vertex: u32) -> bool {
        self.need(vertex) == Some(Need::Required)
    }

    fn is_gone(&self, vertex: u32) -> bool {
        let place = vertex.saturating_sub(1) as usize;
        self.gone.get(place).copied().unwrap_or(true)
    }

    fn is_idle(&self, vertex: u32) -> bool {
        self.need(vertex) == Some(Need::Pays(0)) && !self.is_gone(vertex)
    }

    // How many vertices are linked with one.
    fn degree(&self, vertex: u32) -> usize {
        VERTICES
            .iter()
            .filter(|other| self.cost(vertex, **other).is_some())
            .count()
    }

    // The first vertex after another one that is linked with this one.
    fn neighbour(&self, vertex: u32, after: u32) -> Option<u32> {
        VERTICES.iter().copied().find(|other| after < *other && self.cost(vertex, *other).is_some())
    }

    fn present(&self) -> usize {
        self.gone.iter().filter(|gone| !**gone).count()
    }

    fn set_need(&mut self, vertex: u32, need: Need) {
        let place = vertex.saturating_sub(1) as usize;
        if place < self.needs.len() {
            self.needs[place] = need;
        }
    }

    // A vertex goes with its links.
    fn remove(&mut self, vertex: u32) {
        for link in self.links.iter_mut() {
            if link.a == vertex || link.b == vertex {
                link.b = link.a;
            }
        }
        let place = vertex.saturating_sub(1) as usize;
        if place < self.gone.len() {
            self.gone[place] = true;
        }
    }

    fn pendant(&mut self, vertex: u32) -> bool {
        if !self.is_idle(vertex) || self.degree(vertex) > 1 || self.present() < 2 {
            return false;
        }
        self.remove(vertex);
        true
    }

    // Where the two links of an idle vertex lead, and what they cost together.
    fn through_at(&self, vertex: u32) -> Option<(u32, u32, u64)> {
        if !self.is_idle(vertex) || self.degree(vertex) != 2 {
            return None;
        }
        let a = self.neighbour(vertex, 0)?;
        let b = self.neighbour(vertex, a)?;
        let sum = self.cost(vertex, a)?.saturating_add(self.cost(vertex, b)?);
        Some((a, b, sum))
    }

    fn through(&mut self, vertex: u32) -> Result<bool, AllocError> {
        let Some((a, b, cost)) = self.through_at(vertex) else {
            return Ok(false);
        };
        self.remove(vertex);
        self.links.push(Link { a, b, cost })?;
        Ok(true)
    }

    // Whether a vertex, as well as another one, is required.
    fn is_required_too(&self, vertex: u32) -> bool {
        self.is_required(vertex)
            && VERTICES
                .iter()
                .any(|other| *other != vertex && self.is_required(*other))
    }

    // Where the only link of a required vertex leads, and its cost, where another one is required.
    fn forced_at(&self, vertex: u32) -> Option<(u32, u64)> {
        if !self.is_required_too(vertex) || self.degree(vertex) != 1 {
            return None;
        }
        let neighbour = self.neighbour(vertex, 0)?;
        Some((neighbour, self.cost(vertex, neighbour)?))
    }

    fn forced(&mut self, vertex: u32) -> bool {
        let Some((neighbour, cost)) = self.forced_at(vertex) else {
            return false;
        };
        self.remove(vertex);
        self.set_need(vertex, Need::Pays(0));
        self.set_need(neighbour, Need::Required);
        self.offset = self.offset.saturating_add(cost);
        true
    }

    // Whether the way over a vertex stands in for a link.
    fn is_detour(&self, a: u32, b: u32, inner: u32) -> bool {
        let (Some(limit), Some(first), Some(second)) = (
            self.cost(a, b),
            self.cost(a, inner),
            self.cost(inner, b),
        ) else {
            return false;
        };
        let second = if self.is_required(inner) {
            second
        } else {
            second.saturating_add(first)
        };
        inner != b && inner != a && first <= limit && second <= limit
    }

    fn detour(&mut self, a: u32, b: u32, inner: u32) -> bool {
        if !self.is_detour(a, b, inner) {
            return false;
        }
        for link in self.links.iter_mut() {
            if joins(link, a, b) {
                link.b = link.a;
            }
        }
        true
    }

    /// Takes a step where it may be taken, and answers whether it was.
    pub fn take(&mut self, step: Move) -> Result<bool, AllocError> {
        match step {
            Move::Pendant(vertex) => Ok(self.pendant(vertex)),
            Move::Through(vertex) => self.through(vertex),
            Move::Forced(vertex) => Ok(self.forced(vertex)),
            Move::Detour { a, b, inner } => Ok(self.detour(a, b, inner)),
        }
    }

    // Whether the branch of what is left can be split here.
    fn is_split(&self, at: SplitAt) -> bool {
        match at {
            SplitAt::Vertex(vertex) => {
                self.need(vertex).is_some() && !self.is_required(vertex) && !self.is_gone(vertex)
            }
            SplitAt::Link(low, high) => {
                self.cost(low, high).is_some() && !self.is_gone(low) && !self.is_gone(high)
            }
        }
    }

    // What each tree pays where a split says yes: what its link costs.
    fn used(&self, at: SplitAt) -> u64 {
        match at {
            SplitAt::Vertex(_) => 0,
            SplitAt::Link(low, high) => self.cost(low, high).unwrap_or(0),
        }
    }

    /// The same once more.
    pub fn copied(&self, alloc: Global) -> Result<Left, AllocError> {
        Ok(Left {
            links: Vec::from_slice(alloc, &self.links)?,
            needs: self.needs,
            gone: self.gone,
            offset: self.offset,
        })
    }
}

/// A log of the path 1, 2, .. 6 with some steps, and at most one split, whose closes have no cuts.
#[derive(Drop)]
pub struct Certificate {
    pub primal: u64,
    pub dual: u64,
    pub steps: Vec<Move>,
    pub split: Option<SplitAt>,
}

fn fault(line: u64, kind: Kind) -> Result<Verdict, CheckFault> {
    Err(CheckFault::Log(LogFault { line, kind }))
}

// Takes steps up to the first that may not be taken, and answers how many.
fn taken(left: &mut Left, steps: &[Move]) -> Result<usize, AllocError> {
    let mut count: usize = 0;
    for step in steps {
        if !left.take(*step)? {
            return Ok(count);
        }
        count = count.saturating_add(1);
    }
    Ok(count)
}

// What the checker has to answer to a close on this line.
fn judged_close(left: &Left, certificate: &Certificate, line: u64) -> Result<Verdict, CheckFault> {
    let (dual, primal) = (certificate.dual, certificate.primal);
    if left.offset < dual {
        return fault(line, Kind::TooLight);
    }
    if dual == primal {
        return Ok(Verdict::Optimal(primal));
    }
    Ok(Verdict::Bound { dual, primal })
}

// What the checker has to answer to a proof that begins on this line.
fn judged_proof(left: &Left, certificate: &Certificate, line: u64) -> Result<Verdict, CheckFault> {
    match certificate.split {
        Some(at) if !left.is_split(at) => fault(line, Kind::BadSplit),
        Some(at) if left.offset.saturating_add(left.used(at)) < certificate.dual => {
            fault(line.saturating_add(1), Kind::TooLight)
        }
        Some(_) => judged_close(left, certificate, line.saturating_add(2)),
        None => judged_close(left, certificate, line),
    }
}

// What the checker has to answer to a certificate on what it leaves of an instance. The path has
// five arcs, so the first step is on line 10.
fn judged_on(
    left: &mut Left,
    certificate: &Certificate,
) -> Result<Result<Verdict, CheckFault>, AllocError> {
    let count = taken(left, &certificate.steps)?;
    let line = (count as u64).saturating_add(10);
    if count < certificate.steps.len() {
        return Ok(fault(line, Kind::BadStep));
    }
    Ok(judged_proof(left, certificate, line.saturating_add(1)))
}

/// What the checker has to answer to a certificate.
pub fn judged(
    alloc: Global,
    first: &Left,
    certificate: &Certificate,
) -> Result<Result<Verdict, CheckFault>, AllocError> {
    if certificate.dual > certificate.primal {
        return Ok(fault(2, Kind::DualAbovePrimal));
    }
    let mut left = first.copied(alloc)?;
    judged_on(&mut left, certificate)
}
