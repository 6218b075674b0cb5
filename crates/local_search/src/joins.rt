use std::alloc::{AllocError, Global};

// Which parts are joined: those of one label, and those of the label of part 0 with the rest.
#[derive(Drop)]
pub struct Joins {
    labels: Vec<u32>,
    // How many joins are left until all is one.
    left: u32,
}

impl Joins {
    // No parts.
    pub fn new(alloc: Global) -> Joins {
        Joins {
            labels: Vec::new(alloc),
            left: 0,
        }
    }

    // So many parts, each by itself.
    pub fn begin(&mut self, parts: u32) -> Result<(), AllocError> {
        self.labels.clear();
        for part in 0..=parts {
            self.labels.push(part)?;
        }
        self.left = parts;
        Ok(())
    }

    // How many joins are left until all is one.
    pub fn left(&self) -> u32 {
        self.left
    }

    // Joins two parts; whether they were apart.
    pub fn join(&mut self, a: u32, b: u32) -> bool {
        let a = self.labels.get(a as usize).copied().unwrap_or(0);
        let b = self.labels.get(b as usize).copied().unwrap_or(0);
        if a == b {
            return false;
        }
        for label in self.labels.iter_mut() {
            if *label == b {
                *label = a;
            }
        }
        self.left = self.left.saturating_sub(1);
        true
    }

    // Whether all is one.
    pub fn are_done(&self) -> bool {
        self.left == 0
    }
}
