// One disk in memory for each site that a cluster may have.
ghost use Rattle.std.specs.Prelude.{◌≡◌, ◌<◌, length, replicate, get_or, map, IfOk, slice_index_or, vec_len};
ghost use Rattle.std.specs.Borrow.{sem};
ghost use Rattle.helios_model.specs.Limits.{most_sites};

use crate::MemDisk;
use helios_model::{MOST_SITES, SiteId};
use std::alloc::{AllocError, Global};
use std::marker::Model;

/// The disks of as many sites as a cluster may have.
#[derive(Drop)]
pub struct Bench {
    disks: Vec<MemDisk>,
}

impl Model for Bench {
    ghost use Rattle.std.specs.Prelude.{◌≡◌, List, length};
    ghost use Rattle.helios_model.specs.Limits.{most_sites};
    ghost use Rattle.disk_store.specs.Memory.{MemState};

    ghost Value = { List MemState };

    ghost view = { λ b. b.disks.items };

    ghost invariant = { λ b. length b.disks.items ≡ most_sites };
}

impl Bench {
    ghost use Rattle.disk_store.specs.Memory.{MemState, empty_disk, cleared};
    ghost use Rattle.disk_store.specs.Bench.{LendsDisk};

    /// Empty disks without room.
    pub fn new(alloc: Global) -> Result<Bench, AllocError>
        ensures { IfOk result (λ bench. bench ≡ replicate most_sites empty_disk) }
    {
        let mut disks = Vec::new(alloc);
        for _ in 0..MOST_SITES {
            disks.push(MemDisk::new(Vec::new(alloc), 0)?)?;
        }
        Ok(Bench { disks })
    }

    /// The disk of a site.
    pub fn disk(&mut self, site: SiteId) -> &mut MemDisk
        ensures* lends { sem 𝓛 (LendsDisk self.entry site result) }
        ensures disk { result.now ≡ slice_index_or self.old site result.now }
        ensures held { site < length self.old }
    {
        &mut self.disks[site.number() as usize]
    }

    /// Makes all disks empty, without scripts and without lists of failing calls. It takes no memory.
    pub fn clear(&mut self)
        ensures cleared { self.new ≡ map cleared self.old }
        ensures sites { length self.new ≡ most_sites }
    {
        for disk in self.disks.iter_mut() {
            disk.clear();
        }
    }
}
