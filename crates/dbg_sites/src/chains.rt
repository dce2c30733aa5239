ghost use Rattle.std.specs.Prelude.{◌≡◌, ◌-◌, ◌^◌, ◌<◌, [], length, OnErr, IfOk};

use hw_base::{OutOfMemory, Site};
use indexmap::IndexSet;
use std::alloc::Global;
use std::marker::Model;

/// A site in front of a chain with a number.
#[derive(Clone, Copy, PartialEq, Eq, Hash)]
struct Link {
    func: u32,
    inst: u32,
    rest: u32,
}

/// Chains of sites by numbers: 0 is the empty chain, and equal chains have one number. Contracts see the table of chains
/// that aren't empty, in order of their numbers.
#[derive(Drop)]
pub struct Chains {
    links: IndexSet<Link>,
}

impl Model for Chains {
    ghost use Rattle.std.specs.Prelude.{List};
    ghost use Rattle.dbg_sites.specs.ChainTable.{ChainEntry};

    ghost Value = { List ChainEntry };

    ghost use Rattle.dbg_sites.specs.ChainLinks.{entries_of};

    ghost view = { λ c. entries_of c.links.keys };
}

impl Chains {
    ghost use Rattle.dbg_sites.specs.ChainTable.{pushed, part_of};
    ghost use Rattle.dbg_sites.specs.ChainLinks.{IsPart};

    /// The table that has the empty chain alone. It takes no memory.
    pub fn new(alloc: Global) -> Chains
        ensures { result ≡ [] }
    {
        Chains {
            links: IndexSet::new(alloc),
        }
    }

    /// The number of the chain with a site in front of the chain `parent`, the same one each time. After want of memory
    /// the table is as before.
    pub fn push(&mut self, parent: u32, site: Site) -> Result<u32, OutOfMemory>
        requires { length self.old < 2 ^ 32 - 1 }
        ensures number { IfOk result (λ n. n ≡ (pushed self.old parent site).number) }
        ensures table { IfOk result (λ n. self.new ≡ (pushed self.old parent site).table) }
        ensures err { OnErr result (self.new ≡ self.old) }
    {
        let link = Link {
            func: site.func,
            inst: site.inst,
            rest: parent,
        };
        let found = match self.links.insert_full(link) {
            Ok(found) => found,
            Err(_) => return Err(OutOfMemory),
        };
        Ok(found.0 as u32 + 1)
    }

    /// The front site of a chain and the number of the rest, or none exactly for 0, the empty chain, and for a number that
    /// no chain has.
    pub fn part(&self, chain: u32) -> Option<(Site, u32)>
        ensures { IsPart (part_of self.now chain) result }
    {
        if chain == 0 {
            return None;
        }
        match self.links.get_index(chain as usize - 1) {
            Some(link) => {
                let site = Site {
                    func: link.func,
                    inst: link.inst,
                };
                Some((site, link.rest))
            }
            None => None,
        }
    }
}
