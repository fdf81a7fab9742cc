ghost use Rattle.std.specs.Prelude.{◌≡◌};
ghost use Rattle.xl_expr.specs.Plans.{var_in, resource_at, at_of, end_in, resource_in};

use xc_kernel::KRes;
use xw_words::List;

/// Where a variable stands: in the place dp + 4n; at the address that the word at dp + 4n holds; or, for an array of which one
/// element alone is used, that element stands at the address that the word at dp + 4n holds.
#[derive(Clone, Copy, PartialEq, Eq)]
pub enum VarAt {
    Near(u32),
    Far(u32),
    Through(u32),
}

/// The identifier of a resource: itself, or the word at dp + 4n plus 256 times j.
#[derive(Clone, Copy, PartialEq, Eq)]
pub enum ResAt {
    Fixed(u32),
    Held(u32, u32),
}

/// Where a variable stands, and how many words it has.
#[derive(Clone, Copy, PartialEq, Eq)]
pub struct VarPlan {
    pub place: VarAt,
    pub words: u32,
}

/// Where the ends of a channel's two sides stand among the ends of a core. For a side that is on another core the place means nothing.
#[derive(Clone, Copy, PartialEq, Eq)]
pub struct EndPlaces {
    pub first: u32,
    pub second: u32,
}

/// Where things stand for one body of code, by their places in the kernel's lists; and the word where the temporary words of the core's
/// thread 0 begin, behind which those of the others follow, one thread's behind the other's. A channel has two ends, one a side: `channels`
/// has for each channel the places of these among the ends.
#[derive(Drop)]
pub struct Plan {
    pub vars: List<Option<VarPlan>>,
    pub ports: List<Option<ResAt>>,
    pub timers: List<Option<ResAt>>,
    pub ends: List<ResAt>,
    pub channels: List<EndPlaces>,
    pub first_stack: u32,
}

impl Plan {
    /// Where a variable stands, and how many words it has.
    pub fn placed(&self, v: u32) -> Option<VarPlan>
        ensures { result ≡ var_in self.now.vars v }
    {
        match self.vars.get(v as usize) {
            Some(found) => *found,
            None => None,
        }
    }

    /// Where a variable stands. `None` exactly where the plan does not have it.
    pub fn var(&self, v: u32) -> Option<VarAt>
        ensures { result ≡ at_of (var_in self.now.vars v) }
    {
        match self.placed(v) {
            Some(found) => Some(found.place),
            None => None,
        }
    }

    /// The identifier of a port or timer. `None` exactly where the plan does not have it, or for a channel.
    pub fn res(&self, r: KRes) -> Option<ResAt>
        ensures { result ≡ resource_in self.now.ports self.now.timers r }
    {
        let found = match r {
            KRes::Port(p) => self.ports.get(p as usize),
            KRes::Timer(t) => self.timers.get(t as usize),
            KRes::Chan(_) => None,
        };
        match found {
            Some(place) => *place,
            None => None,
        }
    }

    /// The identifier of a channel end. `None` exactly where the plan does not have it.
    pub fn end(&self, end: u32) -> Option<ResAt>
        ensures { result ≡ end_in self.now.ends end }
    {
        self.ends.get(end as usize).copied()
    }
}
