//! The shape of a fat tree: its routers and its links, by their numbers.

ghost use Rattle.std.specs.Prelude.{◌≡◌, ◌<◌, ◌+◌, ◌*◌, true, All, IfOk};
ghost use Rattle.nc_gen.specs.Tree.{is_size, links, tree_of};
ghost use Rattle.nc_gen.specs.Shape.{IsNumbered, IsSmall, IsTree, link_at, link_count, router_at, router_count};

use std::alloc::{AllocError, Global};

/// A fat tree by how many pods it has, how many routers a layer of a pod, and how many cores.
#[derive(Clone, Copy)]
pub(crate) struct Tree {
    pub(crate) pods: u32,
    pub(crate) half: u32,
    pub(crate) cores: u32,
}

/// A router: a core by its number, or another by its pod and its place in its layer there.
#[derive(Clone, Copy)]
pub(crate) enum Router {
    Core(u32),
    Aggregation(u32, u32),
    Edge(u32, u32),
}

/// A link: its number, and the numbers of the routers at its ends.
#[derive(Clone, Copy)]
pub(crate) struct Link {
    pub(crate) number: u32,
    pub(crate) upper: u32,
    pub(crate) lower: u32,
}

impl Tree {
    /// The tree of a size.
    pub(crate) fn new(size: u32) -> Tree
        requires { is_size size ≡ true }
        ensures tree { result ≡ tree_of size }
        ensures is { IsTree result }
    {
        let half = size / 2;
        Tree {
            pods: size,
            half,
            cores: half * half,
        }
    }

    /// How many routers there are.
    pub(crate) fn router_count(self) -> u32
        requires { IsTree self }
        ensures { result ≡ router_count self }
    {
        self.cores + self.pods * self.pods
    }

    /// The router of a number.
    #[tactic(auto, unfolding(crate::specs::Shape::router_at))]
    pub(crate) fn router(self, number: u32) -> Router
        requires tree { IsTree self }
        requires number { number < router_count self }
        ensures router { result ≡ router_at self number }
        ensures numbered { IsNumbered self number result }
    {
        if number < self.cores {
            return Router::Core(number);
        }
        let pod = (number - self.cores) / self.pods;
        let place = (number - self.cores) % self.pods;
        if place < self.half {
            Router::Aggregation(pod, place)
        } else {
            Router::Edge(pod, place - self.half)
        }
    }

    // The number of a router of a pod.
    fn number_in(self, pod: u32, place: u32) -> u32
        requires tree { IsTree self }
        requires pod { pod < 8 }
        requires place { place < 8 }
        ensures number { result ≡ self.cores + pod * self.pods + place }
        ensures small { result < 256 }
    {
        self.cores + pod * self.pods + place
    }

    // The link of a number: first come those of a pod's edge routers, then those of the cores.
    #[tactic(auto, unfolding(crate::specs::Shape::link_at))]
    fn link(self, number: u32) -> Link
        requires tree { IsTree self }
        requires number { number < link_count self }
        ensures link { result ≡ link_at self number }
        ensures small { IsSmall result }
    {
        let block = number / self.cores;
        let row = number / self.half % self.half;
        let column = number % self.half;
        if block < self.pods {
            Link {
                number,
                upper: self.number_in(block, column),
                lower: self.number_in(block, self.half + row),
            }
        } else {
            Link {
                number,
                upper: row * self.half + column,
                lower: self.number_in(block - self.pods, row),
            }
        }
    }

    /// All links, in order of number.
    pub(crate) fn links(self, alloc: Global) -> Result<Vec<Link>, AllocError>
        requires { IsTree self }
        ensures links { IfOk result (λ all. all.items ≡ links self) }
        ensures small { IfOk result (λ all. All IsSmall all.items) }
    {
        let mut links = Vec::new(alloc);
        'links: for number in 0..2 * self.pods * self.cores {
            links.push(self.link(number))?;
        }
        Ok(links)
    }
}
