//! Shortest ways from a root.
ghost use Rattle.std.specs.Prelude.{◌≡◌, ℕ, false, ◌+◌, ◌<◌, None, slice_index, slice_index_or};
ghost use Rattle.device.specs.Board.{graph_of};
ghost use Rattle.device.specs.Hops.{IsTree, far, distances, nexts};
ghost use Rattle.device.specs.Trees.{Grown, Spread, Closed, Shut};

use crate::device::Device;
use crate::hop::Hop;

/// The ways from the root to each place, none to one that is not reached: a fixed table, since the entries on bytes allocate nothing.
#[derive(Clone, Copy)]
pub struct Tree {
    pub root: usize,
    pub hops: [Option<Hop>; 16],
}

// A struct of device and tree with `IsTree` as its ghost field is no shorter: each function would have to say that the device stays.

/// All places joined to x are reached, which is itself `distance` steps from the root.
fn spread(device: &Device, tree: &mut Tree, x: usize, distance: u8)
    requires place { x < device.now.size }
    requires near { slice_index (distances tree.old.hops) x ≡ distance }
    requires low { distance < 16 }
    requires was_grown { IsTree (graph_of device.now) tree.old }
    ensures grown { IsTree (graph_of device.now) tree.new }
    ensures root { tree.new.root ≡ tree.old.root }
    ensures spread { Spread (graph_of device.now) (distances tree.old.hops) (distances tree.new.hops) x device.now.size }
{
    // By number, up to the last place that is there: over the hops with their numbers a line of sixteen places takes a sixth longer.
    for y in 0..device.size {
        if device.joins(x, y) && tree.hops[y].is_none() {
            tree.hops[y] = Some(Hop {
                distance: distance + 1,
                toward: x as u8,
            });
        }
    }
}

/// All places joined to one of a level are reached; whether the level has any place.
fn sweep(device: &Device, tree: &mut Tree, level: u8) -> bool
    requires low { level < 16 }
    requires was_grown { IsTree (graph_of device.now) tree.old }
    requires was_closed { Closed (graph_of device.now) (distances tree.old.hops) level }
    ensures grown { IsTree (graph_of device.now) tree.new }
    ensures root { tree.new.root ≡ tree.old.root }
    ensures closed { Closed (graph_of device.now) (distances tree.new.hops) (level + 1) }
    ensures last { result ≡ false → Shut (graph_of device.now) (distances tree.new.hops) }
{
    let mut any = false;
    // By number, since `spread` writes to the tree that an iterator would lend.
    for x in 0..device.size {
        if let Some(hop) = tree.hops[x]
            && hop.distance == level
        {
            spread(device, tree, x, level);
            any = true;
        }
    }
    any
}

/// The tree of shortest ways from a root to every place that can be reached.
pub fn grow(device: &Device, root: usize) -> Tree
    requires { root < device.now.size }
    ensures root { result.root ≡ root }
    ensures grown { Grown (graph_of device.now) root (distances result.hops) (nexts result.hops) }
    ensures within { (k : ℕ) → far (slice_index_or result.hops k None) < 255 → k < device.now.size }
    ensures shut { Shut (graph_of device.now) (distances result.hops) }
{
    let mut tree = Tree {
        root,
        hops: [None; 16],
    };
    tree.hops[root] = Some(Hop {
        distance: 0,
        toward: root as u8,
    });
    for level in 0..16 {
        if !sweep(device, &mut tree, level) {
            break;
        }
    }
    tree
}
