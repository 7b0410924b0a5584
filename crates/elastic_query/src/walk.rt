// The walk of a query: the probes of all levels in the order of phi, until one reads the identity.
//
// Position 1 is a gap, so that level 0 probe 0 is read first; from then on every gap reads a slot that is known not to hold
// the identity. So only mapped positions are visited, in rising order: a node of a tree is the stretch of q positions from b
// on that start with j's pairs; its second quarter holds i = q/4, .., and its second half the nodes of 2j and 2j + 1.
ghost use Rattle.std.specs.Prelude.{◌≡◌, ◌+◌, ◌*◌, ◌-◌, ◌/◌, ◌<◌, ◌≤◌, ◌^◌, length};
ghost use Rattle.elastic_probe.specs.TreeLaws.{Node, Next, Ends};
ghost use Rattle.elastic_query.specs.Query.{positions_of};
ghost use Rattle.elastic_query.specs.QuerySteps.{charged, end_of, Missed, Scanned, Scanning, Visiting};
ghost use Rattle.elastic_query.specs.Looking.{route_in, holds_in, levels_in, from_in, Looking};

use crate::query::{Cost, Finding, Lookup, QueryRefusal, Stretch};
use elastic::route::holds;
use lent::store::Stored;
use std::ops::ControlFlow;
use words::place::{GlobalSlot, LogicalProbe};

// A table, and what is looked up in it.
#[derive(Drop)]
pub(crate) struct Walk<'a, E: Stored> {
    pub words: &'a [E],
    pub flags: &'a [u8],
    pub look: Lookup,
    ghost fits: { Looking look (length (E.words words.now)) (length flags.now) },
    ghost some: { 0 < look.cap },
}

impl<'a, E: Stored> Walk<'a, E> {
    // The walk over positions 1, 2, .. up to the cap.
    pub fn find(&self) -> Result<Finding, QueryRefusal>
        ensures { result ≡ positions_of (route_in self.now.look) (holds_in self.now.look (E.words self.now.words.now) self.now.flags.now) (levels_in self.now.look) self.now.look.cap }
    {
        let look = self.look;
        let reading = look.probing.route(0, LogicalProbe(0))?;
        if holds(self.words, self.flags, look.id, reading.slot) {
            return Ok(Finding {
                position: 1,
                global_slot: GlobalSlot(reading.slot),
                mapped: 0,
                gap: 1,
                words: reading.words,
            });
        }
        self.descend(reading.words)
    }

    // The walk from position 3 on, node by node.
    fn descend(&self, spent: u64) -> Result<Finding, QueryRefusal>
        requires { Missed (route_in self.now.look) (holds_in self.now.look (E.words self.now.words.now) self.now.flags.now) 0 0 × (spent ≤ 8) }
        ensures { result ≡ from_in self.now.look (E.words self.now.words.now) self.now.flags.now 3 0 spent }
    {
        let mut node = Stretch { b: 3, j: 1, q: 1 };
        let mut cost = Cost {
            mapped: 0,
            words: spent,
        };
        // No index is counted here: the node itself goes on to the next.
        while node.b <= self.look.cap {
            match self.along(node, cost) {
                ControlFlow::Break(answer) => return answer,
                ControlFlow::Continue(more) => cost = more,
            }
            node = step(node);
        }
        Err(QueryRefusal::Absent)
    }

    // The mapped positions of a node, up to its middle: the answer of the walk, or on with what was counted.
    fn along(&self, node: Stretch, before: Cost) -> ControlFlow<Result<Finding, QueryRefusal>, Cost>
        requires { Scanning (route_in self.now.look) (holds_in self.now.look (E.words self.now.words.now) self.now.flags.now) self.now.look.cap node.b node.j node.q before.mapped before.words }
        ensures { Scanned (from_in self.now.look (E.words self.now.words.now) self.now.flags.now node.b before.mapped before.words) result
            (from_in self.now.look (E.words self.now.words.now) self.now.flags.now (node.b + 2 * (node.q / 4)))
            (node.b + 2 * (node.q / 4)) }
    {
        let end = scan_end(self.look.probing.last, self.look.cap, node);
        let mut cost = before;
        for i in node.q / 4..end {
            cost = self.visit(node.b + i, i, node.j, cost)?;
        }
        ControlFlow::Continue(cost)
    }

    // The mapped position of level i and probe j, both from 1.
    fn visit(
        &self,
        position: u64,
        i: u64,
        j: u64,
        before: Cost,
    ) -> ControlFlow<Result<Finding, QueryRefusal>, Cost>
        requires { Visiting (levels_in self.now.look) self.now.look.cap position i j before.mapped before.words }
        ensures { Scanned (from_in self.now.look (E.words self.now.words.now) self.now.flags.now position before.mapped before.words) result
            (from_in self.now.look (E.words self.now.words.now) self.now.flags.now (position + 1))
            (position + 1) }
    {
        let look = self.look;
        match look.probing.route(i - 1, LogicalProbe(j - 1)) {
            Err(range) => ControlFlow::Break(Err(QueryRefusal::Range(range))),
            Ok(reading) => {
                let cost = Cost {
                    mapped: before.mapped + 1,
                    words: before.words + charge(i, j, reading.words),
                };
                if holds(self.words, self.flags, look.id, reading.slot) {
                    ControlFlow::Break(Ok(Finding {
                        position,
                        global_slot: GlobalSlot(reading.slot),
                        mapped: cost.mapped,
                        gap: position - cost.mapped,
                        words: cost.words,
                    }))
                } else {
                    ControlFlow::Continue(cost)
                }
            }
        }
    }
}

// Where the mapped positions of a node end: at its middle, past the last level, or at the cap.
fn scan_end(last: u64, cap: u64, node: Stretch) -> u64
    requires { (last < 32) × (node.b ≤ cap) × (cap ≤ 984263340) }
    ensures { result ≡ end_of (last + 1) cap node.b node.q }
{
    (2 * (node.q / 4)).min(last + 2).min(cap - node.b + 1)
}

// The words that a reading adds: none at level 0 probe 0, which the first position has read.
fn charge(i: u64, j: u64, taken: u64) -> u64
    requires { (0 < i) × (0 < j) × (i < 4294967296) × (j < 4294967296) }
    ensures { result ≡ charged i j taken }
{
    if i - 1 + (j - 1) == 0 { 0 } else { taken }
}

// From the middle of a node to the next node.
fn step(node: Stretch) -> Stretch
    requires { (Node node.b node.j node.q) × (node.b < 2 ^ 60) }
    ensures { (Next (node.b + 2 * (node.q / 4)) result.b result.j result.q) × (node.b < result.b) }
{
    if 16 <= node.q {
        return Stretch {
            b: node.b + 2 * (node.q / 4),
            j: node.j * 2,
            q: node.q / 4,
        };
    }
    climb(node.b + node.q, node.j, node.q)
}

// From a node's end to the next node.
fn climb(end: u64, j0: u64, q0: u64) -> Stretch
    requires { (Ends «end» j0 q0) × («end» < 2 ^ 62) }
    ensures { Next «end» result.b result.j result.q }
{
    let mut j = j0;
    let mut q = q0;
    // Nor here: j and q go up the tree by halves and by fours.
    while 1 < j {
        if j % 2 == 0 {
            return Stretch {
                b: end,
                j: j + 1,
                q,
            };
        }
        j = j / 2;
        q = 4 * q;
    }
    Stretch {
        b: 6 * q,
        j: 1,
        q: 2 * q,
    }
}
