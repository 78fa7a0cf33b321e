//! The nodes of a chain of causes: events with what they made. Each is known once.
ghost use Rattle.std.specs.Prelude.{◌≡◌, OnOk};
ghost use Rattle.s360_inquiry.specs.Causes.{is_node, nodes_of, with_node, with_nodes};

use crate::cause::Cause;
use crate::extent::Extent;
use crate::origin::Origin;
use std::alloc::AllocError;

/// The event of a number and an extent that it made, which are told with so many levels of what is below them.
#[derive(Clone, Copy)]
pub(crate) struct Node {
    pub(crate) number: u32,
    pub(crate) extent: Extent,
    pub(crate) depth: u32,
}

impl Node {
    /// Whether both are of one event and one extent.
    pub(crate) fn is(self, other: Node) -> bool
        ensures { result ≡ is_node self other }
    {
        self.number == other.number && self.extent.is(other.extent)
    }
}

/// Puts a node behind those that are known, if it is none of them.
fn push_node(known: &mut Vec<Node>, node: Node) -> Result<(), AllocError>
    ensures { OnOk result (known.new.items ≡ with_node known.old.items node) }
{
    if known.iter().any(|one| node.is(*one)) {
        return Ok(());
    }
    known.push(node)?;
    Ok(())
}

/// Puts the nodes of causes behind those that are known, if they are to be told.
pub(crate) fn push_nodes(
    known: &mut Vec<Node>,
    depth: u32,
    causes: &[Cause],
) -> Result<(), AllocError>
    ensures { OnOk result (known.new.items ≡ with_nodes known.old.items (nodes_of depth causes.now)) }
{
    if depth <= 1 {
        return Ok(());
    }
    for cause in causes {
        if let Origin::Event(number) = cause.origin {
            push_node(
                known,
                Node {
                    number,
                    extent: cause.extent,
                    depth: depth - 1,
                },
            )?;
        }
    }
    Ok(())
}
