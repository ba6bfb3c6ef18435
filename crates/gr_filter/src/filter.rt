//! A filter as a whole.

ghost use Rattle.std.specs.Prelude.{◌≡◌, IfOk};
ghost use Rattle.gr_filter.specs.Tree.{tree_of};
ghost use Rattle.gr_filter.specs.Written.{IsWritten};

use crate::fault::Memory;
use crate::node::Node;
use std::alloc::Global;
use std::marker::Model;

/// A filter, seen as the root of its tree. Its names, integers and texts can be written down.
#[derive(Drop)]
pub struct Filter {
    /// The root of the tree.
    pub(crate) root: Node,
}

impl Model for Filter {
    ghost use Rattle.gr_filter.specs.declared.node.Node.{Node as ANode};
    ghost use Rattle.gr_filter.specs.Tree.{tree_of};
    ghost use Rattle.gr_filter.specs.Written.{IsWritten};
    ghost use Rattle.gr_filter.specs.contracts.node.Node as node;
    ghost use Rattle.std.specs.Coded.{codes};

    ghost Value = { ANode };

    ghost coded = { Prim.hlevel (codes, node.the_row.coded) };

    ghost view = { λ f. f.root };

    ghost invariant = { λ f. IsWritten (tree_of f.root) };
}

impl Filter {
    /// The root of its tree.
    pub fn root(&self) -> &Node
        ensures root { result.now ≡ self.now }
        ensures written { IsWritten (tree_of self.now) }
    {
        &self.root
    }

    /// A filter with an equal tree.
    pub fn copy(&self, alloc: Global) -> Result<Filter, Memory>
        ensures { IfOk result (λ f. tree_of f ≡ tree_of self.now) }
    {
        let root = self.root.copy(alloc)?;
        Ok(Filter { root })
    }
}
