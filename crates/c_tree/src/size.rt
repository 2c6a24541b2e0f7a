/// The number of nodes of a tree, and its depth.
#[derive(Clone, Copy)]
pub struct Size {
    pub nodes: u32,
    pub depth: u32,
}

impl Size {
    ghost use Rattle.std.specs.Prelude.{◌≡◌};
    ghost use Rattle.c_tree.specs.Size.{Fits, beside, empty, leaf, over};

    /// Of no node.
    pub fn empty() -> Size
        ensures { result ≡ empty }
    {
        Size { nodes: 0, depth: 0 }
    }

    /// Of a node without parts.
    pub fn leaf() -> Size
        ensures { result ≡ leaf }
    {
        Size { nodes: 1, depth: 1 }
    }

    /// Of parts side by side.
    pub fn beside(self, other: Size) -> Size
        requires { Fits (beside self other) }
        ensures { result ≡ beside self other }
    {
        Size {
            nodes: self.nodes + other.nodes,
            depth: self.depth.max(other.depth),
        }
    }

    /// Of a node over its parts.
    pub fn over(self) -> Size
        requires { Fits (over self) }
        ensures { result ≡ over self }
    {
        Size {
            nodes: self.nodes + 1,
            depth: self.depth + 1,
        }
    }
}
