//! Regions whose trees weren't read yet.
ghost use Rattle.std.specs.Prelude.{◌≡◌, ◌<◌, ◌∷◌, ◌++◌, [], length, IfOk, IfNone, option_to_list};
ghost use Rattle.fx_check.specs.FirstRefusal.{depth_limit};

use fx_boxes::Region;
use std::alloc::{AllocError, Global};
use std::marker::Model;

/// The depth of every split is less than this.
pub(crate) const DEPTH_LIMIT: u32 = 512;

/// A region that waits for its tree.
#[derive(Clone, Copy)]
pub(crate) struct WaitingRegion {
    pub(crate) region: Region,
    /// The depth of the tree's root.
    pub(crate) depth: u32,
    /// The number of the path's selection processes that may count packets of the region.
    pub(crate) active: usize,
}

/// A stack of up to `DEPTH_LIMIT` regions, the last of which is next. All its room is made at the start.
#[derive(Drop)]
pub(crate) struct Stack {
    items: Vec<WaitingRegion>,
}

impl Model for Stack {
    ghost use Rattle.std.specs.Prelude.{List, length, vec_capacity, ◌≤◌};
    ghost use Rattle.fx_check.specs.declared.stack.WaitingRegion.{WaitingRegion};

    ghost Value = { List WaitingRegion };

    ghost view = { λ s. s.items.items };

    ghost use Rattle.fx_check.specs.FirstRefusal.{depth_limit};

    ghost invariant = { λ s. (depth_limit ≤ vec_capacity s.items) × (length s.items.items ≤ depth_limit) };
}

impl Stack {
    /// Creates a stack without regions, with room for `DEPTH_LIMIT`. Fails if out of memory.
    pub(crate) fn new(alloc: Global) -> Result<Stack, AllocError>
        ensures { IfOk result (λ s. s ≡ []) }
    {
        Ok(Stack {
            items: Vec::with_capacity(alloc, DEPTH_LIMIT as usize)?,
        })
    }

    /// Pushes a region on top.
    pub(crate) fn push(&mut self, waiting: WaitingRegion)
        requires { length self.old < depth_limit }
        ensures { self.new ≡ self.old ++ waiting ∷ [] }
    {
        match self.items.push(waiting) {
            Ok(()) => {}
            Err(_) => unreachable!(),
        }
    }

    /// Removes and returns the region on top, if there is one.
    pub(crate) fn pop(&mut self) -> Option<WaitingRegion>
        ensures items { self.old ≡ self.new ++ option_to_list result }
        ensures none { IfNone result (self.old ≡ []) }
    {
        self.items.pop()
    }
}
