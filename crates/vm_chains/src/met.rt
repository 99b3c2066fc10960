//! The blocks that a walk has met, in order.
ghost use Rattle.std.specs.Prelude.{◌≡◌, [], ◌∷◌, ◌++◌, ◌==◌, true, IfOk, map};
ghost use Rattle.std.specs.List.{list_any};
ghost use Rattle.geos_model.specs.Document.{is_vm_handle};

use geos_model::VmHandle;
use std::alloc::{AllocError, Global};
use std::marker::Model;
use vm_blocks::MOST_BLOCKS;

/// The blocks that a walk has met, in order. Contracts see their handles.
#[derive(Drop)]
pub(crate) struct Met {
    handles: Vec<VmHandle>,
    /// Whether a handle was met.
    marks: Vec<bool>,
}

impl Model for Met {
    ghost use Rattle.std.specs.Prelude.{List, ℕ};
    ghost use Rattle.vm_chains.specs.Numbers.{numbers};
    ghost use Rattle.vm_chains.specs.Walking.{AreMarksOf};

    ghost Value = { List ℕ };

    ghost view = { λ m. numbers m.handles.items };

    ghost invariant = { λ m. AreMarksOf (numbers m.handles.items) m.marks.items };
}

impl Met {
    /// No block yet.
    pub(crate) fn new(alloc: Global) -> Result<Met, AllocError>
        ensures { IfOk result (λ met. met ≡ []) }
    {
        Ok(Met {
            handles: Vec::new(alloc),
            marks: vec![in alloc; false; MOST_BLOCKS + 1]?,
        })
    }

    /// Whether a block was met.
    pub(crate) fn contains(&self, handle: VmHandle) -> bool
        ensures { result ≡ list_any (λ h. h == handle.0) self.now }
    {
        matches!(self.marks.get(usize::from(handle.0)), Some(true))
    }

    /// Adds a block.
    pub(crate) fn add(&mut self, handle: VmHandle) -> Result<(), AllocError>
        requires { is_vm_handle handle.0 ≡ true }
        ensures { IfOk result (λ _. self.new ≡ self.old ++ handle.0 ∷ []) }
    {
        self.handles.push(handle)?;
        self.marks[usize::from(handle.0)] = true;
        Ok(())
    }

    /// The handles.
    pub(crate) fn into_handles(self) -> Vec<VmHandle>
        ensures { map (λ h. h.0) result.items ≡ self }
    {
        self.handles
    }
}
