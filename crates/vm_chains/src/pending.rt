//! The handles that a walk has still to come to.
ghost use Rattle.std.specs.Prelude.{◌≡◌, [], ◌∷◌, IfOk, MatchOption, length};

use geos_model::VmHandle;
use std::alloc::{AllocError, Global};
use std::marker::Model;

/// The handles that a walk has still to come to. Contracts see them as a list, the next one first.
#[derive(Drop)]
pub(crate) struct Pending {
    handles: Vec<VmHandle>,
}

impl Model for Pending {
    ghost use Rattle.std.specs.Prelude.{List, ℕ, map, reverse};

    ghost Value = { List ℕ };

    ghost view = { λ p. map (λ h. h.0) (reverse p.handles.items) };
}

impl Pending {
    /// The root alone.
    pub(crate) fn new(alloc: Global, root: VmHandle) -> Result<Pending, AllocError>
        ensures { IfOk result (λ pending. pending ≡ root.0 ∷ []) }
    {
        let mut handles = Vec::new(alloc);
        handles.push(root)?;
        Ok(Pending { handles })
    }

    /// Puts a handle before the others.
    pub(crate) fn push(&mut self, handle: VmHandle) -> Result<(), AllocError>
        ensures { IfOk result (λ _. self.new ≡ handle.0 ∷ self.old) }
    {
        self.handles.push(handle)?;
        Ok(())
    }

    /// How many there are.
    pub(crate) fn len(&self) -> usize
        ensures { result ≡ length self.now }
    {
        self.handles.len()
    }

    /// Takes the next one.
    pub(crate) fn pop(&mut self) -> Option<VmHandle>
        ensures { MatchOption result ((self.old ≡ []) × (self.new ≡ [])) (λ handle. self.old ≡ handle.0 ∷ self.new) }
    {
        self.handles.pop()
    }
}
