//! Who opens files to be read alone: the machine for the program.
ghost use Rattle.document_tools.specs.Views.{Views};

use crate::obstacle::Cause;
use vm_store::Store;

/// Who opens files to be read alone. What an opening does is known by its relation alone, so that where a contract has
/// that, just that file was opened.
pub trait Viewer {
    /// What a file is opened as.
    type Opened: Store;

    ghost views: { Views Self (Self.Opened) };

    /// Opens the file of a name, which must be there. Nothing is made, and nothing is written to it; others may read it
    /// too.
    fn view(&mut self, name: &str) -> Result<Self::Opened, Cause>
        ensures { views self.old name.now result self.new };
}
