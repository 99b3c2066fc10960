//! What the program that looks at document files does: what it tells of a file, and how it ends.
#![tactic(auto)]

mod checking;
mod comparing;
mod dumping;
mod ending;
mod lines;
mod looking;
mod mapping;
mod next_step;
mod obstacle;
mod other_slot;
mod pages_text;
mod pieces;
mod report_text;
mod request;
mod restoring;
mod running;
mod salvaging;
mod stating;
mod system_viewer;
mod viewer;

pub use checking::check_file;
pub use comparing::{Names, diff_files};
pub use dumping::dump_file;
pub use ending::{Ending, Trouble};
pub use mapping::map_file;
pub use obstacle::{Cause, MakeFault, Obstacle};
pub use other_slot::dump_other;
pub use request::tell_no_request;
pub use restoring::{MakesNew, restore};
pub use running::{Machine, run};
pub use salvaging::salvage_file;
pub use stating::stat_file;
pub use system_viewer::{SystemViewer, TellsCause};
pub use viewer::Viewer;
