//! A line of a script as a case has it.
use crate::shorthand::push_expanded;
use std::alloc::{AllocError, Global};

/// Lines of a script, and the replies that they must get.
#[derive(Drop)]
pub struct Said {
    script: String,
    replies: String,
}

impl Said {
    /// Nothing.
    pub(crate) fn new(alloc: Global) -> Said {
        Said {
            script: String::new(alloc),
            replies: String::new(alloc),
        }
    }

    /// Text behind the script, and behind the replies, as it stands.
    pub(crate) fn add_text(&mut self, script: &str, replies: &str) -> Result<(), AllocError> {
        self.script.push_str(script)?;
        self.replies.push_str(replies)
    }

    /// Lines, each a command, then ` = ` and its reply, or one that gets no reply. Spaces round each are left out. In a
    /// word `61+00*4` stands for `6100000000`.
    pub(crate) fn add_lines(&mut self, text: &str) -> Result<(), AllocError> {
        for line in text.lines() {
            match line.split_once(" = ") {
                Some((command, reply)) => {
                    push_expanded(&mut self.script, command)?;
                    push_expanded(&mut self.replies, reply)?;
                    self.add_text("\n", "\n")?;
                }
                None => {
                    push_expanded(&mut self.script, line)?;
                    self.add_text("\n", "")?;
                }
            }
        }
        Ok(())
    }

    /// The text of the script.
    pub fn script(&self) -> &str {
        self.script.as_str()
    }

    /// The text of the replies, with a line feed behind each.
    pub fn replies(&self) -> &str {
        self.replies.as_str()
    }
}
