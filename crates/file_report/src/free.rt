//! The pages of a file on which nothing lies.
ghost use Rattle.std.specs.Prelude.{◌≤◌, ◌||◌, ℕ, Bool};
ghost use Rattle.std.specs.List.Sorted.{IsNonDecreasingBy};
ghost use Rattle.file_space.specs.Space.{is_on};
ghost use Rattle.file_report.specs.Pages.{AreFreePages, IsPageWalk, PassesFree};

use crate::pages::Usage;
use file_format::{Extent, page_behind};

/// The pages of a file on which nothing lies.
#[derive(Clone, Copy, Debug, PartialEq, Eq)]
pub struct FreePages {
    pub pages: u64,
    /// How many runs of neighbours they form.
    pub runs: u64,
    /// The pages of the longest run, 0 for none.
    pub longest: u64,
}

// How far the pages are looked at, and those that were free.
#[derive(Clone, Copy)]
struct Walk {
    free: FreePages,
    /// Each page before this one is taken or counted.
    end: u64,
}

impl Walk {
    // Past a run of free pages up to this one, if any.
    fn past_free(self, start: u64) -> Walk
        ensures { PassesFree self start result }
    {
        let run = start.saturating_sub(self.end);
        if run == 0 {
            return self;
        }
        Walk {
            free: FreePages {
                pages: self.free.pages.saturating_add(run),
                runs: self.free.runs.saturating_add(1),
                longest: self.free.longest.max(run),
            },
            end: start,
        }
    }

    // Past an extent, of so many pages. One of no bytes lies on none.
    fn past(self, extent: Extent, pages: u64) -> Walk
        ensures { (taken : ℕ → Bool) (start : ℕ) → IsPageWalk taken pages start self → start ≤ extent.page
            → IsPageWalk (λ page. taken page || is_on page extent) pages extent.page result }
    {
        if extent.length == 0 {
            return self;
        }
        let walk = self.past_free(pages.min(u64::from(extent.page)));
        Walk {
            free: walk.free,
            end: pages.min(walk.end.max(page_behind(extent))),
        }
    }
}

/// Of a file of so many pages those on which none of these extents lies. Each page counts once, however many lie on it.
pub fn free_pages(usages: &[Usage], pages: u64) -> FreePages
    requires { IsNonDecreasingBy (λ u. u.extent.page) usages.now }
    ensures { AreFreePages usages.now pages result }
{
    let mut walk = Walk {
        free: FreePages {
            pages: 0,
            runs: 0,
            longest: 0,
        },
        end: 0,
    };
    for usage in usages {
        walk = walk.past(usage.extent, pages);
    }
    walk.past_free(pages).free
}
