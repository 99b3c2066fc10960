//! Pages that are known to be full, so that a search passes over them at once.
ghost use Rattle.std.specs.Prelude.{◌≡◌};
ghost use Rattle.file_space.specs.Stretches.{Passes};

/// Pages from one on and before another, at none of which so many free ones begin.
#[derive(Clone, Copy, Drop)]
pub(crate) struct FullStretch {
    pub(crate) pages: usize,
    pub(crate) from: usize,
    pub(crate) to: usize,
}

impl FullStretch {
    /// One in which no page lies.
    pub(crate) fn empty() -> FullStretch
        ensures { result.to ≡ 0 }
    {
        FullStretch {
            pages: 0,
            from: 0,
            to: 0,
        }
    }

    /// The first page from one on at which so many free ones may begin, as far as it tells.
    pub(crate) fn behind(self, page: usize, pages: usize) -> usize
        ensures { Passes self pages page result }
    {
        if self.pages <= pages && self.from <= page && page < self.to {
            self.to
        } else {
            page
        }
    }
}
