ghost use Rattle.std.specs.Prelude.{◌<◌, IfSome};

/// Some short addresses.
#[derive(Drop)]
pub(crate) struct ShortSet {
    marks: [bool; 64],
}

impl ShortSet {
    /// All, or none.
    pub(crate) fn new(is_marked: bool) -> ShortSet {
        ShortSet {
            marks: [is_marked; 64],
        }
    }

    pub(crate) fn has(&self, short: u8) -> bool {
        self.marks.get(usize::from(short)).copied().unwrap_or(false)
    }

    pub(crate) fn set(&mut self, short: u8) {
        if let Some(mark) = self.marks.get_mut(usize::from(short)) {
            *mark = true;
        }
    }

    pub(crate) fn unset(&mut self, short: u8) {
        if let Some(mark) = self.marks.get_mut(usize::from(short)) {
            *mark = false;
        }
    }

    /// The first from this one on.
    pub(crate) fn first_from(&self, from: u8) -> Option<u8>
        ensures { IfSome result (λ short. short < 64) }
    {
        for short in from..64 {
            if self.marks[usize::from(short)] {
                return Some(short);
            }
        }
        None
    }
}
