ghost use Rattle.std.specs.Prelude.{◌≡◌, [], ◌∷◌};
ghost use Rattle.del_vector.specs.Marks.{epoch_at};

/// A deleted position of a container, and the epoch of the commit that deleted it.
#[derive(Clone, Copy, Debug, PartialEq, Eq)]
pub struct Mark {
    pub position: u64,
    pub epoch: u64,
}

impl Mark {
    /// Its epoch, where it marks this position.
    pub fn at(self, position: u64) -> Option<u64>
        ensures { result ≡ epoch_at (self ∷ []) position }
    {
        if self.position == position {
            Some(self.epoch)
        } else {
            None
        }
    }
}
