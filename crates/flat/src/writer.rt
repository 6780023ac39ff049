// Octets stored in a lent slice one after the other, where it has places for them.
ghost use Rattle.flat.specs.Steps.Emitting.{Writes};

// A slice, and the position of the next octet, which may lie behind the slice: octets that it has no places for are counted
// and not stored.
#[derive(Drop)]
pub(crate) struct Writer<'a> {
    pub(crate) out: &'a mut [u8],
    pub(crate) at: usize,
}

impl<'a> Writer<'a> {
    // Stores octets, where there are places for all.
    pub(crate) fn put(&mut self, octets: &[u8])
        ensures { Writes self.old octets.now self.new }
    {
        let start = self.at;
        self.at = start.saturating_add(octets.len());
        if self.at <= self.out.len() {
            self.out[start..self.at].copy_from_slice(octets);
        }
    }
}
