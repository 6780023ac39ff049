// Items that are stored one behind another, as many as there is room for, so that they never reach past the room.
ghost use Rattle.std.specs.Prelude.{◌≤◌, length};

#[derive(Drop)]
pub(crate) struct Store<'a, T> {
    room: &'a mut [T],
    count: usize,
    ghost within: { count ≤ length room.now },
}

impl<'a, T: Copy> Store<'a, T> {
    pub(crate) fn new(room: &'a mut [T]) -> Store<'a, T> {
        Store { room, count: 0 }
    }

    pub(crate) fn count(&self) -> usize {
        self.count
    }

    // Stores an item so many times.
    pub(crate) fn put(&mut self, item: T, times: u64) {
        let from = self.count;
        let left = self.room.len() - from;
        let n = left.min(usize::try_from(times).unwrap_or(left));
        self.room[from..from + n].fill_with(|| item);
        self.count = from + n;
    }

    // The next items go to the front again, over those that are stored.
    pub(crate) fn restart(&mut self) {
        self.count = 0;
    }

    pub(crate) fn stored(self) -> &'a [T] {
        let Store { room, count } = self;
        &room[..count]
    }

    // All that there is room for, with what is stored in front.
    pub(crate) fn whole(self) -> &'a [T] {
        let Store { room, count: _ } = self;
        &room[..]
    }
}
