ghost use Rattle.std.specs.Prelude.{◌≡◌, ◌+◌, ◌<◌, ◌≤◌, [], ◌∷◌, ◌++◌, length};

// A slice that was lent, filled from its front: there is no heap for a `Vec`.
#[derive(Drop)]
pub(crate) struct Row<'a, T> {
    pub(crate) entries: &'a mut [T],
    pub(crate) len: usize,
    ghost inside: { len ≤ length entries.now },
}

impl<'a, T: Copy> Row<'a, T> {
    ghost use Rattle.listings.specs.Rows.{filled, room, KeepsLoan};

    pub(crate) fn over(entries: &'a mut [T]) -> Row<'a, T>
        ensures same_slice { result.entries.ghost_name ≡ entries.entry.ghost_name }
        ensures room { room result ≡ length entries.old }
        ensures empty { filled result ≡ [] }
    {
        Row { entries, len: 0 }
    }

    pub(crate) fn clear(&mut self)
        ensures loan { KeepsLoan self.old self.new }
        ensures empty { filled self.new ≡ [] }
    {
        self.len = 0;
    }

    // Puts an entry behind the others, where there is room.
    pub(crate) fn push(&mut self, entry: T)
        ensures loan { KeepsLoan self.old self.new }
        ensures filled { length (filled self.old) < room self.old → filled self.new ≡ filled self.old ++ (entry ∷ []) }
    {
        if self.len < self.entries.len() {
            self.entries[self.len] = entry;
            self.len += 1;
        }
    }

    // Puts entries behind the others.
    pub(crate) fn extend_from_slice(&mut self, entries: &[T])
        requires { length (filled self.old) + length entries.now ≤ room self.old }
        ensures loan { KeepsLoan self.old self.new }
        ensures filled { filled self.new ≡ filled self.old ++ entries.now }
    {
        let next = self.len + entries.len();
        self.entries[self.len..next].copy_from_slice(entries);
        self.len = next;
    }

    pub(crate) fn filled(&self) -> &[T]
        ensures { result.now ≡ filled self.now }
    {
        &self.entries[..self.len]
    }

    pub(crate) fn into_filled(self) -> &'a mut [T]
        ensures { result.now ≡ filled self.entry }
    {
        let Row { entries, len } = self;
        let (front, _) = entries.split_at_mut(len);
        front
    }
}
