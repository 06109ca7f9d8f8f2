// The calls of the stack: it is opened empty, grows and shrinks at its end, and keeps the room that it was lent.
ghost use Rattle.std.specs.Prelude.{◌≡◌, ◌+◌, ◌-◌, ◌<◌, [], ◌∷◌, ◌++◌, length, is_some, if◌then◌else◌, nat_lt, slice_index_or};
ghost use Rattle.std.specs.Option.{option_to_list};
ghost use Rattle.propagation.specs.Stacks.{held, room};

use super::Stack;

impl<'a, T: Copy> Stack<'a, T> {
    pub fn new(entries: &'a mut [T]) -> Stack<'a, T>
        ensures is_empty { held result ≡ [] }
        ensures has_no_entry { result.len ≡ 0 }
        ensures has_the_room_lent { room result ≡ length entries.old }
    {
        Stack { entries, len: 0 }
    }

    pub fn len(&self) -> usize
        ensures counts_the_entries { result ≡ self.now.len }
    {
        self.len
    }

    // The entry at a place, counted from the first.
    pub fn get(&self, i: usize) -> T
        requires inside { i < self.now.len }
        ensures is_the_entry_there { result ≡ slice_index_or (held self.now) i result }
    {
        let entries: &[T] = &*self.entries;
        entries[i]
    }

    // Puts an entry last; false where the stack is full, which it then stays. A bool and no error: that it says when it is full is a
    // rule of the project, and who calls it here has room and hands nothing on.
    pub fn push(&mut self, x: T) -> bool
        ensures refuses_where_full { result ≡ nat_lt self.old.len (room self.old) }
        ensures holds_it_last { held self.new ≡ (if result then held self.old ++ (x ∷ []) else held self.old) }
        ensures is_longer { self.new.len ≡ (if result then self.old.len + 1 else self.old.len) }
        ensures keeps_its_room { room self.new ≡ room self.old }
    {
        if self.len >= self.entries.len() {
            return false;
        }
        self.entries[self.len] = x;
        self.len += 1;
        true
    }

    // Takes the latest entry off; none where the stack is empty.
    pub fn pop(&mut self) -> Option<T>
        ensures takes_the_latest { held self.old ≡ held self.new ++ option_to_list result }
        ensures has_one_unless_empty { is_some result ≡ nat_lt 0 self.old.len }
        ensures is_shorter { self.new.len ≡ self.old.len - 1 }
        ensures keeps_its_room { room self.new ≡ room self.old }
    {
        if self.len == 0 {
            return None;
        }
        self.len -= 1;
        Some(self.entries[self.len])
    }

    // Takes every entry off.
    pub fn clear(&mut self)
        ensures is_empty { held self.new ≡ [] }
        ensures has_no_entry { self.new.len ≡ 0 }
        ensures keeps_its_room { room self.new ≡ room self.old }
    {
        self.len = 0;
    }
}
