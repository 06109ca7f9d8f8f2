// Opening a page, putting bytes behind its text, and ending it.
ghost use Rattle.std.specs.Prelude.{◌≡◌, [], ◌∷◌, ◌++◌, length, is_some, IfSome};
ghost use Rattle.page.specs.Pages.{fresh, putting};
ghost use Rattle.page.specs.Views.{filled_of};

use crate::buffer::Page;

impl<'a> Page<'a> {
    // A page without text, over the whole buffer.
    pub fn new(buffer: &'a mut [u8]) -> Page<'a>
        ensures is_fresh { filled_of result ≡ fresh buffer.entry.ghost_name buffer.old }
    {
        Page {
            buffer,
            len: 0,
            whole: true,
        }
    }

    // Puts one byte behind the text.
    #[tactic(auto, using(crate::proofs::Putting::byte_put, crate::proofs::Putting::byte_cut))]
    pub fn byte(&mut self, byte: u8)
        ensures puts_the_byte { filled_of self.new ≡ putting (byte ∷ []) (filled_of self.old) }
    {
        if self.len < self.buffer.len() {
            self.buffer[self.len] = byte;
            self.len += 1;
        } else {
            self.whole = false;
        }
    }

    // Puts bytes behind the text.
    #[tactic(auto, using(crate::proofs::Putting::put_none, crate::proofs::Putting::put_parts, std::proofs::lemmas::List::take_more))]
    pub fn put(&mut self, bytes: &[u8])
        ensures puts_the_bytes { filled_of self.new ≡ putting bytes.now (filled_of self.old) }
    {
        for byte in bytes {
            self.byte(*byte);
        }
    }

    // Ends the page: the length of the text, or none where something was cut off. The buffer stays as it is.
    pub fn finish(self) -> Option<usize>
        ensures ended_with_a_length_exactly_if_nothing_was_cut { is_some result ≡ (filled_of self.entry).whole }
        ensures answers_the_length { IfSome result (λ n. n ≡ length (filled_of self.entry).text) }
        ensures leaves_the_buffer { self.exit.0.now ≡ (filled_of self.entry).text ++ (filled_of self.entry).behind }
    {
        let Page {
            buffer: _,
            len,
            whole,
        } = self;
        whole.then_some(len)
    }
}

#[cfg(test)]
mod tests {
    use super::*;

    #[test]
    fn writes_in_order_and_leaves_the_rest(rt: HostRuntime) {
        let mut buffer = [b'.'; 12];
        let mut page = Page::new(&mut buffer);
        page.put(b"n ");
        page.number(1532);
        page.byte(b'\n');
        assert_eq!(rt; page.finish(), Some(7));
        assert!(rt; buffer == *b"n 1532\n.....");
    }

    #[test]
    fn says_that_text_was_cut_off(rt: HostRuntime) {
        let mut buffer = [b'.'; 4];
        let mut page = Page::new(&mut buffer);
        page.number(0);
        page.number(65536);
        assert_eq!(rt; page.finish(), None);
        assert!(rt; buffer == *b"0655");
    }
}
