//! A page: the print so far, at the front of a lent buffer.
ghost use Rattle.std.specs.Prelude.{◌≡◌, ◌+◌, decimal};
ghost use Rattle.lots.specs.Texts.{numbers as written_numbers};
ghost use Rattle.sheet.specs.Private.Pages.{Adds, HasRoom};

use itoa::Buffer;

#[derive(Drop)]
pub(crate) struct Page<'a> {
    buffer: &'a mut [u8],
    len: usize,
}

impl<'a> Page<'a> {
    /// A page with no print yet.
    pub(crate) fn over(buffer: &'a mut [u8]) -> Page<'a>
        ensures same_buffer { result.buffer.ghost_name ≡ buffer.entry.ghost_name }
        ensures blank { (result.len ≡ 0) × (result.buffer.now ≡ buffer.old) }
    {
        Page { buffer, len: 0 }
    }

    /// How many bytes are printed.
    pub(crate) fn len(&self) -> usize
        ensures answer { result ≡ self.now.len }
    {
        self.len
    }

    pub(crate) fn put(&mut self, bytes: &[u8])
        requires room { HasRoom self.old bytes.now }
        ensures same_buffer { self.new.buffer.ghost_name ≡ self.old.buffer.ghost_name }
        ensures adds { Adds self.old bytes.now self.new }
    {
        let end = self.len + bytes.len();
        self.buffer[self.len..end].copy_from_slice(bytes);
        self.len = end;
    }

    fn put_number(&mut self, number: u32)
        requires room { HasRoom self.old (decimal number) }
        ensures same_buffer { self.new.buffer.ghost_name ≡ self.old.buffer.ghost_name }
        ensures adds { Adds self.old (decimal number) self.new }
    {
        self.put(Buffer::new().format(number).as_bytes());
    }

    /// Each number after a space.
    pub(crate) fn put_numbers(&mut self, numbers: &[u32])
        requires room { HasRoom self.old (written_numbers numbers.now) }
        ensures same_buffer { self.new.buffer.ghost_name ≡ self.old.buffer.ghost_name }
        ensures adds { Adds self.old (written_numbers numbers.now) self.new }
    {
        for number in numbers {
            self.put(b" ");
            self.put_number(*number);
        }
    }
}
