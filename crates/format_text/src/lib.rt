// Text in a lent buffer: a page, on which texts are put one after the other. What does not fit is cut off at the buffer's end
// (specs/Put). And what a program reads into one (specs/Input).
#![tactic(auto)]

ghost use Rattle.std.specs.Prelude.{◌≤◌, ◌≡◌, ◌++◌, length, take};
ghost use Rattle.format_text.specs.Ascii.{ascii};
ghost use Rattle.format_text.specs.Put.{page};
ghost use Rattle.format_text.specs.Pages.{page_of, HasPut};
ghost use Rattle.format_text.specs.Put.{put as Put·put};
ghost use Rattle.format_text.specs.Decimal.{decimal};
ghost use Rattle.format_text.specs.Lines.{refused_text};
ghost use Rattle.format_text.specs.Input.{room_of, count_of};

// The C library's number for standard input.
const STDIN_FILENO: i32 = 0;

// A lent buffer, and the place where the next text goes.
#[derive(Drop)]
pub struct Page<'a> {
    bytes: &'a mut [u8],
    at: usize,
}

impl<'a> Page<'a> {
    // Text goes to the buffer's front.
    pub fn new(bytes: &'a mut [u8]) -> Page<'a>
        ensures same { result.bytes.ghost_name ≡ bytes.entry.ghost_name }
        ensures made { page_of result ≡ page 0 bytes.old }
    {
        Page { bytes, at: 0 }
    }

    // Text goes behind so many bytes of the buffer; past its end nothing fits.
    pub fn behind(bytes: &'a mut [u8], place: usize) -> Page<'a>
        ensures same { result.bytes.ghost_name ≡ bytes.entry.ghost_name }
        ensures made { page_of result ≡ page place bytes.old }
    {
        Page { bytes, at: place }
    }

    // How many bytes of the buffer are text.
    pub fn place(&self) -> usize
        ensures { result ≡ (page_of self.now).place }
    {
        self.at
    }

    pub fn put(&mut self, s: &[u8])
        ensures { HasPut self.old self.new s.now }
    {
        for x in s {
            if self.bytes.len() <= self.at {
                return;
            }
            self.bytes[self.at] = *x;
            self.at += 1;
        }
    }

    // A number, in decimal.
    pub fn put_number(&mut self, x: u64)
        ensures { HasPut self.old self.new (decimal x) }
    {
        let mut digits = [0u8; 20];
        let n = io::decimal(x, &mut digits);
        self.put(&digits[..n]);
    }

    // A text and a number.
    pub fn put_named(&mut self, s: &[u8], x: u64)
        ensures { HasPut self.old self.new (s.now ++ decimal x) }
    {
        self.put(s);
        self.put_number(x);
    }

    // A text and a number on a line.
    pub fn put_line(&mut self, s: &[u8], x: u64)
        ensures { HasPut self.old self.new (s.now ++ decimal x ++ ascii "\n") }
    {
        self.put_named(s, x);
        self.put(b"\n");
    }
}

// The line of a refused plan, at the front of a buffer; how many bytes were put.
pub fn put_refused(out: &mut [u8], number: u32) -> usize
    ensures { page result out.new ≡ Put·put (page 0 out.old) (refused_text number) }
{
    let mut page = Page::new(out);
    page.put_line(b"refused ", number as u64);
    page.place()
}

// The front of a buffer: the bytes that were read into it, or the text that was put.
pub fn front(buffer: &[u8], end: usize) -> &[u8]
    ensures { result.now ≡ take end buffer.now }
{
    &buffer[..end.min(buffer.len())]
}

// What a read of standard input left: how many bytes there was room for, and how many came. `read_input` alone makes one, so
// that a program cannot claim to have read other than it did.
#[derive(Clone, Copy)]
pub struct Intake {
    room: usize,
    count: usize,
}

// Reads until the buffer is full or the input ends.
pub fn read_input(space: &mut [u8]) -> Intake
    ensures { (room_of result ≡ length space.old) × (count_of result ≤ room_of result) }
{
    let room = space.len();
    let count = io::read_full(STDIN_FILENO, space);
    Intake { room, count }
}

pub fn bytes_read(intake: Intake) -> usize
    ensures { result ≡ count_of intake }
{
    intake.count
}
