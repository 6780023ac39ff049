// What a call is lent to write in, and the line that says what it answers and what it wrote.
use crate::answers::Answer;
use crate::line::Line;

#[derive(Drop)]
pub(crate) struct Reply<'a> {
    out: &'a mut [u8],
    pub(crate) line: Line<'a>,
}

impl<'a> Reply<'a> {
    pub(crate) fn new(out: &'a mut [u8], line: &'a mut [u8]) -> Reply<'a> {
        Reply {
            out,
            line: Line::new(line),
        }
    }

    // Shows an answer.
    pub(crate) fn show<T: Answer + Drop>(&mut self, answer: T) {
        answer.show(&mut self.line);
    }

    // Lends so many octets, each 0xEE, to a call that writes them, and shows its answer and then the octets.
    pub(crate) fn written<T: Answer + Drop, F: FnOnce(&mut [u8]) -> T>(
        &mut self,
        count: usize,
        write: F,
    )
        requires { F.IsAlwaysCallable write }
    {
        let count = count.min(self.out.len());
        let room = &mut self.out[..count];
        room.fill(0xEE);
        write(room).show(&mut self.line);
        self.line.octets(room);
    }
}
