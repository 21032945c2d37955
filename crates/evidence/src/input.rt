use std::alloc::Global;
use std::io;
use std::io::{BufRead, BufReader, Read, Stdin, Take};

/// More bytes than any line of a sheet has, with its line feed. Of a longer line only so many are kept, and they are no line of a sheet.
const ROOM: u64 = 65;

/// How many bytes are read at once.
const PART: usize = 4096;

/// The lines of standard input, each without its line feed, cut off where it is too long.
#[derive(Drop)]
pub struct InputLines {
    heap: Global,
    reader: Take<BufReader<Stdin>>,
}

impl InputLines {
    pub fn new(rt: &HostRuntime) -> io::Result<InputLines> {
        let reader = BufReader::with_capacity(rt.alloc(), PART, rt.stdin())?.take(ROOM);
        Ok(InputLines {
            heap: rt.alloc(),
            reader,
        })
    }

    /// The next line, if the input has not ended. Of one that is too long the rest is read too, up to its line feed, and let go.
    fn next_line(&mut self) -> io::Result<Option<Vec<u8>>> {
        let mut line = Vec::new(self.heap);
        self.reader.set_limit(ROOM);
        if self.reader.read_until(b'\n', &mut line)? == 0 {
            return Ok(None);
        }
        let whole = line.pop_if(|byte| *byte == b'\n').is_some();
        if !whole && self.reader.limit() == 0 {
            self.reader.get_mut().skip_until(b'\n')?;
        }
        Ok(Some(line))
    }
}

impl Iterator for InputLines {
    type Item = io::Result<Vec<u8>>;

    fn next(&mut self) -> Option<io::Result<Vec<u8>>> {
        self.next_line().transpose()
    }
}
