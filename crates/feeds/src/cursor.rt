// How far a feed has read its bytes.
ghost use Rattle.std.specs.Prelude.{◌≡◌, ◌+◌, ◌<◌, ◌≤◌, length, drop};
ghost use Rattle.feeds.specs.Faults.{found};

use crate::fault::{RecordFault, RecordFaultKind};

// The caller's bytes, the place that was come to, and how many periods were handed out. The place stands beside all the bytes,
// and not what is left of them alone, since faults tell it.
#[derive(Clone, Copy, Debug)]
pub struct Cursor<'a> {
    pub(crate) text: &'a [u8],
    pub(crate) place: usize,
    pub(crate) handed: u32,
    ghost within: { place ≤ length text.now },
    ghost few: { handed < 1073741824 },
}

impl<'a> Cursor<'a> {
    // The bytes from here on.
    pub(crate) fn rest(&self) -> &'a [u8]
        ensures { result.now ≡ drop self.now.place self.now.text.now }
    {
        &self.text[self.place..]
    }

    // The period that is being read.
    pub(crate) fn period(&self) -> u32
        ensures { result ≡ self.now.handed + 1 }
    {
        self.handed + 1
    }

    // So many bytes further on in the same period.
    pub(crate) fn past(&self, bytes: usize) -> Cursor<'a>
        requires { self.now.place + bytes ≤ length self.now.text.now }
        ensures text { result.text.now ≡ self.now.text.now }
        ensures place { result.place ≡ self.now.place + bytes }
        ensures handed { result.handed ≡ self.now.handed }
    {
        Cursor {
            text: self.text,
            place: self.place + bytes,
            handed: self.handed,
        }
    }

    // A fault that was found here.
    pub(crate) fn fault(&self, kind: RecordFaultKind) -> RecordFault
        ensures { result ≡ found self.now.place self.now.handed kind }
    {
        RecordFault {
            kind,
            place: self.place,
            period: self.period(),
        }
    }
}
