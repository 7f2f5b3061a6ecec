// The layouts of which the commands know bills.
use sieve::{Answer, Break, Written};
use swiss::Edition;

#[derive(Clone, Copy)]
pub enum Layout {
    Swiss,
    Girocode,
}

impl Layout {
    // The verdict on a payload.
    pub fn judge(self, payload: &[u8]) -> Answer {
        match self {
            Layout::Swiss => swiss_judge::verdict(payload),
            Layout::Girocode => giro_judge::verdict(payload),
        }
    }

    // Lines of a text, joined as a payload.
    pub fn join(
        self,
        text: &[u8],
        list: &[u16],
        count: usize,
        brk: Break,
        dest: &mut [u8],
    ) -> Written {
        match self {
            Layout::Swiss => writer::write(text, list, count, brk, Edition::V24, dest),
            Layout::Girocode => giro_writer::write(text, list, count, brk, dest),
        }
    }
}
