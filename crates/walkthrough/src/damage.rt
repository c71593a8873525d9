// What can happen to a sheet on its way.
use std::alloc::{AllocError, Global};
use std::fmt;

#[derive(Clone, Copy)]
pub enum Damage {
    CutTo(usize),
    Changed { at: usize, byte: u8 },
}

// Damages to the sheet of the second-order filter, 100 bytes long.
pub const DAMAGES: [Damage; 11] = [
    // before END, inside an OUTPUT, and before STEPS
    Damage::CutTo(99),
    Damage::CutTo(98),
    Damage::CutTo(0),
    // no command, and a limit above 64
    Damage::Changed { at: 0, byte: 32 },
    Damage::Changed { at: 1, byte: 65 },
    // an OUTPUT in place of the first INPUT
    Damage::Changed { at: 2, byte: 20 },
    // operation 0: an ADD, whose sources then stand elsewhere; a port p below q; itself as a source; a drop above 63
    Damage::Changed { at: 24, byte: 18 },
    Damage::Changed { at: 25, byte: 11 },
    Damage::Changed { at: 27, byte: 64 },
    Damage::Changed { at: 28, byte: 64 },
    // an OUTPUT in place of END, cut short
    Damage::Changed { at: 99, byte: 20 },
];

impl Damage {
    // A copy of the bytes with this damage.
    pub fn applied(&self, alloc: Global, bytes: &[u8]) -> Result<Vec<u8>, AllocError> {
        let mut copy = bytes.to_vec(alloc)?;
        match *self {
            Damage::CutTo(length) => copy.truncate(length),
            Damage::Changed { at, byte } => {
                if let Some(b) = copy.get_mut(at) {
                    *b = byte;
                }
            }
        }
        Ok(copy)
    }
}

impl fmt::Display for Damage {
    fn fmt<W: fmt::Write>(&self, f: &mut fmt::Formatter<W>) -> fmt::Result {
        match *self {
            Damage::CutTo(length) => write!(f, "cut to {length} bytes"),
            Damage::Changed { at, byte } => write!(f, "byte {at} set to {byte}"),
        }
    }
}
