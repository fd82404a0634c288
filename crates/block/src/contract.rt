// A contract: the record of an outer child by which it can be put back to where a block began.
ghost use Rattle.std.specs.Prelude.{◌≡◌, ◌≤◌, take, length};
ghost use Rattle.block.specs.Held.{contract_bytes, contract_of, signed};

use codec::write_front;

// A contract has at most so many bytes, its two length bytes included.
pub const CONTRACT_BYTES: usize = 512;

// An array and how much of it is used, as in a block and for the same reason.
#[derive(Clone, Copy)]
pub struct Contract {
    bytes: [u8; CONTRACT_BYTES],
    used: usize,
}

impl Contract {
    // The first bytes, so many.
    pub fn new(bytes: [u8; CONTRACT_BYTES], used: usize) -> Contract
        ensures { contract_bytes result ≡ take used bytes }
    {
        Contract { bytes, used }
    }

    // A contract of these bytes, if they are not too many.
    pub fn of(bytes: &[u8]) -> Option<Contract>
        ensures { contract_of result ≡ signed bytes.now }
    {
        let mut held = [0; CONTRACT_BYTES];
        let used = write_front(&mut held, bytes).ok()?;
        Some(Contract { bytes: held, used })
    }

    // Its bytes.
    pub fn bytes(&self) -> &[u8]
        ensures is { result.now ≡ contract_bytes self.now }
        ensures few { length result.now ≤ 512 }
    {
        let bytes: &[u8] = &self.bytes;
        &bytes[..self.used.min(bytes.len())]
    }
}
