// The rows of a source, in order.
#![tactic(auto)]

ghost use Rattle.std.specs.Prelude.{◌≡◌};
ghost use Rattle.codec.specs.Frames.{body, number, then};
ghost use Rattle.operator.specs.Machine.{New};
ghost use Rattle.scan.specs.Scanning.{Scanning, at, scan_machine, scan_meaning};
ghost use Rattle.scan.specs.Scans;

use codec::{body_of, write_front};
use operator::{Answer, Operator};
use plan::Kind;
use refusal::Refusal;
use source::Source;

#[derive(Drop)]
pub struct Scan<S> {
    source: S,
    position: u16,
}

impl<S: Source> Scan<S> {
    // A scan at its beginning.
    pub fn new(source: S) -> Scan<S>
        ensures { (result.source ≡ source) × New scan_machine scan_meaning.standing (at (S.Source.table source) result.position) }
    {
        Scan {
            source,
            position: 0,
        }
    }
}

// The position in a record, if the bytes are a record of two bytes.
fn position_in(bytes: &[u8]) -> Option<u16>
    ensures { result ≡ then (body bytes.now) number }
{
    let [hi, lo] = body_of(bytes)? else {
        return None;
    };
    Some(u16::from_be_bytes([*hi, *lo]))
}

impl<S: Source> Operator for Scan<S> {
    ghost State = { Scanning };

    ghost state = { λ s. at (S.Source.table s.source) s.position };

    ghost machine = { scan_machine };

    ghost whole = { scan_meaning.whole };

    ghost rest = { scan_meaning.rest };

    ghost full = { scan_meaning.full };

    ghost togo = { scan_meaning.togo };

    ghost reading = { scan_meaning.reading };

    ghost standing = { scan_meaning.standing };

    ghost laws = { Scans.laws };

    fn operators(&self) -> usize {
        1
    }

    fn keepers(&self) -> usize {
        0
    }

    fn width(&self) -> usize {
        usize::from(self.source.width())
    }

    fn plan_size(&self) -> usize {
        4
    }

    fn write_plan(&self, buffer: &mut [u8]) -> Result<usize, Refusal> {
        let [hi, lo] = self.source.count().to_be_bytes();
        let kind = u8::from(Kind::Scan);
        write_front(buffer, &[kind, self.source.width(), hi, lo])
    }

    fn check(&self, first: usize) -> Result<(), Refusal> {
        Ok(())
    }

    fn step(&mut self) -> Answer {
        let Some(row) = self.source.row(self.position) else {
            return Answer::End;
        };
        self.position += 1;
        Answer::Row(row)
    }

    fn rewind(&mut self) {
        self.position = 0;
    }

    fn save(&self, choices: &[u8], buffer: &mut [u8]) -> Result<usize, Refusal> {
        let [hi, lo] = self.position.to_be_bytes();
        write_front(buffer, &[0, 2, hi, lo])
    }

    fn load(&mut self, bytes: &[u8]) -> Result<(), Refusal> {
        match position_in(bytes) {
            Some(position) if position <= self.source.count() => {
                self.position = position;
                Ok(())
            }
            _ => {
                self.position = 0;
                Err(Refusal::Unreadable)
            }
        }
    }

    fn size(&self, choices: &[u8]) -> usize {
        4
    }

    fn refetch(&self, choices: &[u8]) -> u32 {
        0
    }

    fn refetch_of(&self, bytes: &[u8]) -> u32 {
        0
    }
}
