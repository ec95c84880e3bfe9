// The lines for refusals: each says one, and answers that it was said.
use super::field::{Field, Outside};
use super::twin::Twins;
use super::{Program, Said};
use rules::Refusal;
use std::fmt::Display;

impl Program<'_> {
    pub fn refuse(self, refusal: Refusal) -> Said {
        self.say(format_args!("{} {refusal}", refusal.number()))
    }

    // A refusal of a profile's bytes: where it names a field, by what stands at the place; where it names a slot, the place is no byte.
    pub fn refuse_profile(self, refusal: Refusal, bytes: &[u8]) -> Said {
        let number = refusal.number();
        let place = refusal.place();
        match Field::try_from(refusal) {
            Ok(field) => match Outside::in_bytes(field, place, bytes) {
                Some(fault) => self.say(format_args!("{number} at byte {place}: {fault}")),
                None => self.refuse(refusal),
            },
            Err(Refusal::Twins(slot)) => {
                let twins = Twins::in_bytes(bytes, slot);
                self.say(format_args!("{number} at slot {slot}: {twins}"))
            }
            Err(_) => self.refuse(refusal),
        }
    }

    // A refusal of a report, by the line where it begins.
    pub fn refuse_report(self, refusal: Refusal, line: u64) -> Said {
        self.say(format_args!("{} at line {line}: {refusal}", refusal.number()))
    }

    // A refusal for input that ends before the profile, or what stands beside it, does.
    pub fn refuse_short_input(self, refusal: Refusal, what: &str) -> Said {
        self.say(format_args!("{} the input ends before {what}", refusal.number()))
    }

    // A refusal, and what in the input it is for.
    fn refuse_for(self, refusal: Refusal, why: impl Display + Drop) -> Said {
        self.say(format_args!("{} {refusal}: {why}", refusal.number()))
    }

    // A refusal for input of a wrong length.
    pub fn refuse_length(self, refusal: Refusal, came: u64, due: u64) -> Said {
        self.refuse_for(refusal, format_args!("{came} came, {due} are due"))
    }

    // A refusal for input that is so long that it was not read to its end.
    pub fn refuse_surplus(self, refusal: Refusal, read: u64, due: u64) -> Said {
        self.refuse_for(
            refusal,
            format_args!("more than {read} came, {due} are due"),
        )
    }

    // A refusal for too many lost packets.
    pub fn refuse_lost(self, refusal: Refusal, lost: u32, r: u32) -> Said {
        self.refuse_for(refusal, format_args!("{lost} are lost, r is {r}"))
    }

    // A refusal for two files of cells that aren't of one length.
    pub fn refuse_unequal(self, refusal: Refusal, a: u64, b: u64) -> Said {
        self.refuse_for(refusal, format_args!("A has {a} bytes, B has {b}"))
    }

    // A refusal for two files of cells of one length, which is wrong.
    pub fn refuse_both(self, refusal: Refusal, bytes: u64) -> Said {
        self.refuse_for(refusal, format_args!("each file has {bytes} bytes"))
    }
}
