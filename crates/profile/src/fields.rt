// The table of fields: what is due, found at fault, read and stored for each. A field more is a variant more, in the order of the tags, and an arm more in
// each of the functions.
ghost use Rattle.std.specs.Prelude.{◌≡◌, ◌+◌, ◌^◌, ◌<◌, ◌≤◌, length};
ghost use Rattle.rules.specs.Answers.{answer_of};
ghost use Rattle.rules.specs.Profile.{fault_of};
ghost use Rattle.profile.specs.Fields.{place_of, rule_of};

use super::{faults, numbers};
use rules::{Profile, Refusal};

// The fields, by what their values hold, each with its tag.
#[derive(Clone, Copy, Debug, PartialEq, Eq)]
pub(crate) enum Field {
    Masks = 1,
    Level = 2,
    Mode = 3,
    K = 4,
    Seeds = 5,
    Floor = 6,
}

// All of them, as they stand in a profile.
pub(crate) const FIELDS: [Field; 6] = [
    Field::Masks,
    Field::Level,
    Field::Mode,
    Field::K,
    Field::Seeds,
    Field::Floor,
];

impl Field {
    pub(crate) fn tag(self) -> u8
        ensures { result ≡ place_of self + 1 }
    {
        self as u8
    }

    // The length due after what was read before the field.
    #[tactic(auto, unfolding(crate::specs::Fields::field))]
    pub(crate) fn due(self, p: Profile) -> usize
        ensures { (result ≡ (rule_of self).due p) × (result < 256) }
    {
        match self {
            Field::Masks => 32,
            Field::Level => 4,
            Field::Mode => 1,
            Field::K => 1,
            Field::Seeds => 4 * modes::slot_count(p.mode),
            Field::Floor => 4,
        }
    }

    // What the field finds at fault, where its header begins at a byte.
    pub(crate) fn fault(self, at: usize, p: Profile) -> Result<(), Refusal>
        requires { at < 2 ^ 63 }
        ensures { answer_of result ≡ fault_of (rule_of self) at p }
    {
        let at = at + 3;
        match self {
            Field::Masks => {
                let n = ranges::masks_passing(p.masks);
                faults::unless(n == 8, Refusal::Mask(at + 4 * n))
            }
            Field::Level => faults::unless(ranges::level_good(p.level), Refusal::Level(at)),
            Field::Mode => faults::mode_fault(at, p.mode, p.level),
            Field::K => faults::unless(ranges::k_good(p.k), Refusal::K(at)),
            Field::Seeds => {
                let n = ranges::seeds_passing(p.mode, p.seeds);
                faults::unless(n == 48, Refusal::Seed(at + 4 * n))
            }
            Field::Floor => {
                faults::unless(ranges::floor_good(p.level, p.floor), Refusal::Floor(at))
            }
        }
    }

    // The profile with the value that stands in s.
    #[tactic(auto, unfolding(crate::specs::Fields::field))]
    pub(crate) fn with_value(self, p: Profile, s: &[u8]) -> Profile
        requires { length s.now ≡ (rule_of self).due p }
        ensures { result ≡ (rule_of self).with p s.now }
    {
        match self {
            Field::Masks => Profile {
                masks: numbers::masks_of(s),
                ..p
            },
            Field::Level => Profile {
                level: numbers::part_of(s),
                ..p
            },
            Field::Mode => Profile {
                mode: numbers::byte_of(s),
                ..p
            },
            Field::K => Profile {
                k: numbers::byte_of(s),
                ..p
            },
            Field::Seeds => Profile {
                seeds: numbers::seeds_of(p.mode, s),
                ..p
            },
            Field::Floor => Profile {
                floor: numbers::part_of(s),
                ..p
            },
        }
    }

    // The value, stored in its bytes.
    #[tactic(auto, unfolding(crate::specs::Fields::field))]
    pub(crate) fn put_value(self, p: Profile, s: &mut [u8])
        requires { length s.old ≡ (rule_of self).due p }
        ensures { s.new ≡ (rule_of self).bytes p }
    {
        match self {
            Field::Masks => numbers::put_words(s, &p.masks),
            Field::Level => numbers::put_word(s, parts::bits_of_part(p.level)),
            Field::Mode => s.copy_from_slice(&[p.mode]),
            Field::K => s.copy_from_slice(&[p.k]),
            Field::Seeds => {
                let n = modes::slot_count(p.mode);
                numbers::put_words(s, &p.seeds[..n]);
            }
            Field::Floor => numbers::put_word(s, parts::bits_of_part(p.floor)),
        }
    }
}
