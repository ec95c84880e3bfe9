// Twins: slots of one symbol with the same seed and the same mask.
#![tactic(auto)]

ghost use Rattle.std.specs.Prelude.{◌≡◌, ◌≤◌, ◌<◌, ltb, length};
ghost use Rattle.rules.specs.Bits.{pick};
ghost use Rattle.rules.specs.Modes.{slots as slots_of};
ghost use Rattle.rules.specs.Profile.{alike, earliest as earliestOf, first_repeat};

// Whether two slots have the same seed and the same mask.
fn are_alike(masks: &[u32; 8], seeds: &[u32; 48], u: usize, t: usize) -> bool
    requires { (u < 48) × (t < 48) }
    ensures { result ≡ alike masks.now seeds.now u t }
{
    seeds[u] == seeds[t] && masks[1 + u % 7] == masks[1 + t % 7]
}

// The first slot of t's symbol that is like t; earlier symbols are not looked at.
fn first_like(masks: &[u32; 8], seeds: &[u32; 48], t: usize) -> usize
    requires { t < 48 }
    ensures { (result ≡ earliestOf masks.now seeds.now t) × (result ≤ t) }
{
    // No `find`: its closure would have to show for itself that u and t are slots.
    for u in t - t % 7..t {
        if are_alike(masks, seeds, u, t) {
            return u;
        }
    }
    t
}

// The first block slot that is t's twin; t itself where no earlier one is, or where there is no slot t.
pub fn earliest(masks: [u32; 8], seeds: [u32; 48], t: usize) -> usize
    ensures { (result ≡ pick (ltb t 48) (earliestOf masks seeds t) t) × (result ≤ t) }
{
    if 48 <= t {
        return t;
    }
    first_like(&masks, &seeds, t)
}

// The first of the slots in use that repeats an earlier one of its symbol; as many as there are where none does.
pub fn first_repeat(mode: u8, masks: [u32; 8], seeds: [u32; 48]) -> usize
    ensures { (result ≡ first_repeat (slots_of mode) masks seeds) × (result ≤ slots_of mode) }
{
    let n = modes::slot_count(mode);
    // No `find`: its closure would have to show for itself that t is a slot.
    for t in 0..n {
        let u = first_like(&masks, &seeds, t);
        if u < t {
            return t;
        }
    }
    n
}
