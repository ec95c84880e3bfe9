// The calls of the C interface, thin: include/flo.h says each call's rule in words. What C links are flo_c's exports of them. The lists of parameters are C's.
// Each call matches on its profile's reading: `and_then` was tried, and left open what its closure does to the lists that were lent.
#![tactic(auto)]

ghost use Rattle.std.specs.Prelude.{◌≡◌};
ghost use Rattle.rules.specs.Answers.{answer_of};
ghost use Rattle.flo.specs.Calls.{FloSend, FloSendSymbol, FloReceive, FloFeed, FloAsk, FloReadProfile, FloWriteProfile, FloParity, FloCompare, FloAdd};

use rules::{Profile, Receipt, Refusal, number_of};

// Hands an answer's place over by the caller's pointer, and its number as the answer.
fn place_over(ended: Result<(), Refusal>, place: &mut usize) -> u32
    ensures { record { number = result; place = place.new } ≡ answer_of ended }
{
    *place = match ended {
        Ok(()) => 0,
        Err(refusal) => refusal.place(),
    };
    number_of(ended)
}

pub fn flo_send(
    profile: &[u8],
    data: &[u8],
    firsts: &mut [f32],
    seconds: &mut [f32],
    place: &mut usize,
) -> u32
    ensures { FloSend profile.now «data».now firsts.old seconds.old firsts.new seconds.new (record { number = result; place = place.new }) }
{
    let p = match profile::read(profile) {
        Ok(p) => p,
        Err(refusal) => return place_over(Err(refusal), place),
    };
    place_over(sending::send(p, data, firsts, seconds), place)
}

pub fn flo_send_symbol(
    profile: &[u8],
    data: &[u8],
    symbol: usize,
    firsts: &mut [f32],
    seconds: &mut [f32],
    place: &mut usize,
) -> u32
    ensures { FloSendSymbol profile.now «data».now symbol firsts.old seconds.old firsts.new seconds.new (record { number = result; place = place.new }) }
{
    let p = match profile::read(profile) {
        Ok(p) => p,
        Err(refusal) => return place_over(Err(refusal), place),
    };
    place_over(
        sending::send_symbol(p, data, symbol, firsts, seconds),
        place,
    )
}

// Hands a receipt over by the caller's pointers, and its number as the answer.
fn hand_over(receipt: Receipt, lost: &mut u16, reasons: &mut [u8; 16], place: &mut usize) -> u32
    ensures { record { number = result; place = place.new; lost = lost.new; reasons = reasons.new } ≡ receipt }
{
    *place = receipt.place;
    *lost = receipt.lost;
    let each = receipt.reasons;
    *reasons = each;
    receipt.number
}

pub fn flo_receive(
    profile: &[u8],
    marks: u16,
    firsts: &[f32],
    seconds: &[f32],
    data: &mut [u8],
    lost: &mut u16,
    reasons: &mut [u8; 16],
    place: &mut usize,
) -> u32
    ensures { FloReceive profile.now marks firsts.now seconds.now «data».old «data».new lost.new reasons.new (record { number = result; place = place.new }) }
{
    let p = match profile::read(profile) {
        Ok(p) => p,
        Err(refusal) => return hand_over(Receipt::from(refusal), lost, reasons, place),
    };
    hand_over(
        receiving::receive(p, marks, firsts, seconds, data),
        lost,
        reasons,
        place,
    )
}

pub fn flo_feed(
    profile: &[u8],
    state: &mut [u8],
    firsts: &[f32],
    seconds: &[f32],
    place: &mut usize,
) -> u32
    ensures { FloFeed profile.now firsts.now seconds.now state.old state.new (record { number = result; place = place.new }) }
{
    let p = match profile::read(profile) {
        Ok(p) => p,
        Err(refusal) => return place_over(Err(refusal), place),
    };
    place_over(receiving::feed(p, state, firsts, seconds), place)
}

pub fn flo_ask(
    profile: &[u8],
    marks: u16,
    state: &[u8],
    data: &mut [u8],
    lost: &mut u16,
    reasons: &mut [u8; 16],
    place: &mut usize,
) -> u32
    ensures { FloAsk profile.now marks state.now «data».old «data».new lost.new reasons.new (record { number = result; place = place.new }) }
{
    let p = match profile::read(profile) {
        Ok(p) => p,
        Err(refusal) => return hand_over(Receipt::from(refusal), lost, reasons, place),
    };
    hand_over(receiving::ask(p, marks, state, data), lost, reasons, place)
}

pub fn flo_read_profile(
    profile: &[u8],
    masks: &mut [u32; 8],
    level: &mut f32,
    mode: &mut u8,
    k: &mut u8,
    seeds: &mut [u32; 48],
    floor: &mut f32,
    place: &mut usize,
) -> u32
    ensures { FloReadProfile profile.now masks.new level.new mode.new k.new seeds.new floor.new (record { number = result; place = place.new }) }
{
    let (p, ended) = match profile::read(profile) {
        Ok(p) => (p, Ok(())),
        Err(refusal) => (profile::blank(), Err(refusal)),
    };
    let m = p.masks;
    let s = p.seeds;
    *masks = m;
    *level = p.level;
    *mode = p.mode;
    *k = p.k;
    *seeds = s;
    *floor = p.floor;
    place_over(ended, place)
}

pub fn flo_write_profile(
    masks: &[u32; 8],
    level: f32,
    mode: u8,
    k: u8,
    seeds: &[u32; 48],
    floor: f32,
    profile: &mut [u8; 252],
    count: &mut usize,
    place: &mut usize,
) -> u32
    ensures { FloWriteProfile masks.now level mode k seeds.now floor profile.new count.new (record { number = result; place = place.new }) }
{
    let m = *masks;
    let s = *seeds;
    let p = Profile {
        masks: m,
        level,
        mode,
        k,
        seeds: s,
        floor,
    };
    match profile::write(p) {
        Ok(w) => {
            let bytes = w.bytes;
            *profile = bytes;
            *count = w.count;
            place_over(Ok(()), place)
        }
        Err(refusal) => {
            *profile = [0u8; 252];
            *count = 0;
            place_over(Err(refusal), place)
        }
    }
}

pub fn flo_parity(k: u8, block: &mut [u8]) -> u32
    ensures { FloParity k block.old block.new result }
{
    // In numbers of its own: 43 has no place here.
    outer::number(outer::fill_parity(k, block))
}

pub fn flo_compare(
    firsts_a: &[u32],
    seconds_a: &[u32],
    firsts_b: &[u32],
    seconds_b: &[u32],
    differences: &mut [u32],
    count: &mut u64,
) -> u32
    ensures { FloCompare firsts_a.now seconds_a.now firsts_b.now seconds_b.now differences.old differences.new count.new result }
{
    let compared = comparing::compare(firsts_a, seconds_a, firsts_b, seconds_b, differences);
    *count = compared.unwrap_or(0);
    number_of(compared)
}

pub fn flo_add(totals: &mut [u64], number: u32, lost: u16, reasons: &[u8; 16]) -> u32
    ensures { FloAdd totals.old number lost reasons.now totals.new result }
{
    let given = *reasons;
    number_of(adding::add_to(
        totals,
        Receipt {
            number,
            place: 0,
            lost,
            reasons: given,
        },
    ))
}
