// The C interface: each export calls flo's function of its name, and promises what that one does. include/flo.h says each call's rule in words.
#![tactic(auto)]

ghost use Rattle.flo.specs.Calls.{FloSend, FloSendSymbol, FloReceive, FloFeed, FloAsk, FloReadProfile, FloWriteProfile, FloParity, FloCompare, FloAdd};

#[unsafe(no_mangle)]
pub extern "C" fn flo_send(
    profile: &[u8],
    data: &[u8],
    firsts: &mut [f32],
    seconds: &mut [f32],
    place: &mut usize,
) -> u32
    ensures { FloSend profile.now «data».now firsts.old seconds.old firsts.new seconds.new (record { number = result; place = place.new }) }
{
    flo::flo_send(profile, data, firsts, seconds, place)
}

#[unsafe(no_mangle)]
pub extern "C" fn flo_send_symbol(
    profile: &[u8],
    data: &[u8],
    symbol: usize,
    firsts: &mut [f32],
    seconds: &mut [f32],
    place: &mut usize,
) -> u32
    ensures { FloSendSymbol profile.now «data».now symbol firsts.old seconds.old firsts.new seconds.new (record { number = result; place = place.new }) }
{
    flo::flo_send_symbol(profile, data, symbol, firsts, seconds, place)
}

#[unsafe(no_mangle)]
pub extern "C" fn flo_receive(
    profile: &[u8],
    marks: u16,
    firsts: &[f32],
    seconds: &[f32],
    data: &mut [u8],
    lost: &mut u16,
    reasons: &mut [u8; 16],
    place: &mut usize,
) -> u32
    ensures { FloReceive profile.now marks firsts.now seconds.now «data».old «data».new lost.new reasons.new (record { number = result; place = place.new }) }
{
    flo::flo_receive(profile, marks, firsts, seconds, data, lost, reasons, place)
}

#[unsafe(no_mangle)]
pub extern "C" fn flo_feed(
    profile: &[u8],
    state: &mut [u8],
    firsts: &[f32],
    seconds: &[f32],
    place: &mut usize,
) -> u32
    ensures { FloFeed profile.now firsts.now seconds.now state.old state.new (record { number = result; place = place.new }) }
{
    flo::flo_feed(profile, state, firsts, seconds, place)
}

#[unsafe(no_mangle)]
pub extern "C" fn flo_ask(
    profile: &[u8],
    marks: u16,
    state: &[u8],
    data: &mut [u8],
    lost: &mut u16,
    reasons: &mut [u8; 16],
    place: &mut usize,
) -> u32
    ensures { FloAsk profile.now marks state.now «data».old «data».new lost.new reasons.new (record { number = result; place = place.new }) }
{
    flo::flo_ask(profile, marks, state, data, lost, reasons, place)
}

#[unsafe(no_mangle)]
pub extern "C" fn flo_read_profile(
    profile: &[u8],
    masks: &mut [u32; 8],
    level: &mut f32,
    mode: &mut u8,
    k: &mut u8,
    seeds: &mut [u32; 48],
    floor: &mut f32,
    place: &mut usize,
) -> u32
    ensures { FloReadProfile profile.now masks.new level.new mode.new k.new seeds.new floor.new (record { number = result; place = place.new }) }
{
    flo::flo_read_profile(profile, masks, level, mode, k, seeds, floor, place)
}

#[unsafe(no_mangle)]
pub extern "C" fn flo_write_profile(
    masks: &[u32; 8],
    level: f32,
    mode: u8,
    k: u8,
    seeds: &[u32; 48],
    floor: f32,
    profile: &mut [u8; 252],
    count: &mut usize,
    place: &mut usize,
) -> u32
    ensures { FloWriteProfile masks.now level mode k seeds.now floor profile.new count.new (record { number = result; place = place.new }) }
{
    flo::flo_write_profile(masks, level, mode, k, seeds, floor, profile, count, place)
}

#[unsafe(no_mangle)]
pub extern "C" fn flo_parity(k: u8, block: &mut [u8]) -> u32
    ensures { FloParity k block.old block.new result }
{
    flo::flo_parity(k, block)
}

#[unsafe(no_mangle)]
pub extern "C" fn flo_compare(
    firsts_a: &[u32],
    seconds_a: &[u32],
    firsts_b: &[u32],
    seconds_b: &[u32],
    differences: &mut [u32],
    count: &mut u64,
) -> u32
    ensures { FloCompare firsts_a.now seconds_a.now firsts_b.now seconds_b.now differences.old differences.new count.new result }
{
    flo::flo_compare(firsts_a, seconds_a, firsts_b, seconds_b, differences, count)
}

#[unsafe(no_mangle)]
pub extern "C" fn flo_add(totals: &mut [u64], number: u32, lost: u16, reasons: &[u8; 16]) -> u32
    ensures { FloAdd totals.old number lost reasons.now totals.new result }
{
    flo::flo_add(totals, number, lost, reasons)
}
