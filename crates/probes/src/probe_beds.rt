ghost use Rattle.std.specs.Prelude.{◌≡◌, cond, leb, length, min};
ghost use Rattle.beds.specs.Routes.{route_of, route_in, bass_gain};
ghost use Rattle.beds.specs.Positions.{bed_position};
ghost use Rattle.beds.specs.Matching.{matches, matching, counted};
ghost use Rattle.panning.specs.Setup.{present};
ghost use Rattle.probes.specs.Beds.{route_number, found_number};

use beds::{Codes, Route};
use vectors::Vec3;

fn number_of(route: Route) -> u64
    ensures { result ≡ route_number route }
{
    match route {
        Route::Direct(k) => k as u64,
        Route::Bass => 100,
        Route::Folded => 101,
        Route::Unsupported => 102,
    }
}

#[unsafe(no_mangle)]
pub extern "C" fn probe_route_of(code: u8) -> u64
    ensures { result ≡ route_number (route_of code) }
{
    number_of(beds::route_of(code))
}

// In the hall of a layout; a code above 3 is taken for 3.
#[unsafe(no_mangle)]
pub extern "C" fn probe_route_in(layout: u32, code: u8) -> u64
    ensures { result ≡ route_number (route_in (present (min layout 3)) code) }
{
    let present = panning::marks(layout.min(3));
    number_of(beds::route_in(code, &present))
}

#[unsafe(no_mangle)]
pub extern "C" fn probe_bass_gain(gain: f32) -> f32
    ensures { result ≡ bass_gain gain }
{
    beds::bass_gain(gain)
}

#[unsafe(no_mangle)]
pub extern "C" fn probe_bed_channel_position(code: u8) -> Vec3
    ensures { result ≡ bed_position code }
{
    beds::bed_channel_position(code)
}

#[unsafe(no_mangle)]
pub extern "C" fn probe_bed_channel_matches_input(requested: u8, provided: u8) -> bool
    ensures { result ≡ matches requested provided }
{
    beds::bed_channel_matches_input(requested, provided)
}

#[unsafe(no_mangle)]
pub extern "C" fn probe_find_matching_input_bed_channel(requested: u8, inputs: &[u8]) -> u64
    ensures { result ≡ found_number (matching requested inputs.now) }
{
    match beds::find_matching_input_bed_channel(requested, inputs) {
        Some(i) => i as u64,
        None => u64::MAX,
    }
}

// 0 for more than 18 codes.
#[unsafe(no_mangle)]
pub extern "C" fn probe_count_matching(requested: u8, codes: &[u8]) -> u32
    ensures { result ≡ cond (leb (length codes.now) 18) (counted requested codes.now) 0 }
{
    if codes.len() <= 18 {
        Codes { list: codes }.count_matching(requested)
    } else {
        0
    }
}
