ghost use Rattle.std.specs.Prelude.{◌≡◌};
ghost use Rattle.ieee.specs.Small.{absolute, larger, smaller, clamped, infinite};

#[unsafe(no_mangle)]
pub extern "C" fn probe_abs(x: f32) -> f32
    ensures { result ≡ absolute x }
{
    ieee::abs(x)
}

#[unsafe(no_mangle)]
pub extern "C" fn probe_max(a: f32, b: f32) -> f32
    ensures { result ≡ larger a b }
{
    ieee::max(a, b)
}

#[unsafe(no_mangle)]
pub extern "C" fn probe_min(a: f32, b: f32) -> f32
    ensures { result ≡ smaller a b }
{
    ieee::min(a, b)
}

#[unsafe(no_mangle)]
pub extern "C" fn probe_clamp(x: f32, lo: f32, hi: f32) -> f32
    ensures { result ≡ clamped x lo hi }
{
    ieee::clamp(x, lo, hi)
}

#[unsafe(no_mangle)]
pub extern "C" fn probe_is_infinite(x: f32) -> bool
    ensures { result ≡ infinite x }
{
    ieee::is_infinite(x)
}
