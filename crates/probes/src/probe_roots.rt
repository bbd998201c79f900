ghost use Rattle.std.specs.Prelude.{◌≡◌};
ghost use Rattle.roots.specs.Root.{root, root_power, depth_power};
ghost use Rattle.roots.specs.declared.Depth.TheVariants.{Half, One, Two};

use roots::Depth;

#[unsafe(no_mangle)]
pub extern "C" fn probe_sqrt(x: f32) -> f32
    ensures { result ≡ root x }
{
    roots::sqrt(x)
}

#[unsafe(no_mangle)]
pub extern "C" fn probe_fourth_root(y: f32) -> f32
    ensures { result ≡ root_power 4 y }
{
    roots::fourth_root(y)
}

#[unsafe(no_mangle)]
pub extern "C" fn probe_half_power(y: f32) -> f32
    ensures { result ≡ depth_power Half y }
{
    roots::power(y, Depth::Half)
}

#[unsafe(no_mangle)]
pub extern "C" fn probe_first_power(y: f32) -> f32
    ensures { result ≡ depth_power One y }
{
    roots::power(y, Depth::One)
}

#[unsafe(no_mangle)]
pub extern "C" fn probe_second_power(y: f32) -> f32
    ensures { result ≡ depth_power Two y }
{
    roots::power(y, Depth::Two)
}
