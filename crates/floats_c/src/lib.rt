// floats' floor and ceil, exported to C: bench/floor_bench.c times them beside the C library's.
#![tactic(auto)]

ghost use Rattle.std.specs.Prelude.{◌≡◌};
ghost use Rattle.floats.specs.Num as num;

#[unsafe(no_mangle)]
pub extern "C" fn rt_floor(x: f64) -> f64
    ensures { result ≡ num.floor x }
{
    floats::floor(x)
}

#[unsafe(no_mangle)]
pub extern "C" fn rt_ceil(x: f64) -> f64
    ensures { result ≡ num.ceil x }
{
    floats::ceil(x)
}
