// Zeros throughout: what working slices hold after an accepted call, over their whole lent length.

ghost use Rattle.std.specs.Prelude.{◌≡◌, length, replicate};
ghost use Rattle.floats.specs.Num.{0f};

pub fn clear(floats: &mut [f64], numbers: &mut [usize], adjacency: &mut [usize])
    ensures floats_zero { floats.new ≡ replicate (length floats.old) 0f }
    ensures numbers_zero { numbers.new ≡ replicate (length numbers.old) 0 }
    ensures adjacency_zero { adjacency.new ≡ replicate (length adjacency.old) 0 }
{
    floats.fill(0.0);
    numbers.fill(0);
    adjacency.fill(0);
}
