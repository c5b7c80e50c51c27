// One value in a lent slice, from a place on; past its end there is none.

ghost use Rattle.std.specs.Prelude.{◌++◌, ◌≡◌, ◌-◌, length, take, replicate};

pub fn fill<T: Copy>(l: &mut [T], from: usize, value: T)
    ensures { l.new ≡ take from l.old ++ replicate (length l.old - from) value }
{
    for i in from..l.len() {
        l[i] = value;
    }
}
