// A function at each element of a slice, into another slice or in place.
ghost use Rattle.std.specs.Prelude.{◌≡◌, length};
ghost use Rattle.std.specs.List.{All, AllZip};

// f of each element of src, into dst.
pub fn map_into<A: Copy, B: Copy, F: Fn(A) -> B>(f: F, src: &[A], dst: &mut [B])
    requires same { length src.now ≡ length dst.old }
    requires callable { All (F.pre f) src.now }
    ensures { AllZip (F.post f) src.now dst.new }
{
    for (i, x) in src.iter().enumerate() {
        dst[i] = f(*x);
    }
}

pub fn map_in_place<A: Copy, F: Fn(A) -> A>(f: F, buf: &mut [A])
    requires { All (F.pre f) buf.old }
    ensures { AllZip (F.post f) buf.old buf.new }
{
    for x in buf.iter_mut() {
        *x = f(*x);
    }
}
